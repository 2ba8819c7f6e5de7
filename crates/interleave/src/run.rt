// The run of a text that was read.
use crate::output::show;
use basics::refusal::Refusal;
use basics::transaction::TransactionNumber;
use images::pack::pack;
use images::packed::PackedStore;
use rules::any::AnyRule;
use rules::guard::GuardTable;
use rules::guarded::GuardRule;
use rules::majority::MajorityRule;
use rules::rule::LockRule;
use rules::tree::TreeRule;
use runlines::lists::{write_order, write_values};
use runlines::turns::{write_fault, write_totals, write_turn};
use runtext::setup::Setup;
use runtext_model::kind::RuleKind;
use scripts::start::MOST_TURNS;
use scripts::state::ScriptRun;
use scripts_model::limits::{MOST_LISTED, MOST_STEPS};
use scripts_model::step::Step;
use std::io;
use std::io::Write;
use stores::store::NodeStore;

// The rule that the text names.
fn rule_of(kind: Option<RuleKind>, table: &GuardTable) -> AnyRule<'_> {
    let plan = table.plan();
    match kind {
        Some(RuleKind::Majority) => AnyRule::Majority(MajorityRule { plan }),
        Some(RuleKind::Guards) => AnyRule::Guards(GuardRule { table }),
        Some(RuleKind::Tree) | None => AnyRule::Tree(TreeRule { plan }),
    }
}

// Takes every turn, and shows it; then the order, the values and the totals.
fn play<R: LockRule + Drop, S: NodeStore + Drop, W: Write>(
    mut run: ScriptRun<R, S>,
    to: &mut W,
) -> io::Result<()> {
    while let Some(turn) = run.advance() {
        show(to, |line| write_turn(turn.script, turn.answer, line))?;
    }
    let totals = run.totals();
    let session = run.into_session();
    show(to, |line| write_order(&session, line))?;
    let (_, store) = session.into_parts();
    show(to, |line| write_values(&store, line))?;
    show(to, |line| write_totals(totals.turns, totals.all_done, line))
}

// Starts the run and plays it; Err where it may not start.
fn start<W: Write>(
    setup: &Setup,
    steps: &[Step; MOST_STEPS],
    turns: &[TransactionNumber; MOST_LISTED],
    to: &mut W,
) -> Result<io::Result<()>, Refusal> {
    let plan = setup.table.plan();
    let mut page = [0u8; 128];
    pack(plan, &setup.values, &mut page)?;
    let store = PackedStore::new(plan, &mut page);
    let rule = rule_of(setup.kind, &setup.table);
    let step_count = usize::from(setup.steps);
    let turn_count = setup.turns.map_or(0, usize::from);
    // By `match`. Tried with `map_err`: the check refuses a closure over what did not start, since the store in it holds a `&mut`.
    match ScriptRun::start(
        rule,
        store,
        &steps[..step_count],
        &turns[..turn_count],
        MOST_TURNS,
    ) {
        Ok(run) => Ok(play(run, to)),
        Err(not) => Err(not.refusal),
    }
}

pub(crate) fn run<W: Write>(
    setup: &Setup,
    steps: &[Step; MOST_STEPS],
    turns: &[TransactionNumber; MOST_LISTED],
    to: &mut W,
) -> io::Result<()> {
    match start(setup, steps, turns, to) {
        Ok(shown) => shown,
        Err(refusal) => show(to, |line| write_fault(refusal, 0, line)), // 0: of no line
    }
}
