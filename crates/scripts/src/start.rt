// The start of a run.
ghost use Rattle.std.specs.Prelude.{◌≡◌, ◌<◌, Some, None, Ok, Err};
ghost use Rattle.session.specs.Of.{model_of};
ghost use Rattle.scripts_model.specs.Buffer.{scripts_of};
ghost use Rattle.scripts_model.specs.History.{begun_session};
ghost use Rattle.scripts_model.specs.Limits.{numbers, start_refusal};
ghost use Rattle.scripts_model.specs.Started.{Started};
ghost use Rattle.scripts.specs.Found.{Finds};
ghost use Rattle.scripts.specs.Of.{run_of};

use crate::cursors::Cursors;
use crate::find::{before_first, find};
use crate::state::ScriptRun;
use basics::list::all_below;
use basics::refusal::Refusal;
use basics::transaction::TransactionNumber;
use rules::rule::LockRule;
use scripts_model::limits::{MOST_LISTED, MOST_STEPS};
use scripts_model::step::Step;
use session::state::Session;
use stores::store::NodeStore;

// The greatest allowance.
pub const MOST_TURNS: u32 = 40_000;

// Why a run did not start, and what it would have owned, as it was given.
#[derive(Drop)]
pub struct NotStarted<R, S> {
    pub refusal: Refusal,
    pub rule: R,
    pub store: S,
}

// Where the scripts begin, or why they may not run. The steps, the turns and the allowance are three things to the caller of
// a run; a struct of them would be taken apart again at once.
fn admit(steps: &[Step], turns: &[TransactionNumber], allowance: u32) -> Result<Cursors, Refusal>
    ensures { elim result [
      | Ok found ↦ (start_refusal allowance (scripts_of steps.now) (numbers turns.now) ≡ None) × Finds steps.now found
      | Err refusal ↦ start_refusal allowance (scripts_of steps.now) (numbers turns.now) ≡ Some refusal
    ] }
{
    if allowance > MOST_TURNS {
        return Err(Refusal::AllowanceTooLarge);
    }
    let found = find(steps).ok_or(Refusal::LimitExceeded)?;
    if steps.len() - before_first(steps) > MOST_STEPS
        || turns.len() > MOST_LISTED
        || !all_below(turns, found.count())
    {
        return Err(Refusal::LimitExceeded);
    }
    Ok(found)
}

// A session in which so many transactions are begun.
fn with_begun<R: LockRule, S: NodeStore>(rule: R, store: S, count: u8) -> Session<R, S>
    ensures { model_of R.rule S.store result ≡ (begun_session (R.rule rule) (S.store store) count).state }
{
    let mut session = Session::new(rule, store);
    for _ in 0..count {
        let _ = session.begin();
    }
    session
}

impl<'s, R: LockRule, S: NodeStore> ScriptRun<'s, R, S> {
    // A run of the scripts in the step buffer, each begun as the transaction of its number. Its turns are those of the list,
    // and then rounds, in all no more than the allowance.
    pub fn start(
        rule: R,
        store: S,
        steps: &'s [Step],
        turns: &'s [TransactionNumber],
        allowance: u32,
    ) -> Result<ScriptRun<'s, R, S>, NotStarted<R, S>>
        ensures { elim result [
          | Ok run ↦
              Started (R.rule rule) (S.store store) (scripts_of steps.now) (numbers turns.now) allowance (run_of R.rule S.store run)
              × (run.allowance ≡ allowance)
          | Err e ↦
              (start_refusal allowance (scripts_of steps.now) (numbers turns.now) ≡ Some e.refusal)
              × (e.rule ≡ rule) × (e.store ≡ store)
        ] }
    {
        // By `match`: a closure for `map_err` would take the rule and the store with it.
        match admit(steps, turns, allowance) {
            Err(refusal) => Err(NotStarted {
                refusal,
                rule,
                store,
            }),
            Ok(cursors) => Ok(ScriptRun {
                session: with_begun(rule, store, cursors.count()),
                steps,
                turns,
                cursors,
                place: 0,
                taken: 0,
                allowance,
            }),
        }
    }
}
