// A run from its start to its stop, in one call.
ghost use Rattle.std.specs.Prelude.{◌≡◌, Some, Ok, Err};
ghost use Rattle.session.specs.Of.{model_of};
ghost use Rattle.scripts_model.specs.Buffer.{scripts_of};
ghost use Rattle.scripts_model.specs.Limits.{numbers, start_refusal};
ghost use Rattle.scripts_model.specs.Schedule.{script_run};
ghost use Rattle.scripts_model.specs.Started.{Stopped};
ghost use Rattle.scripts.specs.Of.{totals_of};

use crate::report::Totals;
use crate::start::NotStarted;
use crate::state::ScriptRun;
use basics::transaction::TransactionNumber;
use rules::rule::LockRule;
use scripts_model::step::Step;
use session::state::Session;
use stores::store::NodeStore;

// What a run has come to.
#[derive(Drop)]
pub struct Outcome<R, S> {
    pub session: Session<R, S>,
    pub totals: Totals,
}

// Starts a run and plays it. Its parameters are those of `start`.
pub fn run_scripts<'s, R: LockRule, S: NodeStore>(
    rule: R,
    store: S,
    steps: &'s [Step],
    turns: &'s [TransactionNumber],
    allowance: u32,
) -> Result<Outcome<R, S>, NotStarted<R, S>>
    ensures { elim result [
      | Ok end ↦
          Stopped (R.rule rule) (S.store store) (scripts_of steps.now) (numbers turns.now) allowance (model_of R.rule S.store end.session)
          × (end.totals ≡ totals_of (script_run (R.rule rule) (S.store store) (scripts_of steps.now) (numbers turns.now) allowance))
      | Err e ↦
          (start_refusal allowance (scripts_of steps.now) (numbers turns.now) ≡ Some e.refusal)
          × (e.rule ≡ rule) × (e.store ≡ store)
    ] }
{
    let mut run = ScriptRun::start(rule, store, steps, turns, allowance)?;
    let totals = run.play();
    Ok(Outcome {
        session: run.into_session(),
        totals,
    })
}
