// One step of a script.
ghost use Rattle.std.specs.Prelude.{◌≡◌, ◌-◌, ◌^◌, ◌<◌, ◌⊎◌, length};
ghost use Rattle.model.specs.Checks.{answer};
ghost use Rattle.model.specs.Step.{after};
ghost use Rattle.session.specs.Of.{model_of, answer_of};
ghost use Rattle.scripts_model.specs.declared.step.Step.TheVariants.{End};
ghost use Rattle.scripts_model.specs.Buffer.{action_of, call_by, step_at, cursor_answered};

use basics::transaction::TransactionNumber;
use rules::rule::LockRule;
use scripts_model::step::Step;
use session::answer::{Answer, Reply};
use session::state::Session;
use stores::store::NodeStore;

// The entry at a place; past the last one the script ends.
pub(crate) fn step_at(steps: &[Step], at: usize) -> Step
    ensures is { result ≡ step_at steps.now at }
    ensures inside { (at < length steps.now) ⊎ (result ≡ End) }
{
    steps.get(at).copied().unwrap_or(Step::End)
}

// Does a step, as a call by t.
pub(crate) fn perform<R: LockRule, S: NodeStore>(
    session: &mut Session<R, S>,
    t: TransactionNumber,
    step: Step,
) -> Answer
    ensures answers { answer_of result ≡ answer (model_of R.rule S.store session.old) (call_by t.0 (action_of step)) }
    ensures leaves { model_of R.rule S.store session.new ≡ after (model_of R.rule S.store session.old) (call_by t.0 (action_of step)) (answer_of result) }
{
    match step {
        Step::End => session.end(t),
        Step::Lock(n) => session.lock(t, n),
        Step::Release(n) => session.release(t, n),
        Step::Read(n) => session.read(t, n),
        Step::Write(n, v) => session.write(t, n, v),
        Step::Adjust(n, d) => session.adjust(t, n, d),
    }
}

// Where the script is after its step was answered: a step that waits is tried again, and behind its end it is done.
pub(crate) fn moved(step: Step, at: usize, answer: Answer) -> Option<usize>
    requires { (at < 2 ^ 64 - 1) ⊎ (step ≡ End) }
    ensures { result ≡ cursor_answered (action_of step) at (answer_of answer) }
{
    match (answer, step) {
        (Ok(Reply::Waiting(_)), _) => Some(at),
        (_, Step::End) => None,
        _ => Some(at + 1),
    }
}
