// The turns of a run.
ghost use Rattle.std.specs.Prelude.{◌≡◌, ◌-◌, ◌^◌, ◌<◌, Some, OnSome};
ghost use Rattle.basics.specs.Refusals.{answer_unless, leave_unless};
ghost use Rattle.scripts_model.specs.Script.{turn_answer};
ghost use Rattle.scripts_model.specs.Schedule.{by_turn, turned_alone};
ghost use Rattle.scripts.specs.Of.{scripted_of, run_of, answer_or_none, scheduled, told, turn_of, turn_counted, turn_refusal, result_of};

use crate::report::Turn;
use crate::state::ScriptRun;
use crate::steps::{moved, perform, step_at};
use basics::refusal::Refusal;
use basics::transaction::TransactionNumber;
use rules::rule::LockRule;
use session::answer::Answer;
use stores::store::NodeStore;

impl<'s, R: LockRule, S: NodeStore> ScriptRun<'s, R, S> {
    // Takes the next step of script t; None where it is done, or not there.
    fn step(&mut self, t: TransactionNumber) -> Option<Answer>
        ensures answers { answer_or_none result ≡ turn_answer (scripted_of R.rule S.store self.old) t.0 }
        ensures leaves { run_of R.rule S.store self.new ≡ turned_alone (run_of R.rule S.store self.old) t.0 }
        ensures keeps { self.new.allowance ≡ self.old.allowance }
    {
        let at = self.cursors.place(t)?;
        let step = step_at(self.steps, at);
        let answer = perform(&mut self.session, t, step);
        self.cursors.set_place(t, moved(step, at, answer));
        Some(answer)
    }

    // A turn of script t by itself, apart from the list, the rounds and the count.
    pub fn turn(&mut self, script: TransactionNumber) -> Result<Option<Answer>, Refusal>
        ensures answers { result_of result ≡ answer_unless (turn_refusal (scripted_of R.rule S.store self.old) script.0) (turn_answer (scripted_of R.rule S.store self.old) script.0) }
        ensures leaves { run_of R.rule S.store self.new ≡ leave_unless (turn_refusal (scripted_of R.rule S.store self.old) script.0) (run_of R.rule S.store self.old) (turned_alone (run_of R.rule S.store self.old) script.0) }
        ensures keeps { self.new.allowance ≡ self.old.allowance }
    {
        if script.0 >= self.cursors.count() {
            return Err(Refusal::LimitExceeded);
        }
        Ok(self.step(script))
    }

    // A turn that counts.
    fn take(&mut self, script: TransactionNumber) -> Turn
        requires { self.old.taken < 2 ^ 32 - 1 }
        ensures turns { turn_of (Some result) ≡ told (scripted_of R.rule S.store self.old) (Some script.0) }
        ensures leaves { run_of R.rule S.store self.new ≡ turn_counted (run_of R.rule S.store self.old) script.0 }
        ensures keeps { self.new.allowance ≡ self.old.allowance }
    {
        self.taken += 1;
        let answer = self.step(script);
        Turn { script, answer }
    }

    // The next turn: those of the list, then rounds. None where the run has stopped: the list is used and every script is
    // done, or the allowance is used up.
    pub fn advance(&mut self) -> Option<Turn>
        ensures turns { turn_of result ≡ told (scripted_of R.rule S.store self.old) (scheduled self.old.allowance (run_of R.rule S.store self.old)) }
        ensures leaves { run_of R.rule S.store self.new ≡ by_turn (run_of R.rule S.store self.old) (scheduled self.old.allowance (run_of R.rule S.store self.old)) }
        ensures keeps { self.new.allowance ≡ self.old.allowance }
        ensures fewer { OnSome result (self.new.allowance - self.new.taken < self.old.allowance - self.old.taken) }
    {
        if self.taken >= self.allowance {
            return None;
        }
        if let Some((&script, rest)) = self.turns.split_first() {
            self.turns = rest;
            return Some(self.take(script));
        }
        let script = self.cursors.in_round(self.place)?;
        self.place = script.0 + 1;
        Some(self.take(script))
    }
}
