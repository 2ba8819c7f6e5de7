// The lines of the rule, of a script and of the turn list.
ghost use Rattle.std.specs.Prelude.{◌≤◌, List, length, Some};
ghost use Rattle.basics.specs.declared.transaction.TransactionNumber.{TransactionNumber as Transaction};
ghost use Rattle.runtext_model.specs.Lines.{rule, script, turns as turn_list};
ghost use Rattle.scripts_model.specs.declared.step.Step.{Step as AnyStep};
ghost use Rattle.runtext.specs.Listing.{listed};
ghost use Rattle.runtext.specs.Of.{Takes};

use crate::bounds::{STEPS, TURNS};
use crate::fill::fill;
use crate::numbers::Numbers;
use crate::setup::Setup;
use basics::refusal::Refusal;
use basics::transaction::TransactionNumber;
use runtext_model::kind::RuleKind;
use scripts_model::step::Step;

impl Setup {
    pub(crate) fn rule_line(&mut self, kind: RuleKind) -> Result<(), Refusal>
        ensures { (ss : List AnyStep) (ts : List Transaction) → Takes self.old self.new ss ss ts ts (Some (rule kind)) result }
    {
        if self.kind.is_some() {
            return Err(Refusal::MisplacedLine);
        }
        self.kind = Some(kind);
        Ok(())
    }

    pub(crate) fn script_line(&mut self, steps: &mut [Step]) -> Result<(), Refusal>
        requires { 1024 ≤ length steps.old }
        ensures { (ts : List Transaction) → Takes self.old self.new steps.old steps.new ts ts (Some script) result }
    {
        if !self.takes_scripts() {
            return Err(Refusal::MisplacedLine);
        }
        // By `|`, here and below: one goal in place of one for each limit.
        if (self.steps >= STEPS) | (self.scripts >= 32) {
            return Err(Refusal::LimitExceeded);
        }
        steps[usize::from(self.steps)] = Step::End;
        self.steps += 1;
        self.scripts += 1;
        Ok(())
    }

    pub(crate) fn turns_line(
        &mut self,
        list: Numbers,
        turns: &mut [TransactionNumber],
    ) -> Result<(), Refusal>
        requires { 4096 ≤ length turns.old }
        ensures { (ss : List AnyStep) → Takes self.old self.new ss ss turns.old turns.new (Some (turn_list (listed list.entry.from))) result }
    {
        if !self.takes_scripts() {
            return Err(Refusal::MisplacedLine);
        }
        if (list.count > TURNS) | (list.limit > u32::from(self.scripts)) {
            return Err(Refusal::LimitExceeded);
        }
        let count = fill(list, turns);
        self.turns = Some(count as u16);
        Ok(())
    }
}
