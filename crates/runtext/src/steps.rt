// The steps of a script.
ghost use Rattle.std.specs.Prelude.{◌≡◌, ◌≤◌, ◌&&◌, cond, List, length, Some, None, int_le, nat_lt};
ghost use Rattle.basics.specs.declared.transaction.TransactionNumber.{TransactionNumber as Transaction};
ghost use Rattle.runtext_model.specs.Accepting.{node_number, good_step};
ghost use Rattle.runtext_model.specs.Lines.{step};
ghost use Rattle.runtext.specs.Forming.{step_of};
ghost use Rattle.runtext.specs.Of.{Takes};

use crate::bounds::STEPS;
use crate::line::StepForm;
use crate::sections::node_count;
use crate::setup::Setup;
use basics::node::NodeNumber;
use basics::refusal::Refusal;
use scripts_model::step::Step;

// The node of a number below the count of nodes.
fn node_in(count: u32, n: u32) -> Option<NodeNumber>
    requires { count ≤ 64 }
    ensures { result ≡ cond (nat_lt n count) (Some (node_number n)) None }
{
    // By `if`: `then_some` would cast the number before the test.
    if n < count {
        Some(NodeNumber(n as u8))
    } else {
        None
    }
}

// The number, if it lies between the two bounds.
fn bounded(number: i32, low: i32, high: i32) -> Option<i32>
    ensures { result ≡ cond (int_le low number && int_le number high) (Some number) None }
{
    (low..=high).contains(&number).then_some(number)
}

// The step of a plan with this many nodes, with its number in bounds.
fn step_of(form: StepForm, count: u32) -> Option<Step>
    requires { count ≤ 64 }
    ensures { result ≡ cond (good_step count (step_of form)) (Some (step_of form)) None }
{
    match form {
        StepForm::Lock(n) => node_in(count, n).map(Step::Lock),
        StepForm::Release(n) => node_in(count, n).map(Step::Release),
        StepForm::Read(n) => node_in(count, n).map(Step::Read),
        StepForm::Write(n, v) => {
            Some(Step::Write(node_in(count, n)?, bounded(v, -32768, 32767)?))
        }
        StepForm::Adjust(n, d) => {
            Some(Step::Adjust(node_in(count, n)?, bounded(d, -65535, 65535)?))
        }
    }
}

impl Setup {
    pub(crate) fn step_line(&mut self, form: StepForm, steps: &mut [Step]) -> Result<(), Refusal>
        requires { 1024 ≤ length steps.old }
        ensures { (ts : List Transaction) → Takes self.old self.new steps.old steps.new ts ts (Some (step (step_of form))) result }
    {
        if !self.takes_steps() {
            return Err(Refusal::MisplacedLine);
        }
        if self.steps >= STEPS {
            return Err(Refusal::LimitExceeded);
        }
        let step = step_of(form, node_count(&self.table)).ok_or(Refusal::LimitExceeded)?;
        steps[usize::from(self.steps)] = step;
        self.steps += 1;
        Ok(())
    }
}
