// The accesses of a node: to read, write and adjust its value.
ghost use Rattle.std.specs.Prelude.{◌≡◌, ◌<◌, true, pos, negsuc, ◌+ℤ◌, ◌≤ℤ◌};
ghost use Rattle.model.specs.Calls.{first_refusal, unless_refused, in_bounds};
ghost use Rattle.model.specs.Calls as calls;
ghost use Rattle.model.specs.Checks.{operation_checks, answer};
ghost use Rattle.model.specs.State.{count};
ghost use Rattle.model.specs.Step.{after};
ghost use Rattle.session.specs.Of.{model_of, answer_of};

use crate::answer::{Answer, Reply};
use crate::state::Session;
use basics::node::NodeNumber;
use basics::refusal::Refusal;
use basics::transaction::TransactionNumber;
use rules::rule::LockRule;
use stores::store::NodeStore;

impl<R: LockRule, S: NodeStore> Session<R, S> {
    // Reads the value of n, which t holds.
    pub fn read(&mut self, t: TransactionNumber, n: NodeNumber) -> Answer
        ensures answers { answer_of result ≡ answer (model_of R.rule S.store self.old) (calls.access t.0 n.0 calls.read) }
        ensures leaves { model_of R.rule S.store self.new ≡ after (model_of R.rule S.store self.old) (calls.access t.0 n.0 calls.read) (answer_of result) }
    {
        self.check_use(t, n)?;
        Ok(Reply::Done(self.store.value(n)))
    }

    // Writes v to n, which t holds.
    pub fn write(&mut self, t: TransactionNumber, n: NodeNumber, v: i32) -> Answer
        ensures answers { answer_of result ≡ answer (model_of R.rule S.store self.old) (calls.access t.0 n.0 (calls.write v)) }
        ensures leaves { model_of R.rule S.store self.new ≡ after (model_of R.rule S.store self.old) (calls.access t.0 n.0 (calls.write v)) (answer_of result) }
    {
        self.check_use(t, n)?;
        self.put(n, v)
    }

    // Adds d to the value of n, which t holds.
    pub fn adjust(&mut self, t: TransactionNumber, n: NodeNumber, d: i32) -> Answer
        ensures answers { answer_of result ≡ answer (model_of R.rule S.store self.old) (calls.access t.0 n.0 (calls.adjust d)) }
        ensures leaves { model_of R.rule S.store self.new ≡ after (model_of R.rule S.store self.old) (calls.access t.0 n.0 (calls.adjust d)) (answer_of result) }
    {
        self.check_use(t, n)?;
        self.add(n, d)
    }

    // Adds d to the value of n, or refuses. Here and in `put` n is a node of the session, as `check_use` found: the count is
    // the session's, so no type of a number holds it.
    fn add(&mut self, n: NodeNumber, d: i32) -> Answer
        requires { n.0 < count (model_of R.rule S.store self.old) }
        ensures answers { answer_of result ≡ unless_refused (first_refusal (operation_checks (S.store self.old.store) n.0 (calls.adjust d))) (calls.done (pos 0)) }
        ensures leaves { model_of R.rule S.store self.new ≡ after (model_of R.rule S.store self.old) (calls.access 0 n.0 (calls.adjust d)) (answer_of result) }
    {
        if !is_amount(d) {
            return Err(Refusal::AmountOutOfBounds);
        }
        let v = sum(self.store.value(n), d);
        self.put(n, v)
    }

    // Puts v at n, or refuses.
    fn put(&mut self, n: NodeNumber, v: i32) -> Answer
        requires { n.0 < count (model_of R.rule S.store self.old) }
        ensures answers { answer_of result ≡ unless_refused (first_refusal (operation_checks (S.store self.old.store) n.0 (calls.write v))) (calls.done (pos 0)) }
        ensures leaves { model_of R.rule S.store self.new ≡ after (model_of R.rule S.store self.old) (calls.access 0 n.0 (calls.write v)) (answer_of result) }
    {
        if !self.store.put(n, v) {
            return Err(Refusal::OutOfRange);
        }
        Ok(Reply::Done(0))
    }
}

// Whether d lies from -65,535 to 65,535.
fn is_amount(d: i32) -> bool
    ensures { result ≡ in_bounds d }
{
    (-65_535..=65_535).contains(&d)
}

// A value of 16 bits and an amount have a sum.
fn sum(v: i32, d: i32) -> i32
    requires low { negsuc 32767 ≤ℤ v }
    requires high { v ≤ℤ pos 32767 }
    requires amount { in_bounds d ≡ true }
    ensures { result ≡ v +ℤ d }
{
    v + d
}
