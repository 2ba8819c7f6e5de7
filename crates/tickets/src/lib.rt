// Tickets: each stands for one transaction of a session and has to be closed, once.
#![tactic(auto)]

ghost use Rattle.std.specs.Prelude.{◌≡◌, pos, Ok, Err};
ghost use Rattle.model.specs.Calls as calls;
ghost use Rattle.model.specs.Checks.{answer};
ghost use Rattle.model.specs.Step.{after};
ghost use Rattle.session.specs.Of.{model_of, answer_of};
ghost use Rattle.tickets.specs.Closing.{close_answer, closed};

use basics::node::NodeNumber;
use basics::refusal::Refusal;
use basics::transaction::TransactionNumber;
use rules::rule::LockRule;
use session::answer::{Answer, Reply};
use session::state::Session;
use stores::store::NodeStore;

// A ticket stands for a transaction. It cannot be let go: only `close` takes it, so every ticket is closed, once.
pub struct Ticket {
    number: TransactionNumber,
}

impl Ticket {
    // Begins a transaction.
    pub fn open<R: LockRule, S: NodeStore>(session: &mut Session<R, S>) -> Result<Ticket, Refusal>
        ensures answers { elim result [
          | Ok ticket ↦ answer (model_of R.rule S.store session.old) calls.begin ≡ calls.done (pos ticket.number.0)
          | Err refusal ↦ answer (model_of R.rule S.store session.old) calls.begin ≡ calls.refused refusal
        ] }
        ensures leaves { model_of R.rule S.store session.new ≡ after (model_of R.rule S.store session.old) calls.begin (answer (model_of R.rule S.store session.old) calls.begin) }
    {
        let Reply::Done(t) = session.begin()? else {
            unreachable()
        };
        Ok(Ticket {
            number: TransactionNumber(t as u8),
        })
    }

    // The number of its transaction.
    pub fn number(&self) -> TransactionNumber
        ensures { result ≡ self.now.number }
    {
        self.number // as it was begun
    }

    // From here to `withdraw` each call is the session's with the ticket's number. One function that takes a closure would
    // be no plainer, since each contract names its own call.
    pub fn lock<R: LockRule, S: NodeStore>(
        &self,
        session: &mut Session<R, S>,
        n: NodeNumber,
    ) -> Answer
        ensures answers { answer_of result ≡ answer (model_of R.rule S.store session.old) (calls.lock self.now.number.0 n.0) }
        ensures leaves { model_of R.rule S.store session.new ≡ after (model_of R.rule S.store session.old) (calls.lock self.now.number.0 n.0) (answer_of result) }
    {
        session.lock(self.number, n)
    }

    pub fn release<R: LockRule, S: NodeStore>(
        &self,
        session: &mut Session<R, S>,
        n: NodeNumber,
    ) -> Answer
        ensures answers { answer_of result ≡ answer (model_of R.rule S.store session.old) (calls.release self.now.number.0 n.0) }
        ensures leaves { model_of R.rule S.store session.new ≡ after (model_of R.rule S.store session.old) (calls.release self.now.number.0 n.0) (answer_of result) }
    {
        session.release(self.number, n)
    }

    pub fn read<R: LockRule, S: NodeStore>(
        &self,
        session: &mut Session<R, S>,
        n: NodeNumber,
    ) -> Answer
        ensures answers { answer_of result ≡ answer (model_of R.rule S.store session.old) (calls.access self.now.number.0 n.0 calls.read) }
        ensures leaves { model_of R.rule S.store session.new ≡ after (model_of R.rule S.store session.old) (calls.access self.now.number.0 n.0 calls.read) (answer_of result) }
    {
        session.read(self.number, n)
    }

    pub fn write<R: LockRule, S: NodeStore>(
        &self,
        session: &mut Session<R, S>,
        n: NodeNumber,
        v: i32,
    ) -> Answer
        ensures answers { answer_of result ≡ answer (model_of R.rule S.store session.old) (calls.access self.now.number.0 n.0 (calls.write v)) }
        ensures leaves { model_of R.rule S.store session.new ≡ after (model_of R.rule S.store session.old) (calls.access self.now.number.0 n.0 (calls.write v)) (answer_of result) }
    {
        session.write(self.number, n, v)
    }

    pub fn adjust<R: LockRule, S: NodeStore>(
        &self,
        session: &mut Session<R, S>,
        n: NodeNumber,
        d: i32,
    ) -> Answer
        ensures answers { answer_of result ≡ answer (model_of R.rule S.store session.old) (calls.access self.now.number.0 n.0 (calls.adjust d)) }
        ensures leaves { model_of R.rule S.store session.new ≡ after (model_of R.rule S.store session.old) (calls.access self.now.number.0 n.0 (calls.adjust d)) (answer_of result) }
    {
        session.adjust(self.number, n, d)
    }

    pub fn withdraw<R: LockRule, S: NodeStore>(&self, session: &mut Session<R, S>) -> Answer
        ensures answers { answer_of result ≡ answer (model_of R.rule S.store session.old) (calls.withdraw self.now.number.0) }
        ensures leaves { model_of R.rule S.store session.new ≡ after (model_of R.rule S.store session.old) (calls.withdraw self.now.number.0) (answer_of result) }
    {
        session.withdraw(self.number)
    }

    // Withdraws the transaction where it waits, and ends it. The ticket is spent, whatever the answer.
    pub fn close<R: LockRule, S: NodeStore>(self, session: &mut Session<R, S>) -> Answer
        ensures answers { answer_of result ≡ close_answer (model_of R.rule S.store session.old) self.number.0 }
        ensures leaves { model_of R.rule S.store session.new ≡ closed (model_of R.rule S.store session.old) self.number.0 }
    {
        let Ticket { number } = self;
        // Refused, and without effect, where it does not wait.
        let _ = session.withdraw(number);
        session.end(number)
    }
}
