// The calls of a transaction: to begin, lock, release, withdraw and end.
ghost use Rattle.std.specs.Prelude.{◌≡◌, ◌<◌, map, IfOk, OnOk};
ghost use Rattle.std.specs.Result.{result_err};
ghost use Rattle.model.specs.Calls.{first_refusal};
ghost use Rattle.model.specs.Calls as calls;
ghost use Rattle.model.specs.Checks.{transaction_checks, lock_checks, use_checks, answer};
ghost use Rattle.model.specs.State.{count, record_of};
ghost use Rattle.model.specs.Step.{after, freed as holder_freed};
ghost use Rattle.session.specs.Of.{model_of, answer_of};

use crate::answer::{Answer, Reply};
use crate::state::Session;
use basics::node::{NodeNumber, NodeSet};
use basics::refusal::Refusal;
use basics::set::NumberSet;
use basics::transaction::TransactionNumber;
use model::table::{Phase, Record};
use rules::rule::LockRule;
use stores::store::NodeStore;

impl<R: LockRule, S: NodeStore> Session<R, S> {
    // Begins one more transaction, and answers its number.
    pub fn begin(&mut self) -> Answer
        ensures answers { answer_of result ≡ answer (model_of R.rule S.store self.old) calls.begin }
        ensures leaves { model_of R.rule S.store self.new ≡ after (model_of R.rule S.store self.old) calls.begin (answer_of result) }
    {
        if self.begun >= 32 {
            return Err(Refusal::TooManyTransactions);
        }
        let t = self.begun;
        self.begun += 1;
        Ok(Reply::Done(t as i32))
    }

    // The record of t, which is begun and not ended, or why there is none. Here and in the checks below, t and n are in the
    // tables; how many transactions and nodes there are is the session's, so no type of a number holds it.
    fn live_record(&self, t: TransactionNumber) -> Result<Record, Refusal>
        ensures refuses { result_err result ≡ first_refusal (transaction_checks (model_of R.rule S.store self.now) t.0) }
        ensures found { IfOk result (λ r. r ≡ record_of (model_of R.rule S.store self.now) t.0) }
        ensures fits { OnOk result (t.0 < 32) }
    {
        if t.0 >= self.begun_count() {
            return Err(Refusal::NotBegun);
        }
        let record = self.records[usize::from(t.0)];
        if record.phase == Phase::Ended {
            return Err(Refusal::AlreadyEnded);
        }
        Ok(record)
    }

    // Why t may not lock n, if it may not.
    fn check_lock(&self, t: TransactionNumber, n: NodeNumber) -> Result<(), Refusal>
        ensures refuses { result_err result ≡ first_refusal (lock_checks (model_of R.rule S.store self.now) t.0 n.0) }
        ensures begun { OnOk result (t.0 < 32) }
        ensures known { OnOk result (n.0 < count (model_of R.rule S.store self.now)) }
    {
        let Record {
            phase,
            locked,
            held,
        } = self.live_record(t)?;
        if n.0 >= self.count() {
            return Err(Refusal::NoSuchNode);
        }
        if let Phase::Waiting(m) = phase
            && m != n
        {
            return Err(Refusal::StillWaiting);
        }
        if locked.contains(n) {
            return Err(Refusal::LockedBefore);
        }
        if !self.rule.allows(n, locked, held) {
            return Err(Refusal::RuleDenies);
        }
        Ok(())
    }

    // Locks n for t, or has t wait for it where another holds it.
    pub fn lock(&mut self, t: TransactionNumber, n: NodeNumber) -> Answer
        ensures answers { answer_of result ≡ answer (model_of R.rule S.store self.old) (calls.lock t.0 n.0) }
        ensures leaves { model_of R.rule S.store self.new ≡ after (model_of R.rule S.store self.old) (calls.lock t.0 n.0) (answer_of result) }
    {
        self.check_lock(t, n)?;
        let i = usize::from(t.0);
        let k = usize::from(n.0);
        let record = &mut self.records[i];
        if let Some(u) = self.holders[k] {
            record.phase = Phase::Waiting(n);
            return Ok(Reply::Waiting(u));
        }
        *record = Record {
            phase: Phase::Open,
            locked: record.locked.with(n),
            held: record.held.with(n),
        };
        self.holders[k] = Some(t);
        self.earlier[i] = self.earlier[i].union(self.lockers[k]);
        self.lockers[k] = self.lockers[k].with(t);
        Ok(Reply::Done(0))
    }

    // Why t may not use n, to release it or to access it, if it may not.
    pub(crate) fn check_use(&self, t: TransactionNumber, n: NodeNumber) -> Result<(), Refusal>
        ensures refuses { result_err result ≡ first_refusal (use_checks (model_of R.rule S.store self.now) t.0 n.0) }
        ensures begun { OnOk result (t.0 < 32) }
        ensures known { OnOk result (n.0 < count (model_of R.rule S.store self.now)) }
    {
        let record = self.live_record(t)?;
        if n.0 >= self.count() {
            return Err(Refusal::NoSuchNode);
        }
        if matches!(record.phase, Phase::Waiting(_)) {
            return Err(Refusal::StillWaiting);
        }
        if !record.held.contains(n) {
            return Err(Refusal::NotHeld);
        }
        Ok(())
    }

    // Gives n back, which t holds.
    pub fn release(&mut self, t: TransactionNumber, n: NodeNumber) -> Answer
        ensures answers { answer_of result ≡ answer (model_of R.rule S.store self.old) (calls.release t.0 n.0) }
        ensures leaves { model_of R.rule S.store self.new ≡ after (model_of R.rule S.store self.old) (calls.release t.0 n.0) (answer_of result) }
    {
        self.check_use(t, n)?;
        let i = usize::from(t.0);
        self.records[i].held = self.records[i].held.without(n);
        self.holders[usize::from(n.0)] = None;
        Ok(Reply::Done(0))
    }

    // Has t wait no more.
    pub fn withdraw(&mut self, t: TransactionNumber) -> Answer
        ensures answers { answer_of result ≡ answer (model_of R.rule S.store self.old) (calls.withdraw t.0) }
        ensures leaves { model_of R.rule S.store self.new ≡ after (model_of R.rule S.store self.old) (calls.withdraw t.0) (answer_of result) }
    {
        let Phase::Waiting(_) = self.live_record(t)?.phase else {
            return Err(Refusal::NotWaiting);
        };
        self.records[usize::from(t.0)].phase = Phase::Open;
        Ok(Reply::Done(0))
    }

    // Ends t, and gives back all that it holds.
    pub fn end(&mut self, t: TransactionNumber) -> Answer
        ensures answers { answer_of result ≡ answer (model_of R.rule S.store self.old) (calls.end t.0) }
        ensures leaves { model_of R.rule S.store self.new ≡ after (model_of R.rule S.store self.old) (calls.end t.0) (answer_of result) }
    {
        if matches!(self.live_record(t)?.phase, Phase::Waiting(_)) {
            return Err(Refusal::StillWaiting);
        }
        let record = &mut self.records[usize::from(t.0)];
        record.phase = Phase::Ended;
        record.held = NodeSet::empty();
        free(&mut self.holders, t);
        Ok(Reply::Done(0))
    }
}

// Nobody in place of t, and anybody else as before.
fn freed(holder: Option<TransactionNumber>, t: TransactionNumber) -> Option<TransactionNumber>
    ensures { result ≡ holder_freed t.0 holder }
{
    holder.filter(|u| *u != t)
}

// Takes all nodes from t.
fn free(holders: &mut [Option<TransactionNumber>; 64], t: TransactionNumber)
    ensures { holders.new ≡ map (holder_freed t.0) holders.old }
{
    for holder in holders.iter_mut() {
        *holder = freed(*holder, t);
    }
}
