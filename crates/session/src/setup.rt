// A new session, and its parts again.
ghost use Rattle.std.specs.Prelude.{◌≡◌};
ghost use Rattle.model.specs.State.{start, count, begun_count};
ghost use Rattle.session.specs.Always.{AlwaysExplained, AlwaysProgresses, AlwaysConsistent};
ghost use Rattle.session.specs.Of.{model_of};

use crate::state::Session;
use basics::node::NodeSet;
use basics::set::NumberSet;
use basics::transaction::TransactionSet;
use model::table::{Phase, Record};
use rules::rule::LockRule;
use stores::store::NodeStore;

impl<R: LockRule, S: NodeStore> Session<R, S> {
    // A session without transactions. Whatever is called from here on, it does what a serial replay would do.
    pub fn new(rule: R, store: S) -> Session<R, S>
        ensures starts { model_of R.rule S.store result ≡ start (R.rule rule) (S.store store) }
        ensures explained { AlwaysExplained (S.store store) (model_of R.rule S.store result) }
        ensures progresses { AlwaysProgresses (model_of R.rule S.store result) }
        ensures consistent { AlwaysConsistent (model_of R.rule S.store result) }
    {
        let blank = Record {
            phase: Phase::Open,
            locked: NodeSet::empty(),
            held: NodeSet::empty(),
        };
        Session {
            rule,
            store,
            begun: 0,
            records: [blank; 32],
            holders: [None; 64],
            lockers: [TransactionSet::empty(); 64],
            earlier: [TransactionSet::empty(); 32],
        }
    }

    // The rule, and the store as the calls have left it.
    pub fn into_parts(self) -> (R, S)
        ensures { result ≡ (self.rule, self.store) }
    {
        let Session { rule, store, .. } = self;
        (rule, store)
    }

    // How many nodes the session has: those that its rule and its store both know.
    pub(crate) fn count(&self) -> u8
        ensures { result ≡ count (model_of R.rule S.store self.now) }
    {
        self.rule.count().min(self.store.count())
    }

    // At most 32. A session has no invariant of its own to say so, so that a program can own it beside a store that borrows
    // an image.
    pub(crate) fn begun_count(&self) -> u8
        ensures { result ≡ begun_count (model_of R.rule S.store self.now) }
    {
        self.begun.min(32)
    }
}
