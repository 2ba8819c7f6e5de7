// Who holds a node, and who precedes whom.
ghost use Rattle.std.specs.Prelude.{◌≡◌, ℕ, ◌^◌, ◌<◌, length};
ghost use Rattle.model.specs.Order.{holder_set, waited_for, predecessors};
ghost use Rattle.session.specs.Edges.{reported};
ghost use Rattle.session.specs.Of.{model_of};
ghost use Rattle.session.specs.Reports.{holder_report};

use crate::precedence::Predecessors;
use crate::state::Session;
use basics::node::NodeNumber;
use basics::refusal::Refusal;
use basics::set::NumberSet;
use basics::transaction::{TransactionNumber, TransactionSet};
use model::table::Phase;
use rules::rule::LockRule;
use std::array;
use stores::store::NodeStore;

impl<R: LockRule, S: NodeStore> Session<R, S> {
    // Who holds n.
    pub fn holder(&self, n: NodeNumber) -> Result<Option<TransactionNumber>, Refusal>
        ensures { result ≡ holder_report (model_of R.rule S.store self.now) n.0 }
    {
        if n.0 < self.count() {
            Ok(self.holders[usize::from(n.0)])
        } else {
            Err(Refusal::NoSuchNode)
        }
    }

    // The holder of the node that is waited for, if it is held.
    fn waited_for(&self, phase: Phase) -> TransactionSet
        ensures { result.mask ≡ waited_for (model_of R.rule S.store self.now) phase }
    {
        match phase {
            Phase::Waiting(n) => holder_set(self.holders.get(usize::from(n.0)).copied().flatten()),
            Phase::Open | Phase::Ended => TransactionSet::empty(),
        }
    }

    // Those that must come before t: they locked one of its nodes first, or hold the node that it waits for.
    pub(crate) fn predecessors_of(&self, t: TransactionNumber) -> TransactionSet
        ensures mask { result.mask ≡ predecessors (model_of R.rule S.store self.now) t.0 }
        ensures small { result.mask < 2 ^ 32 }
    {
        if t.0 < self.begun_count() {
            let i = usize::from(t.0);
            self.earlier[i].union(self.waited_for(self.records[i].phase))
        } else {
            TransactionSet::empty()
        }
    }

    // The predecessors of every transaction.
    pub fn predecessors(&self) -> Predecessors
        ensures reports { (t : ℕ) → reported result t ≡ predecessors (model_of R.rule S.store self.now) t }
        ensures long { length result.of ≡ 32 }
        ensures small { (t : ℕ) → reported result t < 2 ^ 32 }
    {
        Predecessors {
            of: array::from_fn(|t| self.predecessors_of(TransactionNumber(t as u8))),
        }
    }
}

fn holder_set(holder: Option<TransactionNumber>) -> TransactionSet
    ensures { result.mask ≡ holder_set holder }
{
    holder.map_or(TransactionSet::empty(), |u| TransactionSet::empty().with(u))
}
