// All transactions before a transaction, by chains of predecessors.
ghost use Rattle.std.specs.Prelude.{◌≡◌, ◌≤◌};
ghost use Rattle.model.specs.State.{begun_count};
ghost use Rattle.session.specs.Edges.{reported, edge_to};
ghost use Rattle.session.specs.Of.{model_of};
ghost use Rattle.session.specs.Reports.{AllBefore};

use crate::precedence::Predecessors;
use crate::state::Session;
use basics::transaction::{TransactionNumber, TransactionSet};
use graph::{Graph, reach};
use rules::rule::LockRule;
use stores::store::NodeStore;

impl Predecessors {
    // The set of t, as far as the list goes.
    fn at(&self, t: TransactionNumber) -> TransactionSet
        ensures { result.mask ≡ reported self.now t.0 }
    {
        self.of.get(usize::from(t.0)).copied().unwrap_or_default()
    }
}

// From each transaction an edge leads to each of its predecessors.
impl Graph for Predecessors {
    type Points = TransactionSet;

    ghost edge = { edge_to };

    fn successors(&self, point: TransactionNumber) -> TransactionSet {
        self.at(point)
    }
}

impl<R: LockRule, S: NodeStore> Session<R, S> {
    // All transactions to which a chain of predecessors leads from t.
    pub fn before(&self, t: TransactionNumber) -> TransactionSet
        ensures chains { AllBefore (model_of R.rule S.store self.now) t.0 result.mask }
        ensures unbegun { begun_count (model_of R.rule S.store self.now) ≤ t.0 → result.mask ≡ 0 }
    {
        let all = self.predecessors();
        reach(&all, all.at(t))
    }
}
