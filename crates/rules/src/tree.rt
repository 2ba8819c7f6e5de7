// The tree rule: after its first lock a transaction locks a node whose only parent it holds.
ghost use Rattle.std.specs.Prelude.{◌≡◌};
ghost use Rattle.rules.specs.Locking.{only_held};
ghost use Rattle.rules.specs.PlanRules.{tree_rule};

use crate::rule::LockRule;
use basics::node::{NodeNumber, NodeSet};
use basics::set::NumberSet;
use plans::plan::Plan;

#[derive(Clone, Copy, Drop)]
pub struct TreeRule<'p> {
    pub plan: &'p Plan,
}

fn only_held(parents: NodeSet, held: NodeSet) -> bool
    ensures { result ≡ only_held parents.mask held.mask }
{
    parents.size() == 1 && parents.is_subset(held)
}

// Of one form with the majority rule; why there is no trait for both stands there.
impl LockRule for TreeRule<'_> {
    ghost rule = { λ s. tree_rule s.plan.now };

    fn count(&self) -> u8 {
        self.plan.count()
    }

    fn parents(&self, n: NodeNumber) -> NodeSet {
        self.plan.parents(n)
    }

    fn allows(&self, n: NodeNumber, locked: NodeSet, held: NodeSet) -> bool {
        n.0 < self.count() && (locked.is_empty() || only_held(self.parents(n), held))
    }
}
