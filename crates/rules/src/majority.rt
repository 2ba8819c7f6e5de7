// The majority rule: after its first lock a transaction locks a node of whose parents it holds more than half.
ghost use Rattle.std.specs.Prelude.{◌≡◌};
ghost use Rattle.rules.specs.Locking.{most_held};
ghost use Rattle.rules.specs.PlanRules.{majority_rule};

use crate::rule::LockRule;
use basics::node::{NodeNumber, NodeSet};
use basics::set::NumberSet;
use plans::plan::Plan;

#[derive(Clone, Copy, Drop)]
pub struct MajorityRule<'p> {
    pub plan: &'p Plan,
}

fn most_held(parents: NodeSet, held: NodeSet) -> bool
    ensures { result ≡ most_held parents.mask held.mask }
{
    2 * parents.intersection(held).size() > parents.size()
}

// The methods read as those of the tree rule, and `allows` as that of the guard rule: a trait for the test in which they differ
// would be longer than they are.
impl LockRule for MajorityRule<'_> {
    ghost rule = { λ s. majority_rule s.plan.now };

    fn count(&self) -> u8 {
        self.plan.count()
    }

    fn parents(&self, n: NodeNumber) -> NodeSet {
        self.plan.parents(n)
    }

    fn allows(&self, n: NodeNumber, locked: NodeSet, held: NodeSet) -> bool {
        n.0 < self.count() && (locked.is_empty() || most_held(self.parents(n), held))
    }
}
