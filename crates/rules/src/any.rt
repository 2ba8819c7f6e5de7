// One type for a rule that is chosen at run time.
ghost use Rattle.rules.specs.Choice.{any_rule};

use crate::guarded::GuardRule;
use crate::majority::MajorityRule;
use crate::rule::LockRule;
use crate::tree::TreeRule;
use basics::node::{NodeNumber, NodeSet};

// Each method asks the rule that it is, by a `match`: the three are all there are, and a `dyn LockRule` would need a pointer to code.
#[derive(Clone, Copy, Drop)]
pub enum AnyRule<'p> {
    Tree(TreeRule<'p>),
    Majority(MajorityRule<'p>),
    Guards(GuardRule<'p>),
}

impl LockRule for AnyRule<'_> {
    ghost rule = { any_rule };

    fn count(&self) -> u8 {
        match self {
            AnyRule::Tree(rule) => rule.count(),
            AnyRule::Majority(rule) => rule.count(),
            AnyRule::Guards(rule) => rule.count(),
        }
    }

    fn parents(&self, n: NodeNumber) -> NodeSet {
        match self {
            AnyRule::Tree(rule) => rule.parents(n),
            AnyRule::Majority(rule) => rule.parents(n),
            AnyRule::Guards(rule) => rule.parents(n),
        }
    }

    fn allows(&self, n: NodeNumber, locked: NodeSet, held: NodeSet) -> bool {
        match self {
            AnyRule::Tree(rule) => rule.allows(n, locked, held),
            AnyRule::Majority(rule) => rule.allows(n, locked, held),
            AnyRule::Guards(rule) => rule.allows(n, locked, held),
        }
    }
}
