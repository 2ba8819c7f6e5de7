// The guard rule: after its first lock a transaction locks a node that one of the table's guards lets it lock.
ghost use Rattle.std.specs.Prelude.{◌≡◌};
ghost use Rattle.rules.specs.GuardRules.{guard_rule};
ghost use Rattle.rules.specs.Guards.{admits, some_admits};
ghost use Rattle.rules.specs.Meaning.{guards_of};

use crate::guard::{Guard, GuardTable};
use crate::rule::LockRule;
use basics::node::{NodeNumber, NodeSet};
use basics::set::NumberSet;

#[derive(Clone, Copy, Drop)]
pub struct GuardRule<'p> {
    pub table: &'p GuardTable,
}

impl Guard {
    fn admits(self, n: NodeNumber, locked: NodeSet, held: NodeSet) -> bool
        ensures { result ≡ admits self n.0 locked.mask held.mask }
    {
        self.node == n && self.a.is_subset(locked) && self.b.is_subset(held)
    }
}

impl GuardTable {
    // Whether one of the guards lets a transaction lock n.
    fn admits(&self, n: NodeNumber, locked: NodeSet, held: NodeSet) -> bool
        ensures { result ≡ some_admits n.0 locked.mask held.mask (guards_of self.now) }
    {
        self.guards
            .iter()
            .any(|guard| guard.admits(n, locked, held))
    }
}

impl LockRule for GuardRule<'_> {
    ghost rule = { λ s. guard_rule s.table.now };

    fn count(&self) -> u8 {
        self.table.plan.count()
    }

    fn parents(&self, n: NodeNumber) -> NodeSet {
        self.table.plan.parents(n)
    }

    fn allows(&self, n: NodeNumber, locked: NodeSet, held: NodeSet) -> bool {
        n.0 < self.count() && (locked.is_empty() || self.table.admits(n, locked, held))
    }
}
