// Building a guard table.
ghost use Rattle.std.specs.Prelude.{◌≡◌, [], length};
ghost use Rattle.basics.specs.Refusals.{answer_unless, leave_unless};
ghost use Rattle.plans.specs.Building.{node_refusal, with_node};
ghost use Rattle.plans.specs.Meaning.{nodes_of};
ghost use Rattle.rules.specs.Adding.{in_limits, guard_refusal, with_guard};
ghost use Rattle.rules.specs.Guards.{fits, crosses, compatible, all_compatible};
ghost use Rattle.rules.specs.Meaning.{guards_of};

use crate::guard::{Guard, GuardTable};
use arrayvec::ArrayVec;
use basics::list::{all_below, is_rising, set_of};
use basics::node::{NodeNumber, NodeSet};
use basics::refusal::Refusal;
use basics::set::NumberSet;
use plans::plan::Plan;

impl Guard {
    fn fits(self, parents: NodeSet) -> bool
        ensures { result ≡ fits parents.mask self }
    {
        !self.b.is_empty() && self.b.is_subset(self.a) && self.a.is_subset(parents)
    }

    // Whether its A shares a node with the other's B, where both guard one node.
    fn crosses(self, other: Guard) -> bool
        ensures { result ≡ crosses self other }
    {
        self.node != other.node || !self.a.intersection(other.b).is_empty()
    }

    fn compatible(self, other: Guard) -> bool
        ensures { result ≡ compatible self other }
    {
        self.crosses(other) && other.crosses(self)
    }
}

impl GuardTable {
    // A table without guards.
    pub fn new(plan: Plan) -> GuardTable
        ensures guards { guards_of result ≡ [] }
        ensures plan { result.plan ≡ plan }
    {
        GuardTable {
            plan,
            guards: ArrayVec::new(),
        }
    }

    pub fn plan(&self) -> &Plan
        ensures { result.now ≡ self.now.plan }
    {
        &self.plan
    }

    // Adds a node to the plan below the listed parents, and answers its number.
    pub fn add_node(&mut self, width: u8, parents: &[NodeNumber]) -> Result<NodeNumber, Refusal>
        ensures answers { result ≡ answer_unless (node_refusal (nodes_of self.old.plan) width parents.now) (record { 0 = length (nodes_of self.old.plan) }) }
        ensures leaves { nodes_of self.new.plan ≡ leave_unless (node_refusal (nodes_of self.old.plan) width parents.now) (nodes_of self.old.plan) (with_node (nodes_of self.old.plan) width parents.now) }
        ensures guards { guards_of self.new ≡ guards_of self.old }
    {
        self.plan.add(width, parents)
    }

    // How many guards there are.
    pub fn count(&self) -> u16
        ensures { result ≡ length (guards_of self.now) }
    {
        self.guards.len() as u16 // at most 256
    }

    fn in_limits(&self, node: NodeNumber, a: &[NodeNumber], b: &[NodeNumber]) -> bool
        ensures { result ≡ in_limits (nodes_of self.now.plan) (guards_of self.now) node a.now b.now }
    {
        let count = self.plan.count();
        !self.guards.is_full() && node.0 < count && all_below(a, count) && all_below(b, count)
    }

    // Whether the guard is compatible with every guard of the table.
    fn takes(&self, guard: Guard) -> bool
        ensures { result ≡ all_compatible guard (guards_of self.now) }
    {
        self.guards.iter().all(|other| guard.compatible(*other))
    }

    // Adds the guard of the listed nodes.
    pub fn add(
        &mut self,
        node: NodeNumber,
        a: &[NodeNumber],
        b: &[NodeNumber],
    ) -> Result<(), Refusal>
        ensures answers { result ≡ answer_unless (guard_refusal (nodes_of self.old.plan) (guards_of self.old) node a.now b.now) tt }
        ensures leaves { guards_of self.new ≡ leave_unless (guard_refusal (nodes_of self.old.plan) (guards_of self.old) node a.now b.now) (guards_of self.old) (with_guard (guards_of self.old) node a.now b.now) }
        ensures plan { self.new.plan ≡ self.old.plan }
    {
        if !self.in_limits(node, a, b) {
            return Err(Refusal::LimitExceeded);
        }
        let guard = Guard {
            node,
            a: set_of(a),
            b: set_of(b),
        };
        if !(is_rising(a) && is_rising(b) && guard.fits(self.plan.parents(node))) {
            return Err(Refusal::BadGuard);
        }
        if !self.takes(guard) {
            return Err(Refusal::GuardsApart);
        }
        self.guards.push(guard);
        Ok(())
    }
}
