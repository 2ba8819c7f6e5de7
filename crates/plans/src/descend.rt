// Going down a plan: children and descendants.
ghost use Rattle.std.specs.Prelude.{◌≡◌, ℕ, true, ◌↔◌};
ghost use Rattle.basics.specs.Sets.{has};
ghost use Rattle.plans.specs.Descent.{Below, below_set};
ghost use Rattle.plans.specs.Meaning.{nodes_of};
ghost use Rattle.plans.specs.Nodes.{is_parent};

use crate::plan::Plan;
use basics::node::{NodeNumber, NodeSet};
use basics::set::NumberSet;
use graph::{Graph, reach};

impl Plan {
    // The nodes that have n for a parent.
    pub fn children(&self, n: NodeNumber) -> NodeSet
        ensures { (k : ℕ) → has result.mask k ≡ is_parent (nodes_of self.now) n.0 k }
    {
        let mut children = NodeSet::empty();
        for (k, node) in self.nodes.iter().enumerate() {
            if node.parents.contains(n) {
                children = children.with(NodeNumber(k as u8));
            }
        }
        children
    }

    // The node n and all its descendants; no node where there is no node n.
    pub fn below(&self, n: NodeNumber) -> NodeSet
        ensures set { result.mask ≡ below_set (nodes_of self.now) n.0 }
        ensures chain { (k : ℕ) → (has result.mask k ≡ true) ↔ Below (nodes_of self.now) n.0 k }
    {
        if n.0 >= self.count() {
            return NodeSet::empty();
        }
        reach(self, NodeSet::empty().with(n))
    }
}

// A plan as a graph whose edges lead from a parent to its child.
impl Graph for Plan {
    type Points = NodeSet;

    ghost edge = { λ p i j. is_parent (nodes_of p) i j };

    fn successors(&self, point: NodeNumber) -> NodeSet {
        self.children(point)
    }
}
