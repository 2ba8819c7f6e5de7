// Building a plan, and asking for its nodes.
ghost use Rattle.std.specs.Prelude.{◌≡◌, [], length};
ghost use Rattle.basics.specs.Refusals.{answer_unless, leave_unless};
ghost use Rattle.plans.specs.Building.{good_width, good_parents, node_refusal, with_node};
ghost use Rattle.plans.specs.Meaning.{nodes_of};
ghost use Rattle.plans.specs.Nodes.{node_at, field_start};

use crate::plan::{Node, PlacedNode, Plan};
use arrayvec::ArrayVec;
use basics::list::{all_below, is_rising, set_of};
use basics::node::{NodeNumber, NodeSet};
use basics::refusal::Refusal;

fn good_width(width: u8) -> bool
    ensures { result ≡ good_width width }
{
    (2..=16).contains(&width)
}

fn good_parents(n: u8, parents: &[NodeNumber]) -> bool
    ensures { result ≡ good_parents n parents.now }
{
    is_rising(parents) && all_below(parents, n) && (n == 0 || !parents.is_empty())
}

impl Plan {
    // A plan without nodes.
    pub fn new() -> Plan
        ensures { nodes_of result ≡ [] }
    {
        Plan {
            nodes: ArrayVec::new(),
        }
    }

    pub fn count(&self) -> u8
        ensures { result ≡ length (nodes_of self.now) }
    {
        self.nodes.len() as u8 // at most 64
    }

    fn node(&self, n: NodeNumber) -> Node
        ensures { result ≡ node_at (nodes_of self.now) n.0 }
    {
        let placed = self
            .nodes
            .get(usize::from(n.0))
            .copied()
            .unwrap_or_default();
        Node {
            width: placed.width,
            parents: placed.parents,
        }
    }

    // The node's width in bits; 0 where there is no such node.
    pub fn width(&self, n: NodeNumber) -> u8
        ensures { result ≡ (node_at (nodes_of self.now) n.0).width }
    {
        self.node(n).width
    }

    // The node's parents; none where there is no such node.
    pub fn parents(&self, n: NodeNumber) -> NodeSet
        ensures { result ≡ (node_at (nodes_of self.now) n.0).parents }
    {
        self.node(n).parents
    }

    // The bit of an image at which the node's field starts: the widths of all lower nodes together. At or beyond the count,
    // where the last field ends.
    pub fn start(&self, n: NodeNumber) -> u16
        ensures { result ≡ field_start (nodes_of self.now) n.0 }
    {
        match self.nodes.get(usize::from(n.0)) {
            Some(placed) => placed.start,
            None => self.end(),
        }
    }

    // Where the last field ends.
    fn end(&self) -> u16
        ensures { result ≡ field_start (nodes_of self.now) (length (nodes_of self.now)) }
    {
        match self.nodes.last() {
            Some(last) => last.start + u16::from(last.width),
            None => 0,
        }
    }

    // Refuses a node that may not be added.
    fn check_node(&self, width: u8, parents: &[NodeNumber]) -> Result<(), Refusal>
        ensures { result ≡ answer_unless (node_refusal (nodes_of self.now) width parents.now) tt }
    {
        if self.nodes.is_full() || !good_width(width) {
            return Err(Refusal::LimitExceeded);
        }
        if !good_parents(self.count(), parents) {
            return Err(Refusal::BadParents);
        }
        Ok(())
    }

    // Adds a node below the listed parents, and answers its number.
    pub fn add(&mut self, width: u8, parents: &[NodeNumber]) -> Result<NodeNumber, Refusal>
        ensures answers { result ≡ answer_unless (node_refusal (nodes_of self.old) width parents.now) (record { 0 = length (nodes_of self.old) }) }
        ensures leaves { nodes_of self.new ≡ leave_unless (node_refusal (nodes_of self.old) width parents.now) (nodes_of self.old) (with_node (nodes_of self.old) width parents.now) }
    {
        self.check_node(width, parents)?;
        let n = self.count();
        let placed = PlacedNode {
            width,
            start: self.end(),
            parents: set_of(parents),
        };
        self.nodes.push(placed);
        Ok(NodeNumber(n))
    }
}
