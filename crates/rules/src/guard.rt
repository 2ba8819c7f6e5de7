ghost use Rattle.std.specs.Prelude.{◌≡◌, ◌<◌, ◌≤◌, true, length, All};
ghost use Rattle.arrayvec.specs.ArrayVec.{array_vec_len};
ghost use Rattle.plans.specs.Meaning.{nodes_of};
ghost use Rattle.rules.specs.Guards.{fits, crosses};
ghost use Rattle.rules.specs.Parents.{parents_in};

use arrayvec::ArrayVec;
use basics::node::{NodeNumber, NodeSet};
use plans::plan::Plan;

// A way to lock a node: after all of `a` was locked, and while all of `b` is held.
#[derive(Clone, Copy, PartialEq, Debug, Default, Drop)]
pub struct Guard {
    pub node: NodeNumber,
    pub a: NodeSet,
    pub b: NodeSet,
}

// At most 256 guards of a plan's nodes. In each, B has members and lies in A, and A lies in the node's parents. Of two
// guards of one node, the A of each shares a node with the B of the other.
#[derive(Drop)]
pub struct GuardTable {
    pub(crate) plan: Plan,
    pub(crate) guards: ArrayVec<Guard, 256>,
    ghost few: { array_vec_len guards ≤ 256 },
    ghost known: { All (λ g. g.node.0 < length (nodes_of plan)) guards.items },
    ghost fit: { All (λ g. fits (parents_in (nodes_of plan) g.node.0) g ≡ true) guards.items },
    ghost cross: { All (λ x. All (λ y. crosses x y ≡ true) guards.items) guards.items },
}
