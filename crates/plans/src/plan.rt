ghost use Rattle.std.specs.Prelude.{◌≡◌, ℕ, ◌<◌, ◌≤◌, true, length, slice_index_or};
ghost use Rattle.plans.specs.Nodes.{node_at, is_parent, field_start};
ghost use Rattle.plans.specs.Placed.{not_placed, nodes_in};

use arrayvec::ArrayVec;
use basics::node::NodeSet;

// A node: how many bits its value has, and its parents.
#[derive(Clone, Copy, Default, Drop)]
pub struct Node {
    pub width: u8,
    pub parents: NodeSet,
}

// A node, and where its field starts in an image: kept, so that a read need not add up. No `Node` within: nested, each would
// take 24 bytes in place of 16.
#[derive(Clone, Copy, Default, Drop)]
pub(crate) struct PlacedNode {
    pub(crate) width: u8,
    pub(crate) start: u16,
    pub(crate) parents: NodeSet,
}

// At most 64 nodes, each 2 to 16 bits wide. Parents are lower than their child, so node 0 has none; every other node
// has at least one.
#[derive(Drop)]
pub struct Plan {
    pub(crate) nodes: ArrayVec<PlacedNode, 64>,
    ghost few: { length (nodes_in nodes.items) ≤ 64 },
    // Each node is 2 to 16 bits wide.
    ghost wide: { (n : ℕ) → n < length (nodes_in nodes.items) → 2 ≤ (node_at (nodes_in nodes.items) n).width },
    ghost slim: { (n : ℕ) → (node_at (nodes_in nodes.items) n).width ≤ 16 },
    // Parents have smaller numbers.
    ghost lower: { (n p : ℕ) → is_parent (nodes_in nodes.items) p n ≡ true → p < n },
    // Each field starts where the fields of all lower nodes end.
    ghost laid: { (n : ℕ) → n < length nodes.items → (slice_index_or nodes.items n not_placed).start ≡ field_start (nodes_in nodes.items) n },
    // Each node but 0 has a parent.
    ghost rooted: { (n : ℕ) → 0 < n → n < length (nodes_in nodes.items) → 0 < (node_at (nodes_in nodes.items) n).parents.mask },
}
