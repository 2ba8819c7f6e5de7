// The number of a node, and sets of nodes.
ghost use Rattle.std.proofs.Common.{rules};
ghost use Rattle.basics.specs.Alike.{masks_alike};

use crate::number::Numbered;
use crate::set::NumberSet;

// A node of the plan. Any u8 is a number; whether a plan has such a node is the plan's to say. A type of its own, as
// `TransactionNumber` is, so that neither is taken for the other: one generic type would need a phantom to say so.
#[derive(Clone, Copy, Default, PartialEq, Eq, PartialOrd, Ord, Debug, Drop)]
pub struct NodeNumber(pub u8);

impl Numbered for NodeNumber {
    ghost numbered = { λ n. record { 0 = n } };

    ghost number = { λ n. n.0 };

    ghost same_number = { Prim.search rules };

    fn of_number(n: u8) -> NodeNumber {
        NodeNumber(n)
    }

    fn number(self) -> u8 {
        self.0
    }
}

// A set of nodes 0 to 63: node n is a member where bit n of the mask is 1. A struct of its own, as `TransactionSet` is, which
// takes half the room: one struct for both would need the wider mask.
#[derive(Clone, Copy, Default, PartialEq, Eq, Debug, Drop)]
pub struct NodeSet {
    pub mask: u64,
}

impl NumberSet for NodeSet {
    type Number = NodeNumber;

    ghost mask = { λ s. s.mask };

    ghost WIDTH = { 64 };

    ghost narrow = { Prim.search rules };

    ghost equal = { Prim.search rules };

    ghost alike = { λ a b. masks_alike a.mask b.mask };

    const WIDTH: u8 = 64;

    fn bits(self) -> u64 {
        self.mask
    }

    fn of_bits(bits: u64) -> NodeSet {
        NodeSet { mask: bits }
    }
}
