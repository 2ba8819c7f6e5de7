// The number of a transaction, and sets of transactions.
ghost use Rattle.std.proofs.Common.{rules};
ghost use Rattle.basics.specs.Alike.{masks_alike};

use crate::number::Numbered;
use crate::set::NumberSet;

// A transaction of a session. Any u8 is a number; whether it is begun is the session's to say. A type of its own, as
// `NodeNumber` is.
#[derive(Clone, Copy, Default, PartialEq, Eq, PartialOrd, Ord, Debug, Drop)]
pub struct TransactionNumber(pub u8);

impl Numbered for TransactionNumber {
    ghost numbered = { λ n. record { 0 = n } };

    ghost number = { λ n. n.0 };

    ghost same_number = { Prim.search rules };

    fn of_number(n: u8) -> TransactionNumber {
        TransactionNumber(n)
    }

    fn number(self) -> u8 {
        self.0
    }
}

// A set of transactions 0 to 31: transaction t is a member where bit t of the mask is 1. A struct of its own, as `NodeSet` is.
#[derive(Clone, Copy, Default, PartialEq, Eq, Debug, Drop)]
pub struct TransactionSet {
    pub mask: u32,
}

impl NumberSet for TransactionSet {
    type Number = TransactionNumber;

    ghost mask = { λ s. s.mask };

    ghost WIDTH = { 32 };

    ghost narrow = { Prim.search rules };

    ghost equal = { Prim.search rules };

    ghost alike = { λ a b. masks_alike a.mask b.mask };

    const WIDTH: u8 = 32;

    fn bits(self) -> u64 {
        u64::from(self.mask)
    }

    fn of_bits(bits: u64) -> TransactionSet {
        TransactionSet {
            mask: (bits & 0xffff_ffff) as u32,
        }
    }
}
