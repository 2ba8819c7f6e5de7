// Lists of nodes or transactions, as a caller hands them in.
ghost use Rattle.std.specs.Prelude.{◌≡◌, ℕ, ◌&&◌, nat_lt};
ghost use Rattle.std.specs.List.{list_all};
ghost use Rattle.basics.specs.Lists.{rising_by, listed, gathered};
ghost use Rattle.basics.specs.Sets.{has};

use crate::node::{NodeNumber, NodeSet};
use crate::number::Numbered;
use crate::set::NumberSet;

// Whether every number of the list is below the limit.
pub fn all_below<T: Numbered>(list: &[T], limit: u8) -> bool
    ensures { result ≡ list_all (λ n. nat_lt (T.number n) limit) list.now }
{
    list.iter().all(|n| n.number() < limit)
}

// Whether each number of the list is larger than the one before it.
pub fn is_rising<T: Numbered>(list: &[T]) -> bool
    ensures { result ≡ rising_by T.number list.now }
{
    list.is_sorted_by(|a, b| a.number() < b.number())
}

// The set of the listed nodes; a number past 63 adds nothing.
pub fn set_of(nodes: &[NodeNumber]) -> NodeSet
    ensures mask { result.mask ≡ gathered 0 nodes.now }
    ensures members { (k : ℕ) → has result.mask k ≡ (listed nodes.now k && nat_lt k 64) }
{
    let mut set = NodeSet::empty();
    for n in nodes {
        set = set.with(*n);
    }
    set
}
