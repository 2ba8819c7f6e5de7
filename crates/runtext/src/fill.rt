// A list of numbers into a buffer, once it is known to be good.
ghost use Rattle.std.specs.Prelude.{◌≡◌, ◌≤◌, min, ◌++◌, map, length, take, drop};
ghost use Rattle.runtext.specs.Listing.{listed};

use crate::numbers::Numbers;
use basics::number::Numbered;

// Fills in the numbers of a list, as far as the buffer goes, and answers how many those are.
pub(crate) fn fill<T: Numbered>(list: Numbers, out: &mut [T]) -> usize
    requires { list.limit ≤ 256 }
    ensures count { result ≡ min list.entry.count (length out.old) }
    ensures filled { out.new ≡ map T.numbered (take result (listed list.entry.from)) ++ drop result out.old }
{
    let count = list.count.min(out.len());
    let mut rest = list.from;
    for place in out[..count].iter_mut() {
        let Some((n, next)) = rest.plain() else {
            unreachable()
        };
        *place = T::of_number(n as u8);
        rest = next;
    }
    count
}
