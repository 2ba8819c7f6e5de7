// Numbers and lists of numbers in a line.
ghost use Rattle.runtext.specs.Listing.{NumberFound, PlainFound};
ghost use Rattle.runtext.specs.Lists.{ListFound};

use crate::number::number;
use crate::numbers::Numbers;
use crate::piece::Rest;

impl<'a> Rest<'a> {
    // The number that stands first, and what is left after it.
    pub(crate) fn number(self) -> Option<(i32, Rest<'a>)>
        ensures { NumberFound self.entry result }
    {
        // Not by `word`, which reads a number too, to tell the words apart.
        let (part, rest) = self.piece()?;
        Some((number(part.bytes)?, rest))
    }

    // The same of a number without a minus.
    pub(crate) fn plain(self) -> Option<(u32, Rest<'a>)>
        ensures { PlainFound self.entry result }
    {
        let (value, rest) = self.number()?;
        if value < 0 {
            return None;
        }
        Some((value as u32, rest))
    }

    // The plain numbers that stand first, and what is left after them.
    pub(crate) fn list(self) -> (Numbers<'a>, Rest<'a>)
        ensures { ListFound self.entry result }
    {
        let mut rest = self;
        // Counted by hand: each number is read from what the one before it leaves.
        let mut count = 0;
        let mut limit: u32 = 0;
        while let Some((n, next)) = rest.plain() {
            count += 1;
            limit = limit.max(n + 1);
            rest = next;
        }
        let numbers = Numbers {
            from: self,
            count,
            limit,
        };
        (numbers, rest)
    }
}
