// A list of plain numbers in a line.
ghost use Rattle.std.specs.Prelude.{◌≡◌, length};
ghost use Rattle.runtext.specs.Listing.{listed, above};

use crate::piece::Rest;

// What is left of the line where the list begins, how many numbers it has, and the least limit that all are below.
#[derive(Clone, Copy, Drop)]
pub(crate) struct Numbers<'a> {
    pub(crate) from: Rest<'a>,
    pub(crate) count: usize,
    pub(crate) limit: u32,
    ghost counted: { count ≡ length (listed from) },
    ghost limited: { limit ≡ above 0 (listed from) },
}
