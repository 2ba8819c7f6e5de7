// Pieces of a text, and what is left of a line.
ghost use Rattle.std.specs.Prelude.{◌+◌, ◌≤◌, length};

use crate::part::Part;

// A part of a text that is read, and so ends within the longest text.
#[derive(Clone, Copy, Drop)]
pub(crate) struct Piece<'a> {
    pub(crate) part: Part<'a>,
    ghost within: { part.at + length part.bytes.now ≤ 16384 },
}

// What is left of a line after a space; nothing after its last piece.
#[derive(Clone, Copy, Drop)]
pub(crate) struct Rest<'a>(pub(crate) Option<Piece<'a>>);
