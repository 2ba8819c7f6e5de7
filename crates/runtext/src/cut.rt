// Cutting a text at a byte.
ghost use Rattle.std.specs.Prelude.{◌≡◌, ◌==◌, position};
ghost use Rattle.runtext_model.specs.Accepting.{is_empty, is_some};
ghost use Rattle.runtext.specs.Left.{pieces_left, Cut, FirstPiece, Skips};

use crate::part::Part;
use crate::piece::{Piece, Rest};

fn place_of(bytes: &[u8], cut: u8) -> Option<usize>
    ensures { result ≡ position (λ b. b == cut) bytes.now }
{
    bytes.iter().position(|b| *b == cut)
}

impl<'a> Piece<'a> {
    // What stands before the first byte `cut` and what stands after it, if there is one.
    pub(crate) fn split_once(self, cut: u8) -> Option<(Piece<'a>, Piece<'a>)>
        ensures { Cut cut self.entry result }
    {
        let Part { bytes, at } = self.part;
        let end = place_of(bytes, cut)?;
        let before = Part {
            bytes: &bytes[..end],
            at,
        };
        let after = self.skip(end + 1)?;
        Some((Piece { part: before }, after))
    }

    // What stands after the first n bytes, if there are so many.
    fn skip(self, n: usize) -> Option<Piece<'a>>
        ensures { Skips n self.entry result }
    {
        let Part { bytes, at } = self.part;
        Some(Piece {
            part: Part {
                bytes: bytes.get(n..)?,
                at: at + n,
            },
        })
    }
}

impl<'a> Rest<'a> {
    // Nothing may be left.
    pub(crate) fn end(self) -> Option<()>
        ensures { is_some result ≡ is_empty (pieces_left self.entry) }
    {
        self.0.is_none().then_some(())
    }

    // The first piece, and what is left after it.
    pub(crate) fn piece(self) -> Option<(Part<'a>, Rest<'a>)>
        ensures { FirstPiece self.entry result }
    {
        let piece = self.0?;
        let Part { bytes, at } = piece.part;
        // With no space left the piece ends with the line, and nothing is left after it.
        let end = place_of(bytes, b' ').unwrap_or(bytes.len());
        let first = Part {
            bytes: &bytes[..end],
            at,
        };
        Some((first, Rest(piece.skip(end + 1))))
    }
}
