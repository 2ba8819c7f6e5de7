// The words of a line.
ghost use Rattle.runtext.specs.Finding.{WordFound};
ghost use Rattle.runtext.specs.Meaning.{Says};

use crate::number::number;
use crate::part::Part;
use crate::piece::Rest;

// A letter, a number or a slash, each as its part of the text.
#[derive(Clone, Copy, Drop)]
pub enum Word<'a> {
    Letter(Part<'a>),
    Number(Part<'a>),
    Slash(Part<'a>),
}

// The word that a part is.
fn word_of<'a>(part: Part<'a>) -> Option<Word<'a>>
    ensures { Says part.entry result }
{
    if number(part.bytes).is_some() {
        return Some(Word::Number(part));
    }
    match part.bytes {
        [b'A'..=b'Z'] => Some(Word::Letter(part)),
        [b'/'] => Some(Word::Slash(part)),
        _ => None,
    }
}

impl<'a> Rest<'a> {
    // The first word, and what is left after it.
    pub(crate) fn word(self) -> Option<(Word<'a>, Rest<'a>)>
        ensures { WordFound self.entry result }
    {
        let (part, rest) = self.piece()?;
        Some((word_of(part)?, rest))
    }
}
