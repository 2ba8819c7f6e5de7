// Words into a line, and the line into a buffer.
ghost use Rattle.std.specs.Prelude.{◌≡◌, ◌+◌, ◌<◌, ◌≤◌, [], ◌∷◌, ◌++◌, length};
ghost use Rattle.runlines.specs.Lines.{spaced, Writes};
ghost use Rattle.runlines.specs.Text.{text, spelling, Added};

use crate::line::Line;
use crate::word::Word;
use arrayvec::ArrayVec;
use basics::refusal::Refusal;
use itoa::{Buffer, Integer};

impl Line {
    // A line that begins with this word.
    pub(crate) fn starting(first: Word) -> Line
        ensures front { text result ≡ spelling first }
        ensures brief { length (text result) ≤ 11 }
    {
        let mut line = Line {
            bytes: ArrayVec::new(),
        };
        line.word(first);
        line
    }

    // Adds a number in decimal.
    fn number<I: Integer>(&mut self, n: I)
        requires { length (text self.old) + I.MAX_STR_LEN ≤ 512 }
        ensures adds { Added self.old self.new (I.text n) }
        ensures brief { length (I.text n) ≤ I.MAX_STR_LEN }
    {
        let mut digits = Buffer::new();
        let _ = self
            .bytes
            .try_extend_from_slice(digits.format(n).as_bytes());
    }

    // Adds a word. With Display and `write!` the proof did not close: of `write!` it is known what it adds where it answers Ok,
    // but not that it answers Ok where there is room.
    fn word(&mut self, word: Word)
        requires { length (text self.old) + 11 ≤ 512 }
        ensures adds { Added self.old self.new (spelling word) }
        ensures brief { length (spelling word) ≤ 11 }
    {
        match word {
            Word::Letter(b) => self.bytes.push(b),
            Word::Number(n) => self.number(n),
            Word::Value(z) => self.number(z),
        }
    }

    // Adds a word after a space.
    pub(crate) fn next(&mut self, word: Word)
        requires { length (text self.old) + 12 ≤ 512 }
        ensures adds { Added self.old self.new (spaced (spelling word)) }
        ensures brief { length (spelling word) ≤ 11 }
    {
        self.bytes.push(b' ');
        self.word(word);
    }

    // Ends the line and copies it into the buffer, where there is room for all of it.
    pub(crate) fn finish(mut self, out: &mut [u8]) -> Result<usize, Refusal>
        requires { length (text self) < 512 }
        ensures { Writes (text self ++ (10 ∷ [])) out.old out.new result }
    {
        self.bytes.push(b'\n');
        let len = self.bytes.len();
        if out.len() < len {
            return Err(Refusal::ShortBuffer);
        }
        out[..len].copy_from_slice(&self.bytes);
        Ok(len)
    }
}
