// Lines of three words: of a turn, of the totals, and of a fault in the text.
ghost use Rattle.std.specs.Prelude.{◌≡◌, [], ◌∷◌};
ghost use Rattle.runlines.specs.Lines.{Writes, line_of, answer_words, turn_line, totals_line, fault_line};
ghost use Rattle.runlines.specs.Text.{spelling};

use crate::line::Line;
use crate::word::Word;
use basics::refusal::Refusal;
use basics::transaction::TransactionNumber;
use session::answer::{Answer, Reply};

// The two words of an answer; None is a turn of a script that was finished.
fn answer_words(answer: Option<Answer>) -> (Word, Word)
    ensures { spelling result.0 ∷ (spelling result.1 ∷ []) ≡ answer_words answer }
{
    match answer {
        None => (Word::Letter(b'd'), Word::Number(0)),
        Some(Ok(Reply::Done(x))) => (Word::Number(0), Word::Value(x)),
        Some(Ok(Reply::Waiting(u))) => (Word::Letter(b'w'), Word::Number(u32::from(u.0))),
        Some(Err(k)) => (Word::Number(u32::from(k.code())), Word::Number(0)),
    }
}

fn write_words(first: Word, second: Word, third: Word, out: &mut [u8]) -> Result<usize, Refusal>
    ensures { Writes (line_of (spelling first) (spelling second ∷ (spelling third ∷ []))) out.old out.new result }
{
    let mut line = Line::starting(first);
    line.next(second);
    line.next(third);
    line.finish(out)
}

// Whose turn it was, and what was answered: `0 w 1`, `2 18 0`, `3 d 0`.
pub fn write_turn(
    script: TransactionNumber,
    answer: Option<Answer>,
    out: &mut [u8],
) -> Result<usize, Refusal>
    ensures { Writes (turn_line script.0 answer) out.old out.new result }
{
    let (kind, number) = answer_words(answer);
    write_words(Word::Number(u32::from(script.0)), kind, number, out)
}

// How many turns there were, and whether all scripts are done: `T 17 1`.
pub fn write_totals(turns: u32, all_done: bool, out: &mut [u8]) -> Result<usize, Refusal>
    ensures { Writes (totals_line turns all_done) out.old out.new result }
{
    write_words(
        Word::Letter(b'T'),
        Word::Number(turns),
        Word::Number(u32::from(all_done)),
        out,
    )
}

// Why the text was refused, and at which line: `F 4 12`.
pub fn write_fault(refusal: Refusal, line: u32, out: &mut [u8]) -> Result<usize, Refusal>
    ensures { Writes (fault_line refusal line) out.old out.new result }
{
    write_words(
        Word::Letter(b'F'),
        Word::Number(u32::from(refusal.code())),
        Word::Number(line),
        out,
    )
}
