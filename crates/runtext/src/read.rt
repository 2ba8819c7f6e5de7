// Reading a whole text. The two buffers stay slices beside one another: they may be longer than is asked, and the clauses
// say of each what stays. A function that writes one requires that it is long enough: in a struct of both it would be handed
// the other too, and would have to say that that one stays.
ghost use Rattle.std.specs.Prelude.{◌≡◌, ◌+◌, ◌≤◌, List, length, Ok};
ghost use Rattle.basics.specs.declared.transaction.TransactionNumber.{TransactionNumber as Transaction};
ghost use Rattle.runtext_model.specs.Canonical.{Canonical};
ghost use Rattle.runtext_model.specs.Description.{blank};
ghost use Rattle.runtext_model.specs.Pieces.{pieces};
ghost use Rattle.runtext_model.specs.Reading.{last_piece, read_lines, read_text, unread as cause_unread};
ghost use Rattle.runtext_model.specs.Writing.{written};
ghost use Rattle.scripts_model.specs.declared.step.Step.{Step as AnyStep};
ghost use Rattle.runtext.specs.Of.{description_of, why};
ghost use Rattle.runtext.specs.Outcome.{fault_of, fault_unless, Describes, LeftBy};

use crate::bounds::{NODES, STEPS, TURNS};
use crate::fault::Fault;
use crate::part::Part;
use crate::piece::Piece;
use crate::sections::node_count;
use crate::setup::Setup;
use basics::refusal::Refusal;
use basics::transaction::TransactionNumber;
use plans::plan::Plan;
use rules::guard::GuardTable;
use scripts_model::step::Step;

// Why a text is not looked at.
fn unread(steps: usize, turns: usize, text: usize) -> Result<(), Refusal>
    ensures { why result ≡ cause_unread steps turns text }
{
    if steps < usize::from(STEPS) || turns < TURNS {
        return Err(Refusal::ShortBuffer);
    }
    if text > 16384 {
        return Err(Refusal::TextTooLong);
    }
    Ok(())
}

impl Setup {
    // Nothing described yet.
    pub fn new() -> Setup
        ensures { (ss : List AnyStep) (ts : List Transaction) → description_of result ss ts ≡ blank }
    {
        Setup {
            kind: None,
            table: GuardTable::new(Plan::new()),
            values: [0; NODES],
            scripts: 0,
            steps: 0,
            turns: None,
        }
    }

    // What stands after the last line feed must be nothing, and the text must have described a node.
    fn last_piece<'a>(&self, part: Part<'a>, line: u32) -> Result<(), Fault<'a>>
        ensures { (ss : List AnyStep) (ts : List Transaction) → fault_of result ≡ (last_piece (description_of self.now ss ts) line part.entry.at part.entry.bytes.now).fault }
    {
        let refusal = if part.bytes.len() != 0 {
            Refusal::MalformedLine
        } else if node_count(&self.table) == 0 {
            Refusal::MisplacedLine
        } else {
            return Ok(());
        };
        Err(Fault {
            refusal,
            line,
            part,
        })
    }

    // Takes the lines one after the other, up to the first that is faulty.
    fn read_lines<'a>(
        &mut self,
        text: &'a [u8],
        steps: &mut [Step],
        turns: &mut [TransactionNumber],
    ) -> Result<(), Fault<'a>>
        requires short { length text.now ≤ 16384 }
        requires steps { 1024 ≤ length steps.old }
        requires turns { 4096 ≤ length turns.old }
        ensures answers { fault_of result ≡ (read_lines (description_of self.old steps.old turns.old) 1 0 (pieces 10 text.now)).fault }
        ensures leaves { Describes (read_lines (description_of self.old steps.old turns.old) 1 0 (pieces 10 text.now)).description self.new steps.old steps.new turns.old turns.new }
    {
        let mut left = Piece {
            part: Part { bytes: text, at: 0 },
        };
        // Counted by hand: each piece needs its place in the text, and what is left after the last line feed is looked at apart.
        let mut line = 1;
        while let Some((piece, next)) = left.split_once(b'\n') {
            // Tried: with `map_err(..)?` the goals `answers` and `leaves` of a refused line stayed open.
            if let Err(refusal) = self.take_line(piece, steps, turns) {
                return Err(Fault {
                    refusal,
                    line,
                    part: piece.part,
                });
            }
            left = next;
            line += 1;
        }
        self.last_piece(left.part, line)
    }
}

// Reads a text: what it describes goes into the setup, its steps and its turns into the buffers.
pub fn read<'a>(
    text: &'a [u8],
    setup: &mut Setup,
    steps: &mut [Step],
    turns: &mut [TransactionNumber],
) -> Result<(), Fault<'a>>
    ensures answers { fault_of result ≡ fault_unless (cause_unread (length steps.old) (length turns.old) (length text.now)) (read_text text.now) }
    ensures leaves { LeftBy (cause_unread (length steps.old) (length turns.old) (length text.now)) (read_text text.now) setup.old setup.new steps.old steps.new turns.old turns.new }
    ensures text { result ≡ Ok tt → text.now ≡ written (description_of setup.new steps.new turns.new) }
    ensures canonical { Canonical }
{
    unread(steps.len(), turns.len(), text.len()).map_err(|refusal| Fault {
        refusal,
        line: 0,
        part: Part {
            bytes: &text[..0],
            at: 0,
        },
    })?;
    *setup = Setup::new();
    setup.read_lines(text, steps, turns)
}
