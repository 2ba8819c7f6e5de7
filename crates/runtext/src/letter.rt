// The form of a line, chosen by its first letter.
ghost use Rattle.std.specs.Prelude.{◌≡◌};
ghost use Rattle.runtext_model.specs.Lines.{line_of, form};
ghost use Rattle.runtext.specs.Forming.{said};
ghost use Rattle.runtext.specs.Left.{pieces_left};

use crate::form::{
    change_form, guard_form, node_form, rule_form, script_form, step_form, turns_form,
};
use crate::line::{Line, StepForm};
use crate::piece::{Piece, Rest};
use crate::word::Word;

// What a line says after this letter.
fn said_after<'a>(letter: char, rest: Rest<'a>) -> Option<Line<'a>>
    ensures { said result ≡ form letter (pieces_left rest.entry) }
{
    // Tried with `map(Line::Step)`: the check refuses it, since a line names the lifetime of its text, and what is mapped does not.
    match letter {
        'M' => rule_form(rest),
        'N' => node_form(rest),
        'G' => guard_form(rest),
        'S' => script_form(rest),
        'L' => Some(Line::Step(StepForm::Lock(step_form(rest)?))),
        'U' => Some(Line::Step(StepForm::Release(step_form(rest)?))),
        'R' => Some(Line::Step(StepForm::Read(step_form(rest)?))),
        'W' => {
            let (node, value) = change_form(rest)?;
            Some(Line::Step(StepForm::Write(node, value)))
        }
        'A' => {
            let (node, amount) = change_form(rest)?;
            Some(Line::Step(StepForm::Adjust(node, amount)))
        }
        'Q' => turns_form(rest),
        _ => None,
    }
}

// What a line says, if it has one of the forms.
pub(crate) fn line_of<'a>(line: Piece<'a>) -> Option<Line<'a>>
    ensures { said result ≡ line_of line.entry.part.bytes.now }
{
    let (word, rest) = Rest(Some(line)).word()?;
    let Word::Letter(part) = word else {
        return None;
    };
    said_after(part.bytes[0] as char, rest)
}
