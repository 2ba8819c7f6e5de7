// The forms of the lines, after their first letter.
ghost use Rattle.std.specs.Prelude.{◌≡◌, ℤ};
ghost use Rattle.basics.specs.declared.node.NodeNumber.{NodeNumber as Node};
ghost use Rattle.runtext_model.specs.Lines.{kind_of, rule_line, node_line, guard_line, script_line, step_line, change_line, turns_line};
ghost use Rattle.scripts_model.specs.declared.step.Step.{Step};
ghost use Rattle.runtext.specs.Forming.{said, rule_said, step_said, change_said};
ghost use Rattle.runtext.specs.Left.{pieces_left};

use crate::line::{GuardForm, Line, NodeForm};
use crate::piece::Rest;
use crate::word::Word;
use runtext_model::kind::RuleKind;

// The rule of a letter. `TryFrom` would need an error type that each caller drops.
fn kind_of(letter: char) -> Option<RuleKind>
    ensures { rule_said result ≡ kind_of letter }
{
    match letter {
        'T' => Some(RuleKind::Tree),
        'M' => Some(RuleKind::Majority),
        'G' => Some(RuleKind::Guards),
        _ => None,
    }
}

pub(crate) fn rule_form<'a>(rest: Rest<'a>) -> Option<Line<'a>>
    ensures { said result ≡ rule_line (pieces_left rest.entry) }
{
    let (word, rest) = rest.word()?;
    rest.end()?;
    let Word::Letter(part) = word else {
        return None;
    };
    Some(Line::Rule(kind_of(part.bytes[0] as char)?))
}

pub(crate) fn node_form<'a>(rest: Rest<'a>) -> Option<Line<'a>>
    ensures { said result ≡ node_line (pieces_left rest.entry) }
{
    let (width, rest) = rest.plain()?;
    let (value, rest) = rest.number()?;
    let (parents, rest) = rest.list();
    rest.end()?;
    Some(Line::Node(NodeForm {
        width,
        value,
        parents,
    }))
}

pub(crate) fn guard_form<'a>(rest: Rest<'a>) -> Option<Line<'a>>
    ensures { said result ≡ guard_line (pieces_left rest.entry) }
{
    let (node, rest) = rest.plain()?;
    let (a, rest) = rest.list();
    let (word, rest) = rest.word()?;
    let Word::Slash(_) = word else {
        return None;
    };
    let (b, rest) = rest.list();
    rest.end()?;
    Some(Line::Guard(GuardForm { node, a, b }))
}

pub(crate) fn script_form<'a>(rest: Rest<'a>) -> Option<Line<'a>>
    ensures { said result ≡ script_line (pieces_left rest.entry) }
{
    rest.end()?;
    Some(Line::Script)
}

// A node alone.
pub(crate) fn step_form(rest: Rest) -> Option<u32>
    ensures { (f : Node → Step) → step_said f result ≡ step_line f (pieces_left rest.entry) }
{
    let (node, rest) = rest.plain()?;
    rest.end()?;
    Some(node)
}

// A node, and a value or an amount.
pub(crate) fn change_form(rest: Rest) -> Option<(u32, i32)>
    ensures { (f : Node → ℤ → Step) → change_said f result ≡ change_line f (pieces_left rest.entry) }
{
    let (node, rest) = rest.plain()?;
    let (number, rest) = rest.number()?;
    rest.end()?;
    Some((node, number))
}

pub(crate) fn turns_form<'a>(rest: Rest<'a>) -> Option<Line<'a>>
    ensures { said result ≡ turns_line (pieces_left rest.entry) }
{
    let (turns, rest) = rest.list();
    rest.end()?;
    Some(Line::Turns(turns))
}
