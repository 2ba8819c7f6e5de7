// What a line says.
ghost use Rattle.std.specs.Prelude.{Some};
ghost use Rattle.runtext.specs.Numerals.{Small};

use crate::numbers::Numbers;
use runtext_model::kind::RuleKind;

#[derive(Clone, Copy, Drop)]
pub(crate) enum Line<'a> {
    Rule(RuleKind),
    Node(NodeForm<'a>),
    Guard(GuardForm<'a>),
    Script,
    Step(StepForm),
    Turns(Numbers<'a>),
}

// A node's width, its first value and its parents.
#[derive(Clone, Copy, Drop)]
pub(crate) struct NodeForm<'a> {
    pub(crate) width: u32,
    pub(crate) value: i32,
    pub(crate) parents: Numbers<'a>,
    ghost small: { Small (Some value) },
}

// A guard's node, its A and its B.
#[derive(Clone, Copy, Drop)]
pub(crate) struct GuardForm<'a> {
    pub(crate) node: u32,
    pub(crate) a: Numbers<'a>,
    pub(crate) b: Numbers<'a>,
}

// A step's node, and its new value or the amount to add. No `Step`: the numbers of a line are not yet nodes of the plan, and no
// line says `End`.
#[derive(Clone, Copy, Drop)]
pub(crate) enum StepForm {
    Lock(u32),
    Release(u32),
    Read(u32),
    Write(u32, i32),
    Adjust(u32, i32),
}
