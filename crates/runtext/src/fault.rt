use crate::part::Part;
use basics::refusal::Refusal;

// Why a text is refused, the number of the faulty line, counted from 1, and that line. Line 0 with an empty part: no line was
// looked at.
#[derive(Clone, Copy, Drop)]
pub struct Fault<'a> {
    pub refusal: Refusal,
    pub line: u32,
    pub part: Part<'a>,
}
