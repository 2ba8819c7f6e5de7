// A line that is being built.
use arrayvec::ArrayVec;

// Built apart from the caller's buffer, so that a buffer that is too short is left as it was. No line is longer. What adds to it
// asks for the room that it needs itself, which is another one each time: no invariant can say it.
#[derive(Drop)]
pub(crate) struct Line {
    pub(crate) bytes: ArrayVec<u8, 512>,
}
