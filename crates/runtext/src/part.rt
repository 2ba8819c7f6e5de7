// A part of a text, and where in the text it begins.
#[derive(Clone, Copy, Drop)]
pub struct Part<'a> {
    pub bytes: &'a [u8],
    pub at: usize,
}
