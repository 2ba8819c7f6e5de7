// A word of a line: a letter, or a number in decimal.
#[derive(Clone, Copy, Drop)]
pub(crate) enum Word {
    Letter(u8),
    Number(u32),
    Value(i32),
}
