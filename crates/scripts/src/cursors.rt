ghost use Rattle.std.specs.Prelude.{◌≤◌, length};

use arrayvec::ArrayVec;

// For each script its place in the step buffer; None where it is done.
#[derive(Drop)]
pub(crate) struct Cursors {
    pub(crate) places: ArrayVec<Option<usize>, 32>,
    ghost few: { length places.items ≤ 32 },
}
