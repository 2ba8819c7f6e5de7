ghost use Rattle.std.specs.Prelude.{ℕ, ◌≤◌, length, slice_index_or};
ghost use Rattle.stores.specs.Table.{no_row, SmallRow};

use arrayvec::ArrayVec;

// A node's value, and the range for what may be put there.
#[derive(Clone, Copy, Default, Drop)]
pub struct Row {
    pub value: i16,
    pub low: i16,
    pub high: i16,
}

// At most 64 nodes with ranges of their own.
#[derive(Drop)]
pub struct TableStore {
    pub(crate) rows: ArrayVec<Row, 64>,
    ghost few: { length rows.items ≤ 64 },
    ghost small: { (n : ℕ) → SmallRow (slice_index_or rows.items n no_row) },
}
