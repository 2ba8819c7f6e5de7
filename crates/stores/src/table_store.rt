// The table store: built row by row, then a store.
ghost use Rattle.std.specs.Prelude.{◌≡◌, ◌&&◌, [], ◌∷◌, ◌++◌, length, int_le, slice_index_or};
ghost use Rattle.basics.specs.Refusals.{answer_unless, leave_unless};
ghost use Rattle.stores.specs.Meaning.{rows_of, row_refusal};
ghost use Rattle.stores.specs.Table.{no_row, rows_store};
ghost use Rattle.stores.specs.TableLaws.{table_lawful};

use crate::store::NodeStore;
use crate::table::{Row, TableStore};
use arrayvec::ArrayVec;
use basics::node::NodeNumber;
use basics::refusal::Refusal;

impl Row {
    // Whether v lies in the row's range.
    fn takes(&self, v: i16) -> bool
        ensures { result ≡ (int_le self.now.low v && int_le v self.now.high) }
    {
        (self.low..=self.high).contains(&v)
    }
}

impl TableStore {
    // A store without nodes.
    pub fn new() -> TableStore
        ensures { rows_of result ≡ [] }
    {
        TableStore {
            rows: ArrayVec::new(),
        }
    }

    // Adds a node, and answers its number.
    pub fn add(&mut self, row: Row) -> Result<NodeNumber, Refusal>
        ensures answers { result ≡ answer_unless (row_refusal (rows_of self.old)) (record { 0 = length (rows_of self.old) }) }
        ensures leaves { rows_of self.new ≡ leave_unless (row_refusal (rows_of self.old)) (rows_of self.old) (rows_of self.old ++ (row ∷ [])) }
    {
        let n = self.count();
        self.rows.try_push(row).map_err(|_| Refusal::LimitExceeded)?;
        Ok(NodeNumber(n))
    }

    fn row(&self, n: NodeNumber) -> Row
        ensures { result ≡ slice_index_or (rows_of self.now) n.0 no_row }
    {
        self.rows.get(usize::from(n.0)).copied().unwrap_or_default()
    }
}

impl NodeStore for TableStore {
    ghost store = { λ t. rows_store (rows_of t) };

    ghost lawful = { table_lawful };

    fn count(&self) -> u8 {
        self.rows.len() as u8 // at most 64
    }

    fn value(&self, n: NodeNumber) -> i32 {
        i32::from(self.row(n).value)
    }

    fn low(&self, n: NodeNumber) -> i32 {
        i32::from(self.row(n).low)
    }

    fn high(&self, n: NodeNumber) -> i32 {
        i32::from(self.row(n).high)
    }

    fn put(&mut self, n: NodeNumber, v: i32) -> bool {
        let Ok(value) = i16::try_from(v) else {
            return false;
        };
        let Some(row) = self.rows.get_mut(usize::from(n.0)) else {
            return false;
        };
        if !row.takes(value) {
            return false;
        }
        row.value = value;
        true
    }
}
