use basics::transaction::{TransactionNumber, TransactionSet};
use model::table::Record;

// The tables of a session, with the rule that it asks and the store that it reads and writes. Records and earlier go by
// the transaction, holders and lockers by the node; they stand side by side, and all 32 records from the start, as in the
// model, whose facts speak of one table at a time.
#[derive(Drop)]
pub struct Session<R, S> {
    pub(crate) rule: R,
    pub(crate) store: S,
    // How many transactions are begun: those below this number.
    pub(crate) begun: u8,
    pub(crate) records: [Record; 32],
    // Of each node, its holder and all that have ever locked it.
    pub(crate) holders: [Option<TransactionNumber>; 64],
    pub(crate) lockers: [TransactionSet; 64],
    // Of each transaction, those that locked one of its nodes before it did.
    pub(crate) earlier: [TransactionSet; 32],
}
