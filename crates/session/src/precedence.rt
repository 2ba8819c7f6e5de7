use basics::transaction::TransactionSet;

// The predecessors of each transaction by its number; none where it is not begun.
#[derive(Clone, Copy, Drop)]
pub struct Predecessors {
    pub of: [TransactionSet; 32],
}
