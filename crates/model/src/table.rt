// What a session keeps of each transaction.
use basics::node::{NodeNumber, NodeSet};

// How a transaction stands.
#[derive(Clone, Copy, PartialEq, Eq, Debug, Drop)]
pub enum Phase {
    Open,
    Waiting(NodeNumber),
    Ended,
}

// All nodes that the transaction has ever locked, and those that it still holds.
#[derive(Clone, Copy, PartialEq, Debug, Drop)]
pub struct Record {
    pub phase: Phase,
    pub locked: NodeSet,
    pub held: NodeSet,
}
