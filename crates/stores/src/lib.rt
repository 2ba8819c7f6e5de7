// Stores of the nodes' values: what every store means, and a store with ranges of its own.
#![tactic(auto)]

pub mod store;
pub mod table;
pub mod table_store;
