// A lock session: transactions that lock the nodes of a store by a rule, and what it reports of them.
#![tactic(auto)]

pub mod accesses;
pub mod answer;
pub mod calls;
pub mod chains;
pub mod order;
pub mod precedence;
pub mod reports;
pub mod setup;
pub mod state;
pub mod waiting;
