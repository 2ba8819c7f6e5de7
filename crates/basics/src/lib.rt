// Numbers, sets and refusals that every other crate names.
#![tactic(auto)]

pub mod list;
pub mod node;
pub mod number;
pub mod refusal;
pub mod set;
pub mod transaction;
