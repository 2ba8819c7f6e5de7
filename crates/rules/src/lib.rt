// Lock rules: which node a transaction may lock next.
#![tactic(auto)]

pub mod any;
pub mod guard;
pub mod guarded;
pub mod majority;
pub mod rule;
pub mod table;
pub mod tree;
