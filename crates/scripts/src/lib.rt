// A run of scripts over a session that it owns: turns by a list, then by rounds, until all scripts are done.
#![tactic(auto)]

mod cursors;
mod find;
pub mod finish;
pub mod report;
mod rounds;
pub mod start;
pub mod state;
mod steps;
pub mod turns;
pub mod whole;
