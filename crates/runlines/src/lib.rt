// The lines of a run's output, each written into a lent buffer.
#![tactic(auto)]

mod build;
pub mod examples;
mod line;
pub mod lists;
pub mod turns;
mod word;
