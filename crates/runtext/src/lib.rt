// Reading a run text.
#![tactic(auto)]

mod bounds;
mod cut;
pub mod fault;
mod fill;
mod form;
mod letter;
mod line;
mod lines;
mod list;
mod nodes;
mod number;
mod numbers;
pub mod part;
mod piece;
pub mod read;
mod sections;
pub mod setup;
mod steps;
mod take;
pub mod word;
