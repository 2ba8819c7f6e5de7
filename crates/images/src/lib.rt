// The packed image of a plan's values, as the lamps read it.
#![tactic(auto)]

mod bits;
mod field;
pub mod pack;
pub mod packed;
mod width;
