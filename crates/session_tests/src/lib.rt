// Tests of the lock session over a tree of four nodes.
#![tactic(auto)]

#[cfg(test)]
mod tests;
