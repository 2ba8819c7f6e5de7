// Tests of the plan and of the graph search.
#![tactic(auto)]

#[cfg(test)]
mod tests;
