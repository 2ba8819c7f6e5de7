// Tests of the packed image.
#![tactic(auto)]

#[cfg(test)]
mod tests;
