// What the packed image of a plan means, and its laws: definitions and proofs, no code.
#![tactic(auto)]
