// How many nodes, steps and turns a run text may have. A run of scripts has limits of its own, though the same: a format
// stays as it is where a run may grow. Clauses have the numbers bare.
pub(crate) const NODES: usize = 64;

pub(crate) const STEPS: u16 = 1024;

pub(crate) const TURNS: usize = 4096;
