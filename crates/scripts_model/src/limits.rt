// How large a run may be.

// Its steps, with the end of each script.
pub const MOST_STEPS: usize = 1_024;

// Its turn list.
pub const MOST_LISTED: usize = 4_096;
