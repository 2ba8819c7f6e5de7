// What a lock session means, and what holds of every session. The functions below carry the theorems: their contracts
// are what is proved, and they do nothing.
#![tactic(auto)]

pub mod table;

ghost use Rattle.model.specs.Consistent.{EverySessionConsistent};
ghost use Rattle.model.specs.Example.{Example};
ghost use Rattle.model.specs.Explained.{EverySessionExplained};
ghost use Rattle.model.specs.Progress.{EverySessionProgresses};

// Every session gives the answers and the values of a serial replay.
pub fn sessions_explained()
    ensures { EverySessionExplained }
{}

// No session deadlocks, and where each transaction is ended or waits, and one waits, some waiting lock is granted when
// it is tried again.
pub fn sessions_progress()
    ensures { EverySessionProgresses }
{}

// The tables of every session agree with one another and with its history.
pub fn sessions_consistent()
    ensures { EverySessionConsistent }
{}

// A session worked out.
pub fn example_runs()
    ensures { Example }
{}
