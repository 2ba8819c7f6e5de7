// What a run of scripts means, and what holds of every run. The functions below carry the theorems: their contracts are
// what is proved.
#![tactic(auto)]

pub mod limits;
pub mod step;

ghost use Rattle.scripts_model.specs.Buffer.{ByCursors};
ghost use Rattle.scripts_model.specs.Example.{Example};
ghost use Rattle.scripts_model.specs.Finishes.{EveryRunFinishes, AllowanceSuffices, EveryRunStops};
ghost use Rattle.scripts_model.specs.History.{EveryRunExplained};

// With allowance enough every script comes to its end.
pub fn runs_finish()
    ensures { EveryRunFinishes }
{}

// The greatest allowance is enough for the largest run.
pub fn allowance_suffices()
    ensures { AllowanceSuffices }
{}

// A run stops where its allowance is used up, and before that only at its end.
pub fn runs_stop()
    ensures { EveryRunStops }
{}

// After every turn the session of a run is explained by its serial order.
pub fn runs_explained()
    ensures { EveryRunExplained }
{}

// A run that keeps a cursor for each script into one step buffer is the run of the buffer's scripts.
pub fn runs_by_cursors()
    ensures { ByCursors }
{}

// A run worked out.
pub fn example_runs()
    ensures { Example }
{}
