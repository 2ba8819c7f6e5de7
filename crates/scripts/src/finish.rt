// How far a run is, and its end.
ghost use Rattle.std.specs.Prelude.{◌≡◌, ◌-◌};
ghost use Rattle.scripts_model.specs.Schedule.{played};
ghost use Rattle.scripts.specs.Of.{run_of, totals_of};

use crate::report::Totals;
use crate::state::ScriptRun;
use rules::rule::LockRule;
use session::state::Session;
use stores::store::NodeStore;

impl<'s, R: LockRule, S: NodeStore> ScriptRun<'s, R, S> {
    // How far the run is.
    pub fn totals(&self) -> Totals
        ensures { result ≡ totals_of (run_of R.rule S.store self.now) }
    {
        Totals {
            turns: self.taken,
            all_done: self.cursors.all_done(),
        }
    }

    // Takes turns until the run stops.
    pub fn play(&mut self) -> Totals
        ensures totals { result ≡ totals_of (run_of R.rule S.store self.new) }
        ensures leaves { run_of R.rule S.store self.new ≡ played (self.old.allowance - self.old.taken) (run_of R.rule S.store self.old) }
        ensures keeps { self.new.allowance ≡ self.old.allowance }
    {
        while self.advance().is_some() {}
        self.totals()
    }

    // The session, as the turns have left it.
    pub fn into_session(self) -> Session<R, S>
        ensures { result ≡ self.entry.session }
    {
        let ScriptRun { session, .. } = self;
        session
    }
}
