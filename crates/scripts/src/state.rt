use crate::cursors::Cursors;
use basics::transaction::TransactionNumber;
use scripts_model::step::Step;
use session::state::Session;

// A session, and how far each of its scripts is. Script t is the transaction t.
#[derive(Drop)]
pub struct ScriptRun<'s, R, S> {
    pub(crate) session: Session<R, S>,
    pub(crate) steps: &'s [Step],
    // What is left of the turn list.
    pub(crate) turns: &'s [TransactionNumber],
    pub(crate) cursors: Cursors,
    // Where the round goes on.
    pub(crate) place: u8,
    pub(crate) taken: u32,
    // Each contract says that it stays: the model's run, which they speak of, has no allowance.
    pub(crate) allowance: u32,
}
