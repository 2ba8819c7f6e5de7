// What a run tells of a turn, and of itself.
use basics::transaction::TransactionNumber;
use session::answer::Answer;

// A turn, and what the script's step was answered; None where the script was done already.
#[derive(Clone, Copy, Drop)]
pub struct Turn {
    pub script: TransactionNumber,
    pub answer: Option<Answer>,
}

// How many scheduled turns were taken, and whether every script is done.
#[derive(Clone, Copy, Drop)]
pub struct Totals {
    pub turns: u32,
    pub all_done: bool,
}
