// Runs the scripts of a run text, turn by turn, and prints what came of each turn, who came first, and the values.
#![tactic(auto)]

mod input;
mod output;
mod run;

use crate::input::read_input;
use crate::output::show;
use crate::run::run;
use basics::transaction::TransactionNumber;
use runlines::turns::write_fault;
use runtext::read::read;
use runtext::setup::Setup;
use scripts_model::limits::{MOST_LISTED, MOST_STEPS};
use scripts_model::step::Step;
use std::io;

// One byte more than a text may have, so that a text that is too long is known to be.
const ROOM: usize = 16_385;

fn main(rt: HostRuntime) -> io::Result<()> {
    let mut room = [0u8; ROOM];
    let text = read_input(&mut rt.stdin(), &mut room)?;
    let mut setup = Setup::new();
    let mut steps = [Step::End; MOST_STEPS];
    let mut turns = [TransactionNumber(0); MOST_LISTED];
    match read(text, &mut setup, &mut steps, &mut turns) {
        Ok(()) => run(&setup, &steps, &turns, &mut rt.stdout()),
        Err(fault) => show(&mut rt.stdout(), |line| {
            write_fault(fault.refusal, fault.line, line)
        }),
    }
}
