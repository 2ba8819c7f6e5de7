// Who waits for which node.
ghost use Rattle.std.specs.Prelude.{◌≡◌, ◌*◌, length};
ghost use Rattle.basics.specs.Refusals.{answer_unless};
ghost use Rattle.model.specs.Checks.{is_waiting};
ghost use Rattle.session.specs.Of.{model_of};
ghost use Rattle.session.specs.Reports.{short, waiting_count, WaitingFilled};

use crate::state::Session;
use basics::refusal::Refusal;
use model::table::{Phase, Record};
use rules::rule::LockRule;
use stores::store::NodeStore;

impl<R: LockRule, S: NodeStore> Session<R, S> {
    // How many transactions wait.
    fn waiting_count(&self) -> u8
        ensures { result ≡ waiting_count (model_of R.rule S.store self.now) }
    {
        let n = self.begun_count() as usize;
        self.records[..n].iter().filter(|row| waits(row)).count() as u8
    }

    // Fills in each waiting transaction and its node, two bytes for each, and answers how many they are. The caller lends the
    // buffer, since nothing is allocated.
    pub fn waiting(&self, buffer: &mut [u8]) -> Result<u8, Refusal>
        ensures answers { result ≡ answer_unless (short (length buffer.old) (2 * waiting_count (model_of R.rule S.store self.now))) (waiting_count (model_of R.rule S.store self.now)) }
        ensures leaves { WaitingFilled (short (length buffer.old) (2 * waiting_count (model_of R.rule S.store self.now))) (model_of R.rule S.store self.now) buffer.old buffer.new }
    {
        let count = self.waiting_count();
        if buffer.len() < 2 * count as usize {
            return Err(Refusal::ShortBuffer);
        }
        // By index. Tried with `chunks_exact_mut(2)`: an invariant names the chunks that are left, and not the bytes of those
        // that are written, so the proof of what the buffer holds did not close.
        let mut place = 0;
        for (t, record) in self.records[..self.begun_count() as usize]
            .iter()
            .enumerate()
        {
            let Phase::Waiting(n) = record.phase else {
                continue;
            };
            buffer[place] = t as u8;
            buffer[place + 1] = n.0;
            place += 2;
        }
        Ok(count)
    }
}

fn waits(row: &Record) -> bool
    ensures { result ≡ is_waiting row.now.phase }
{
    matches!(row.phase, Phase::Waiting(_))
}
