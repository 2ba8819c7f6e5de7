// The serial order that explains a session.
ghost use Rattle.std.specs.Prelude.{◌≡◌, length};
ghost use Rattle.std.specs.Option.{option_map};
ghost use Rattle.basics.specs.Refusals.{answer_unless, leave_unless};
ghost use Rattle.model.specs.Order.{predecessors, ready, lowest, serial_order};
ghost use Rattle.model.specs.State.{begun_count};
ghost use Rattle.session.specs.Of.{model_of};
ghost use Rattle.session.specs.Reports.{short, filled};

use crate::state::Session;
use basics::refusal::Refusal;
use basics::set::NumberSet;
use basics::transaction::{TransactionNumber, TransactionSet};
use rules::rule::LockRule;
use stores::store::NodeStore;

impl<R: LockRule, S: NodeStore> Session<R, S> {
    // Whether t is not placed yet, and all its predecessors are.
    fn ready(&self, placed: TransactionSet, t: TransactionNumber) -> bool
        ensures { result ≡ ready (predecessors (model_of R.rule S.store self.now)) placed.mask t.0 }
    {
        !placed.contains(t) && self.predecessors_of(t).is_subset(placed)
    }

    // The lowest transaction that is ready.
    fn lowest(&self, placed: TransactionSet) -> Option<TransactionNumber>
        ensures { option_map (λ t. t.0) result ≡ lowest (ready (predecessors (model_of R.rule S.store self.now)) placed.mask) (begun_count (model_of R.rule S.store self.now)) }
    {
        let t = (0..self.begun_count()).find(|&t| self.ready(placed, TransactionNumber(t)))?;
        Some(TransactionNumber(t))
    }

    // Fills in the begun transactions in their serial order, a byte for each, and answers how many they are. The caller
    // lends the buffer, since nothing is allocated.
    pub fn order(&self, buffer: &mut [u8]) -> Result<u8, Refusal>
        ensures answers { result ≡ answer_unless (short (length buffer.old) (begun_count (model_of R.rule S.store self.now))) (length (serial_order (model_of R.rule S.store self.now))) }
        ensures leaves { buffer.new ≡ leave_unless (short (length buffer.old) (begun_count (model_of R.rule S.store self.now))) buffer.old (filled (serial_order (model_of R.rule S.store self.now)) buffer.old) }
    {
        let n = self.begun_count();
        if buffer.len() < n as usize {
            return Err(Refusal::ShortBuffer);
        }
        let mut placed = TransactionSet::empty();
        for (k, place) in buffer[..n as usize].iter_mut().enumerate() {
            let Some(t) = self.lowest(placed) else {
                return Ok(k as u8);
            };
            *place = t.0;
            placed = placed.with(t);
        }
        Ok(n)
    }
}
