// Whose turn it is in a round.
ghost use Rattle.std.specs.Prelude.{◌≡◌, ◌<◌, List, map, length, None, IfSome, slice_index_or, slice_set};
ghost use Rattle.scripts_model.specs.declared.step.Step.{Step};
ghost use Rattle.scripts_model.specs.Buffer.{script_at};
ghost use Rattle.scripts_model.specs.Schedule.{all_finished, from_on, in_round};
ghost use Rattle.scripts.specs.Of.{number_or_none};

use crate::cursors::Cursors;
use basics::transaction::TransactionNumber;

impl Cursors {
    // How many scripts there are.
    pub(crate) fn count(&self) -> u8
        ensures { result ≡ length self.now.places.items }
    {
        self.places.len() as u8 // at most 32
    }

    // Where script t goes on; None where it is done, or not there.
    pub(crate) fn place(&self, t: TransactionNumber) -> Option<usize>
        ensures { result ≡ slice_index_or self.now.places.items t.0 None }
    {
        *self.places.get(t.0 as usize)?
    }

    pub(crate) fn set_place(&mut self, t: TransactionNumber, place: Option<usize>)
        requires { t.0 < length self.old.places.items }
        ensures { self.new.places.items ≡ slice_set self.old.places.items t.0 place }
    {
        self.places[t.0 as usize] = place;
    }

    // The lowest script from the place on that is not done.
    fn from_on(&self, place: u8) -> Option<TransactionNumber>
        ensures found { (es : List Step) → number_or_none result ≡ from_on (map (script_at es) self.now.places.items) place }
        ensures below { IfSome result (λ t. t.0 < length self.now.places.items) }
    {
        let mut rest = self.places.iter().skip(place as usize);
        let ahead = rest.position(|at| at.is_some())?;
        Some(TransactionNumber(place + ahead as u8))
    }

    // Whose turn it is in a round that goes on at the place; behind the last script the next round begins.
    pub(crate) fn in_round(&self, place: u8) -> Option<TransactionNumber>
        ensures found { (es : List Step) → number_or_none result ≡ in_round (map (script_at es) self.now.places.items) place }
        ensures below { IfSome result (λ t. t.0 < length self.now.places.items) }
    {
        self.from_on(place).or(self.from_on(0))
    }

    // Whether every script is done.
    pub(crate) fn all_done(&self) -> bool
        ensures { (es : List Step) → result ≡ all_finished (map (script_at es) self.now.places.items) }
    {
        self.places.iter().all(|at| at.is_none())
    }
}
