// Where the scripts of a step buffer begin, and how large they are.
ghost use Rattle.std.specs.Prelude.{◌≡◌, ◌<◌, length, Some, None};
ghost use Rattle.scripts_model.specs.Buffer.{up_to_end, scripts_of};
ghost use Rattle.scripts.specs.Found.{Finds};

use crate::cursors::Cursors;
use arrayvec::ArrayVec;
use scripts_model::step::Step;

// The scripts of a step buffer; None where there are too many.
pub(crate) fn find(steps: &[Step]) -> Option<Cursors>
    ensures { elim result [
      | Some found ↦ Finds steps.now found
      | None ↦ 32 < length (scripts_of steps.now)
    ] }
{
    let mut places = ArrayVec::new();
    for (i, step) in steps.iter().enumerate() {
        if matches!(step, Step::End) {
            places.try_push(Some(i + 1)).ok()?;
        }
    }
    Some(Cursors { places })
}

// How many entries stand before the first script.
pub(crate) fn before_first(steps: &[Step]) -> usize
    ensures { result ≡ length (up_to_end steps.now) }
{
    steps
        .iter()
        .position(|step| matches!(step, Step::End))
        .unwrap_or(steps.len())
}
