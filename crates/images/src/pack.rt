// All values of a plan into an image, and back.
ghost use Rattle.std.specs.Prelude.{◌≡◌, ◌++◌, length, take, drop, None};
ghost use Rattle.basics.specs.Refusals.{answer_unless, leave_unless};
ghost use Rattle.plans.specs.Meaning.{nodes_of};
ghost use Rattle.image_model.specs.Fields.{all_fit, plan_bytes, packed, unpacked, spare_cleared, short_refusal, pack_refusal};

use crate::bits::{spare_after, write_bits};
use crate::field::Field;
use basics::node::NodeNumber;
use basics::refusal::Refusal;
use plans::plan::Plan;

// Refuses buffers that are not long enough.
fn check_long(plan: &Plan, values: usize, image: usize) -> Result<(), Refusal>
    ensures { result ≡ answer_unless (short_refusal (nodes_of plan.now) values image) tt }
{
    let bits = plan.start(NodeNumber(plan.count()));
    if values < usize::from(plan.count()) || image < usize::from(bits.div_ceil(8)) {
        Err(Refusal::ShortBuffer)
    } else {
        Ok(())
    }
}

// Whether each value lies in the range of its field.
fn all_fit(plan: &Plan, values: &[i32]) -> bool
    ensures { result ≡ all_fit (nodes_of plan.now) values.now }
{
    (0..plan.count())
        .zip(values)
        .all(|(n, &v)| Field::of(plan, NodeNumber(n)).width.fits(v))
}

fn check_pack(plan: &Plan, values: &[i32], image: usize) -> Result<(), Refusal>
    ensures { result ≡ answer_unless (pack_refusal (nodes_of plan.now) values.now image) tt }
{
    check_long(plan, values.len(), image)?;
    if all_fit(plan, values) {
        Ok(())
    } else {
        Err(Refusal::OutOfRange)
    }
}

// Writes every value into its field, and clears the spare bits of the last byte. Bytes past the fields stay.
pub fn pack(plan: &Plan, values: &[i32], image: &mut [u8]) -> Result<(), Refusal>
    ensures answers { result ≡ answer_unless (pack_refusal (nodes_of plan.now) values.now (length image.old)) tt }
    ensures bytes { image.new ≡ leave_unless (pack_refusal (nodes_of plan.now) values.now (length image.old)) image.old
        (packed (nodes_of plan.now) values.now ++ drop (plan_bytes (nodes_of plan.now)) image.old) }
    ensures back { pack_refusal (nodes_of plan.now) values.now (length image.old) ≡ None →
        unpacked (nodes_of plan.now) image.new (length (nodes_of plan.now)) ≡ take (length (nodes_of plan.now)) values.now }
{
    check_pack(plan, values, image.len())?;
    for (n, &v) in (0..plan.count()).zip(values) {
        let field = Field::of(plan, NodeNumber(n));
        field.write(image, field.width.twos_complement(v));
    }
    let end = plan.start(NodeNumber(plan.count()));
    let spare = spare_after(usize::from(end));
    write_bits(image, end, spare, 0);
    Ok(())
}

// Reads every field into its value. Values past the plan's nodes stay.
pub fn unpack(plan: &Plan, image: &[u8], values: &mut [i32]) -> Result<(), Refusal>
    ensures answers { result ≡ answer_unless (short_refusal (nodes_of plan.now) (length values.old) (length image.now)) tt }
    ensures values { values.new ≡ leave_unless (short_refusal (nodes_of plan.now) (length values.old) (length image.now)) values.old
        (unpacked (nodes_of plan.now) image.now (length (nodes_of plan.now)) ++ drop (length (nodes_of plan.now)) values.old) }
    ensures back { short_refusal (nodes_of plan.now) (length values.old) (length image.now) ≡ None →
        packed (nodes_of plan.now) values.new ≡ spare_cleared (nodes_of plan.now) image.now }
{
    check_long(plan, values.len(), image.len())?;
    let count = usize::from(plan.count());
    for (n, value) in values[..count].iter_mut().enumerate() {
        *value = Field::of(plan, NodeNumber(n as u8)).read(image);
    }
    Ok(())
}
