// The field of a node in an image. That it lies in the image is asked where it is used, since field and image are lent apart.
ghost use Rattle.std.specs.Prelude.{◌≡◌, ℕ, ◌+◌, ◌*◌, ◌^◌, ◌<◌, ◌≤◌, length};
ghost use Rattle.plans.specs.Meaning.{nodes_of};
ghost use Rattle.plans.specs.Nodes.{node_at, field_start};
ghost use Rattle.image_model.specs.Image.{image_bit, number, signed, with_field};
ghost use Rattle.image_model.specs.Fields.{plan_bits};

use crate::bits::{read_bits, write_bits};
use crate::width::Width;
use basics::node::NodeNumber;
use plans::plan::Plan;

// Where a node's field lies: `width` bits from bit `start` on.
#[derive(Clone, Copy, Drop)]
pub(crate) struct Field {
    pub(crate) start: u16,
    pub(crate) width: Width,
}

impl Field {
    // The field of node n.
    pub(crate) fn of(plan: &Plan, n: NodeNumber) -> Field
        requires { n.0 < length (nodes_of plan.now) }
        ensures start { result.start ≡ field_start (nodes_of plan.now) n.0 }
        ensures width { result.width.bits ≡ (node_at (nodes_of plan.now) n.0).width }
        ensures inside { result.start + result.width.bits ≤ plan_bits (nodes_of plan.now) }
    {
        let bits = plan.width(n);
        Field {
            start: plan.start(n),
            width: Width { bits },
        }
    }

    // The bit after its last.
    pub(crate) fn end(self) -> usize
        ensures { result ≡ self.start + self.width.bits }
    {
        usize::from(self.start) + usize::from(self.width.bits)
    }

    // The value in the field.
    pub(crate) fn read(self, image: &[u8]) -> i32
        requires { self.start + self.width.bits ≤ 8 * length image.now }
        ensures { result ≡ signed self.width.bits (number (image_bit image.now) self.start self.width.bits) }
    {
        self.width
            .signed(read_bits(image, self.start, self.width.bits))
    }

    // Puts these bits into the field, and changes no other.
    pub(crate) fn write(self, image: &mut [u8], bits: u32)
        requires inside { self.start + self.width.bits ≤ 8 * length image.old }
        requires small { bits < 2 ^ self.width.bits }
        ensures { (i : ℕ) → image_bit image.new i ≡ with_field (image_bit image.old) self.start self.width.bits bits i }
    {
        write_bits(image, self.start, self.width.bits, bits);
    }
}
