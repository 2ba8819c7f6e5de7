// A store over a lent image.
ghost use Rattle.std.specs.Prelude.{◌≡◌, ℕ, ◌*◌, length, is_some, IfSome, nat_lt};
ghost use Rattle.plans.specs.Meaning.{nodes_of};
ghost use Rattle.image_model.specs.Fields.{Lies, leading, image_store, put_bit};
ghost use Rattle.image_model.specs.Image.{image_bit};
ghost use Rattle.stores.specs.Store.{may_put, put as put_value};
ghost use Rattle.image_model.specs.ImageLaws.{image_lawful};

use crate::field::Field;
use basics::node::NodeNumber;
use plans::plan::Plan;
use stores::store::NodeStore;

// The nodes whose fields lie wholly in the image. Any image will do; a short one has fewer nodes.
#[derive(Drop)]
pub struct PackedStore<'p, 'a> {
    plan: &'p Plan,
    image: &'a mut [u8],
}

impl<'p, 'a> PackedStore<'p, 'a> {
    pub fn new(plan: &'p Plan, image: &'a mut [u8]) -> PackedStore<'p, 'a>
        ensures plan { result.plan.now ≡ plan.now }
        ensures image { result.image.now ≡ image.old }
        ensures loan { result.image.ghost_name ≡ image.entry.ghost_name }
    {
        PackedStore { plan, image }
    }

    // The image, back from the store.
    pub fn into_image(self) -> &'a mut [u8]
        ensures { result.now ≡ self.entry.image.now }
    {
        let PackedStore { plan: _, image } = self;
        image // as the puts have left it
    }
}

impl PackedStore<'_, '_> {
    // The field of node n, where there is such a node and the field lies wholly in the image.
    fn field(&self, n: NodeNumber) -> Option<Field>
        ensures some { is_some result ≡ nat_lt n.0 (leading (nodes_of self.now.plan.now) (8 * length self.now.image.now)) }
        ensures lies { IfSome result (λ f. Lies (nodes_of self.now.plan.now) (8 * length self.now.image.now) n.0 f.start f.width.bits) }
    {
        if n.0 >= self.plan.count() {
            return None;
        }
        let field = Field::of(self.plan, n);
        if field.end().div_ceil(8) <= self.image.len() {
            Some(field)
        } else {
            None
        }
    }
}

impl NodeStore for PackedStore<'_, '_> {
    ghost store = { λ s. image_store (nodes_of s.plan.now) s.image.now };

    ghost lawful = { λ s. image_lawful s.plan.now s.image.now };

    fn count(&self) -> u8 {
        // Most images hold every field, so look for the last one first.
        (0..self.plan.count())
            .rfind(|n| self.field(NodeNumber(*n)).is_some())
            .map_or(0, |n| n + 1)
    }

    fn value(&self, n: NodeNumber) -> i32 {
        self.field(n).map_or(0, |field| field.read(self.image))
    }

    fn low(&self, n: NodeNumber) -> i32 {
        self.field(n).map_or(0, |field| field.width.lowest())
    }

    fn high(&self, n: NodeNumber) -> i32 {
        self.field(n).map_or(0, |field| field.width.highest())
    }

    // Changes the bits of the field alone.
    fn put(&mut self, n: NodeNumber, v: i32) -> bool
        ensures says { result ≡ may_put (image_store (nodes_of self.old.plan.now) self.old.image.now) n.0 v }
        ensures leaves { image_store (nodes_of self.new.plan.now) self.new.image.now ≡ put_value (image_store (nodes_of self.old.plan.now) self.old.image.now) n.0 v }
        ensures plan { self.new.plan.now ≡ self.old.plan.now }
        ensures long { length self.new.image.now ≡ length self.old.image.now }
        ensures bits { (i : ℕ) → image_bit self.new.image.now i ≡ put_bit (nodes_of self.old.plan.now) self.old.image.now n.0 v result i }
    {
        let Some(field) = self.field(n) else {
            return false;
        };
        if !field.width.fits(v) {
            return false;
        }
        field.write(self.image, field.width.twos_complement(v));
        true
    }
}
