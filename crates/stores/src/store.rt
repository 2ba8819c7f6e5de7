// What a node store answers, whatever it is made of.
ghost use Rattle.std.specs.Prelude.{◌≡◌};
ghost use Rattle.stores.specs.Store.{Store, Lawful, may_put, put as put_value};

use basics::node::NodeNumber;

// Values of nodes, each with a range for what may be put there. A value may lie outside its range, and a range may be
// empty.
pub trait NodeStore {
    // What the store means.
    ghost store: { Self → Store };

    // It has at most 64 nodes, numbers of at most 16 bits, and 0 at or beyond the count.
    ghost lawful: { (s : Self) → Lawful (store s) };

    fn count(&self) -> u8
        ensures { result ≡ (store self.now).count };

    fn value(&self, n: NodeNumber) -> i32
        ensures { result ≡ (store self.now).values n.0 };

    fn low(&self, n: NodeNumber) -> i32
        ensures { result ≡ (store self.now).low n.0 };

    fn high(&self, n: NodeNumber) -> i32
        ensures { result ≡ (store self.now).high n.0 };

    // Replaces the node's value, where there is such a node and the value lies in its range; says whether it did.
    fn put(&mut self, n: NodeNumber, v: i32) -> bool
        ensures says { result ≡ may_put (store self.old) n.0 v }
        ensures leaves { store self.new ≡ put_value (store self.old) n.0 v };
}
