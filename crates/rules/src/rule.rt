// What a session asks of a lock rule.
ghost use Rattle.std.specs.Prelude.{◌≡◌};
ghost use Rattle.rules.specs.Rule.{Rule};

use basics::node::{NodeNumber, NodeSet};

pub trait LockRule {
    ghost rule: { Self → Rule };

    // How many nodes the rule knows.
    fn count(&self) -> u8
        ensures { result ≡ (rule self.now).count };

    // The parents of node n; none at or beyond the count.
    fn parents(&self, n: NodeNumber) -> NodeSet
        ensures { result.mask ≡ (rule self.now).parents n.0 };

    // Whether a transaction may lock node n that has locked `locked` so far and still holds `held`. Two sets, and no struct of
    // them: a session keeps them beside the phase, and each rule would take them apart again at once.
    fn allows(&self, n: NodeNumber, locked: NodeSet, held: NodeSet) -> bool
        ensures { result ≡ (rule self.now).allows n.0 locked.mask held.mask };
}
