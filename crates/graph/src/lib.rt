// The points of a finite graph that walks reach from a set of points. The points may be nodes in one graph and
// transactions in another.
#![tactic(auto)]

ghost use Rattle.std.specs.Prelude.{◌≡◌, ℕ, Bool};
ghost use Rattle.basics.specs.Sets.{has};
ghost use Rattle.graph.specs.Walks.{Reached};

use basics::node::{NodeNumber, NodeSet};
use basics::number::Numbered;
use basics::set::NumberSet;

pub trait Graph {
    // A set of the graph's points.
    type Points: NumberSet;

    // Whether an edge leads from the first point to the second.
    ghost edge: { Self → ℕ → ℕ → Bool };

    // The points to which an edge leads from a point.
    fn successors(&self, point: <Self::Points as NumberSet>::Number) -> Self::Points
        ensures { (j : ℕ) → has (Self.Points.mask result) j ≡ edge self.now (Self.Points.Number.number point) j };
}

// The points that a walk from a point of `start` reaches, those of `start` among them.
pub fn reach<G: Graph>(graph: &G, start: G::Points) -> G::Points
    ensures { Reached (G.edge graph.now) (G.Points.mask start) (G.Points.mask result) }
{
    let mut seen = start;
    let mut followed = G::Points::empty();
    while let Some(i) = seen.difference(followed).first() {
        followed = followed.with(i);
        seen = seen.union(graph.successors(i));
    }
    seen
}

// A graph over all points 0 to 63, whatever set the graph within names. A set of nodes stands for any 64 points here.
#[derive(Drop)]
struct Wide<'g, G> {
    graph: &'g G,
}

impl<G: Graph> Graph for Wide<'_, G> {
    type Points = NodeSet;

    ghost edge = { λ w. G.edge w.graph.now };

    fn successors(&self, point: NodeNumber) -> NodeSet {
        let point = <G::Points as NumberSet>::Number::of_number(point.number());
        NodeSet {
            mask: self.graph.successors(point).bits(),
        }
    }
}

// As `reach`, from a mask of any 64 points to another: the graph's own set may be narrower.
pub fn reach_mask<G: Graph>(graph: &G, start: u64) -> u64
    ensures { Reached (G.edge graph.now) start result }
{
    reach(&Wide { graph }, NodeSet { mask: start }).mask
}
