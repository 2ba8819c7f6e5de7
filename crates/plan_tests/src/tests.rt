ghost use Rattle.plan_tests.specs.Ring.{ring_edge};

use basics::node::{NodeNumber, NodeSet};
use basics::refusal::Refusal;
use basics::set::NumberSet;
use graph::{Graph, reach, reach_mask};
use plans::plan::Plan;
use std::test::Fail;

#[test]
fn refuses_what_it_must(rt: HostRuntime) {
    let mut plan = Plan::new();
    assert_eq!(rt;
        plan.add(8, &[NodeNumber(0)]),
        Err(Refusal::BadParents),
        "node 0 with a parent"
    );
    assert_eq!(rt; plan.add(8, &[]), Ok(NodeNumber(0)));
    assert_eq!(rt;
        plan.add(1, &[NodeNumber(0)]),
        Err(Refusal::LimitExceeded),
        "too narrow"
    );
    assert_eq!(rt;
        plan.add(17, &[NodeNumber(0)]),
        Err(Refusal::LimitExceeded),
        "too wide"
    );
    assert_eq!(rt;
        plan.add(17, &[]),
        Err(Refusal::LimitExceeded),
        "the width is looked at first"
    );
    assert_eq!(rt; plan.add(8, &[]), Err(Refusal::BadParents), "no parents");
    assert_eq!(rt;
        plan.add(8, &[NodeNumber(1)]),
        Err(Refusal::BadParents),
        "its own parent"
    );
    assert_eq!(rt;
        plan.add(8, &[NodeNumber(0), NodeNumber(200)]),
        Err(Refusal::BadParents),
        "a far parent"
    );
    assert_eq!(rt; plan.add(2, &[NodeNumber(0)]), Ok(NodeNumber(1)));
    assert_eq!(rt;
        plan.add(8, &[NodeNumber(0), NodeNumber(0)]),
        Err(Refusal::BadParents),
        "a parent twice"
    );
    assert_eq!(rt;
        plan.add(8, &[NodeNumber(1), NodeNumber(0)]),
        Err(Refusal::BadParents),
        "falling parents"
    );
    assert_eq!(rt; plan.count(), 2);
    assert_eq!(rt; plan.width(NodeNumber(1)), 2);
}

#[test]
fn has_a_node_under_two_parents(rt: HostRuntime) -> Result<(), Fail> {
    let mut plan = Plan::new();
    plan.add(8, &[])?;
    plan.add(8, &[NodeNumber(0)])?;
    plan.add(8, &[NodeNumber(0)])?;
    plan.add(16, &[NodeNumber(1), NodeNumber(2)])?;
    let both = NodeSet::empty().with(NodeNumber(1)).with(NodeNumber(2));
    assert_eq!(rt; plan.parents(NodeNumber(3)), both);
    assert_eq!(rt; plan.parents(NodeNumber(4)), NodeSet::empty());
    assert_eq!(rt; plan.children(NodeNumber(0)), both);
    assert_eq!(rt;
        plan.below(NodeNumber(2)),
        NodeSet::empty().with(NodeNumber(2)).with(NodeNumber(3))
    );
    assert_eq!(rt; plan.below(NodeNumber(4)), NodeSet::empty());
    Ok(())
}

#[test]
fn takes_64_nodes_in_a_chain(rt: HostRuntime) -> Result<(), Fail> {
    let mut plan = Plan::new();
    plan.add(16, &[])?;
    for parent in (0..63).map(NodeNumber) {
        plan.add(16, &[parent])?;
    }
    assert_eq!(rt;
        plan.add(16, &[NodeNumber(63)]),
        Err(Refusal::LimitExceeded)
    );
    assert_eq!(rt; plan.count(), 64);
    assert_eq!(rt; plan.below(NodeNumber(0)).size(), 64);
    assert_eq!(rt; plan.below(NodeNumber(60)).size(), 4);
    Ok(())
}

// The points 0, 1 and 2 in a ring, and 63 that leads to 63.
struct Ring;

impl Graph for Ring {
    type Points = NodeSet;

    ghost edge = { λ _. ring_edge };

    fn successors(&self, point: NodeNumber) -> NodeSet {
        let mask = match point.0 {
            0 => 2,
            1 => 4,
            2 => 1,
            63 => 1 << 63,
            _ => 0,
        };
        NodeSet { mask }
    }
}

fn reached(mask: u64) -> u64 {
    reach(&Ring, NodeSet { mask }).mask
}

#[test]
fn ends_in_a_loop(rt: HostRuntime) {
    assert_eq!(rt; reached(2), 7);
    assert_eq!(rt; reached(1 << 63), 1 << 63);
    assert_eq!(rt; reached(8), 8);
    assert_eq!(rt; reached(0), 0);
}

#[test]
fn reaches_from_a_mask(rt: HostRuntime) {
    assert_eq!(rt; reach_mask(&Ring, (1 << 63) | 2), (1 << 63) | 7);
    assert_eq!(rt; reach_mask(&Ring, 0), 0);
}
