// One task from beginning to end: a small junction's plan is built and shown, a clearance time is changed in the image
// that the lamps read, and two engineers change phase six at the same time.
#![tactic(auto)]

mod story;

use crate::story::{story, tell_order, tell_rows};
use anyhow::anyhow;
use basics::node::NodeNumber;
use basics::set::NumberSet;
use images::pack::pack;
use images::packed::PackedStore;
use plans::plan::Plan;
use rules::tree::TreeRule;
use session::state::Session;
use std::iter;
use stores::store::NodeStore;

#[derive(Clone, Copy)]
struct Entry {
    name: &'static str,
    width: u8,
    value: i32,
    parents: &'static [NodeNumber],
}

// The plan's nodes in the order of their numbers, each after its parents.
const ENTRIES: [Entry; 12] = [
    Entry {
        name: "junction",
        width: 4,
        value: 0,
        parents: &[],
    },
    Entry {
        name: "stage one",
        width: 4,
        value: 1,
        parents: &[NodeNumber(0)],
    },
    Entry {
        name: "phase two",
        width: 4,
        value: 1,
        parents: &[NodeNumber(1)],
    },
    Entry {
        name: "green of phase two",
        width: 8,
        value: 100,
        parents: &[NodeNumber(2)],
    },
    Entry {
        name: "clearance of phase two",
        width: 8,
        value: 30,
        parents: &[NodeNumber(2)],
    },
    Entry {
        name: "stage two",
        width: 4,
        value: 2,
        parents: &[NodeNumber(0)],
    },
    Entry {
        name: "phase four",
        width: 4,
        value: 1,
        parents: &[NodeNumber(5)],
    },
    Entry {
        name: "green of phase four",
        width: 8,
        value: 80,
        parents: &[NodeNumber(6)],
    },
    Entry {
        name: "phase six",
        width: 4,
        value: 1,
        parents: &[NodeNumber(5)],
    },
    Entry {
        name: "clearance of phase six",
        width: 8,
        value: 25,
        parents: &[NodeNumber(8)],
    },
    Entry {
        name: "long trucks in phase six",
        width: 2,
        value: 0,
        parents: &[NodeNumber(8)],
    },
    Entry {
        name: "all red of phases four and six",
        width: 8,
        value: 20,
        parents: &[NodeNumber(6), NodeNumber(8)],
    },
];

pub(crate) const PHASE_SIX: NodeNumber = NodeNumber(8);

pub(crate) const CLEARANCE: NodeNumber = NodeNumber(9);

pub(crate) const TRUCKS: NodeNumber = NodeNumber(10);

pub(crate) fn name(n: NodeNumber) -> &'static str {
    ENTRIES
        .get(n.0 as usize)
        .map_or("no node", |entry| entry.name)
}

// The parent under which the picture shows a node: the highest, since a node is numbered after all its parents.
fn shown_under(plan: &Plan, n: NodeNumber) -> Option<NodeNumber> {
    let parents = plan.parents(n);
    (0..64)
        .rev()
        .map(NodeNumber)
        .find(|&parent| parents.contains(parent))
}

fn depth(plan: &Plan, n: NodeNumber) -> usize {
    iter::successors(shown_under(plan, n), |&parent| shown_under(plan, parent))
        .take(64)
        .count()
}

fn build() -> anyhow::Result<Plan> {
    let mut plan = Plan::new();
    for entry in &ENTRIES {
        plan.add(entry.width, entry.parents)
            .map_err(|_| anyhow!("a node of the plan is refused"))?;
    }
    Ok(plan)
}

fn first_values() -> [i32; 12] {
    ENTRIES.map(|entry| entry.value)
}

// The plan, and where it is shown.
#[derive(Drop)]
struct Picture<'p, P> {
    rt: &'p P,
    plan: &'p Plan,
}

impl<P: Print> Picture<'_, P> {
    fn show_node(&self, n: NodeNumber) -> anyhow::Result<()> {
        for _ in 0..depth(self.plan, n) {
            print!(self.rt; "  ")?;
        }
        print!(self.rt; "{} {}, {} bits", n.0, name(n), self.plan.width(n))?;
        let above = shown_under(self.plan, n);
        for parent in (0..n.0).map(NodeNumber) {
            if self.plan.parents(n).contains(parent) && above != Some(parent) {
                print!(self.rt; ", also under {}", name(parent))?;
            }
        }
        println!(self.rt; "")?;
        Ok(())
    }

    fn show(&self) -> anyhow::Result<()> {
        println!(self.rt; "The plan has {} nodes:", self.plan.count())?;
        for n in (0..self.plan.count()).map(NodeNumber) {
            self.show_node(n)?;
        }
        Ok(())
    }

    fn tell_below(&self, top: NodeNumber) -> anyhow::Result<()> {
        let touched = self.plan.below(top);
        println!(self.rt;
            "A change of {} can touch these {} nodes:",
            name(top),
            touched.size()
        )?;
        for n in 0..self.plan.count() {
            if touched.contains(NodeNumber(n)) {
                println!(self.rt; "  {n} {}", name(NodeNumber(n)))?;
            }
        }
        Ok(())
    }

    // The bytes that hold the plan's fields, in hexadecimal.
    fn show_image(&self, image: &[u8]) -> anyhow::Result<()> {
        let bits = self.plan.start(NodeNumber(self.plan.count())) as usize;
        for byte in image.iter().take(bits.div_ceil(8)) {
            print!(self.rt; " {byte:02X}")?;
        }
        println!(self.rt; "")?;
        Ok(())
    }
}

fn change(
    rt: &impl Print,
    store: &mut impl NodeStore,
    n: NodeNumber,
    tenths: i32,
) -> anyhow::Result<()> {
    let before = store.value(n);
    if store.put(n, tenths) {
        println!(rt;
            "The {} is changed from {before} to {tenths} tenths of a second.",
            name(n)
        )?;
    } else {
        println!(rt;
            "The {} cannot be {tenths}: its row holds {} to {}. It stays {before}.",
            name(n),
            store.low(n),
            store.high(n)
        )?;
    }
    Ok(())
}

fn run(rt: &impl Print) -> anyhow::Result<()> {
    let plan = build()?;
    let picture = Picture { rt, plan: &plan };
    picture.show()?;
    picture.tell_below(PHASE_SIX)?;
    let mut page = [0u8; 128];
    pack(&plan, &first_values(), &mut page).map_err(|_| anyhow!("a value does not fit its row"))?;
    print!(rt; "The image of the plan:")?;
    picture.show_image(&page)?;
    let mut store = PackedStore::new(&plan, &mut page);
    change(rt, &mut store, CLEARANCE, 30)?;
    change(rt, &mut store, CLEARANCE, 200)?;
    let mut session = Session::new(TreeRule { plan: &plan }, store);
    story(rt, &mut session)?;
    tell_order(rt, &session)?;
    let (_, store) = session.into_parts();
    tell_rows(rt, &store)?;
    print!(rt; "The image of the plan now:")?;
    picture.show_image(store.into_image())
}

fn main(rt: HostRuntime) -> anyhow::Result<()> {
    run(&rt)
}
