// The node lines and the guard lines of a text.
ghost use Rattle.std.specs.Prelude.{◌≡◌, ◌≤◌, ◌&&◌, List, map, length, Some};
ghost use Rattle.basics.specs.declared.transaction.TransactionNumber.{TransactionNumber as Transaction};
ghost use Rattle.image_model.specs.Fields.{fits};
ghost use Rattle.plans.specs.Building.{good_width};
ghost use Rattle.plans.specs.Meaning.{nodes_of};
ghost use Rattle.rules.specs.Adding.{in_limits};
ghost use Rattle.rules.specs.Meaning.{guards_of};
ghost use Rattle.runtext_model.specs.Accepting.{node_number};
ghost use Rattle.scripts_model.specs.declared.step.Step.{Step as AnyStep};
ghost use Rattle.runtext.specs.Forming.{node_of, guard_of};
ghost use Rattle.runtext.specs.Listing.{listed};
ghost use Rattle.runtext.specs.Of.{Takes};

use crate::bounds::NODES;
use crate::fill::fill;
use crate::line::{GuardForm, NodeForm};
use crate::numbers::Numbers;
use crate::sections::node_count;
use crate::setup::Setup;
use basics::node::NodeNumber;
use basics::refusal::Refusal;
use rules::guard::GuardTable;

// Whether the width is one of a field, and the value lies in the field's range. The crate images would be needed for two
// comparisons.
fn is_field(width: u32, value: i32) -> bool
    ensures { result ≡ (good_width width && fits width value) }
{
    // Tried with `(2..=16).contains(&width)`: what the function answers was then not proved.
    if width < 2 || width > 16 {
        return false;
    }
    let half = 1 << (width - 1);
    (-half..half).contains(&value)
}

// Whether there is room for one more guard, and only nodes of the plan are named. The guard table's own test takes lists of
// nodes, and these are still numbers of a line.
fn in_limits(table: &GuardTable, form: GuardForm) -> bool
    ensures { result ≡ in_limits (nodes_of table.now.plan) (guards_of table.now) (node_number form.entry.node) (map node_number (listed form.entry.a.from)) (map node_number (listed form.entry.b.from)) }
{
    let count = node_count(table);
    // By `&`: one goal that has the whole condition in it. Tried: with `&&` two goals of its branches stayed open.
    (table.count() < 256)
        & ((form.node < count) & ((form.a.limit <= count) & (form.b.limit <= count)))
}

// The nodes of a list, in an array that is lent for them: nothing is allocated.
fn nodes_in<'b>(list: Numbers, buffer: &'b mut [NodeNumber; NODES]) -> &'b [NodeNumber]
    requires few { list.count ≤ 64 }
    requires below { list.limit ≤ 256 }
    ensures { result.now ≡ map node_number (listed list.entry.from) }
{
    let count = fill(list, buffer);
    &buffer[..count]
}

impl Setup {
    pub(crate) fn node_line(&mut self, form: NodeForm) -> Result<(), Refusal>
        ensures { (ss : List AnyStep) (ts : List Transaction) → 1024 ≤ length ss → Takes self.old self.new ss ss ts ts (Some (node_of form.entry)) result }
    {
        if !self.takes_nodes() {
            return Err(Refusal::MisplacedLine);
        }
        let count = node_count(&self.table);
        // By `|`: what `is_field` answers is then known on each way.
        if (count >= NODES as u32) | !is_field(form.width, form.value) {
            return Err(Refusal::LimitExceeded);
        }
        // More parents than there are nodes cannot rise and be lower.
        if form.parents.limit > count || form.parents.count > NODES {
            return Err(Refusal::BadParents);
        }
        let mut buffer = [NodeNumber(0); NODES];
        let parents = nodes_in(form.parents, &mut buffer);
        self.table.add_node(form.width as u8, parents)?;
        self.values[count as usize] = form.value;
        Ok(())
    }

    pub(crate) fn guard_line(&mut self, form: GuardForm) -> Result<(), Refusal>
        ensures { (ss : List AnyStep) (ts : List Transaction) → 1024 ≤ length ss → Takes self.old self.new ss ss ts ts (Some (guard_of form.entry)) result }
    {
        if !self.takes_guards() {
            return Err(Refusal::MisplacedLine);
        }
        if !in_limits(&self.table, form) {
            return Err(Refusal::LimitExceeded);
        }
        // More nodes than the plan has cannot rise.
        if form.a.count > NODES || form.b.count > NODES {
            return Err(Refusal::BadGuard);
        }
        let mut a_buffer = [NodeNumber(0); NODES];
        let mut b_buffer = [NodeNumber(0); NODES];
        let a = nodes_in(form.a, &mut a_buffer);
        let b = nodes_in(form.b, &mut b_buffer);
        self.table.add(NodeNumber(form.node as u8), a, b)?;
        Ok(())
    }
}
