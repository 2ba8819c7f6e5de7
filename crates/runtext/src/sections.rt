// Where in a text a line may stand.
ghost use Rattle.std.specs.Prelude.{◌≡◌, ℕ, ◌≤◌, not, ◌&&◌, List, length, take, ℤ};
ghost use Rattle.basics.specs.declared.transaction.TransactionNumber.{TransactionNumber};
ghost use Rattle.plans.specs.Meaning.{nodes_of};
ghost use Rattle.rules.specs.Meaning.{guards_of};
ghost use Rattle.runtext_model.specs.Accepting.{is_empty, is_some, in_section};
ghost use Rattle.runtext_model.specs.Lines.{node, guard, script, step, turns};
ghost use Rattle.scripts_model.specs.declared.step.Step.{Step};
ghost use Rattle.runtext.specs.Of.{description_of, turns_in};

use crate::setup::Setup;
use rules::guard::GuardTable;
use runtext_model::kind::RuleKind;

pub(crate) fn node_count(table: &GuardTable) -> u32
    ensures { result ≡ length (nodes_of table.now.plan) }
{
    table.plan().count() as u32
}

fn has_nodes(table: &GuardTable) -> bool
    ensures { result ≡ not (is_empty (nodes_of table.now.plan)) }
{
    table.plan().count() != 0
}

fn has_guards(table: &GuardTable) -> bool
    ensures { result ≡ not (is_empty (guards_of table.now)) }
{
    table.count() != 0
}

impl Setup {
    // Whether no step and no turn list has come yet.
    fn before_scripts(&self) -> bool
        ensures { (ss : List Step) (ts : List TransactionNumber) → 1024 ≤ length ss → result ≡ (is_empty (take self.now.steps ss) && not (is_some (turns_in self.now.turns ts))) }
    {
        self.steps == 0 && self.turns.is_none()
    }

    // Whether a node line may stand here: after the rule, and before guards, scripts and turns.
    pub(crate) fn takes_nodes(&self) -> bool
        ensures { (ss : List Step) (ts : List TransactionNumber) → 1024 ≤ length ss → (w : ℕ) (v : ℤ) (ps : List ℕ) → result ≡ in_section (description_of self.now ss ts) (node w v ps) }
    {
        self.kind.is_some() && !has_guards(&self.table) && self.before_scripts()
    }

    // Whether a guard may: under the guard rule, after the nodes, and before scripts and turns.
    pub(crate) fn takes_guards(&self) -> bool
        ensures { (ss : List Step) (ts : List TransactionNumber) → 1024 ≤ length ss → (n : ℕ) (a b : List ℕ) → result ≡ in_section (description_of self.now ss ts) (guard n a b) }
    {
        self.kind == Some(RuleKind::Guards) && has_nodes(&self.table) && self.before_scripts()
    }

    // Whether a script or the turn list may: after the nodes, and before the turn list.
    pub(crate) fn takes_scripts(&self) -> bool
        ensures { (ss : List Step) (ts : List TransactionNumber) → result ≡ in_section (description_of self.now ss ts) script }
    {
        has_nodes(&self.table) && self.turns.is_none()
    }

    // Whether a step may: in a script.
    pub(crate) fn takes_steps(&self) -> bool
        ensures { (ss : List Step) (ts : List TransactionNumber) → 1024 ≤ length ss → (s : Step) → result ≡ in_section (description_of self.now ss ts) (step s) }
    {
        self.steps != 0 && self.takes_scripts()
    }
}
