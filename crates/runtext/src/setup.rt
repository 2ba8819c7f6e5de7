ghost use Rattle.std.specs.Prelude.{◌≡◌, ◌≤◌, length};
ghost use Rattle.runtext.specs.Counting.{turn_count};

use crate::bounds::NODES;
use rules::guard::GuardTable;
use runtext_model::kind::RuleKind;

// What a run text describes, but for its steps and turns, which stand in buffers of the caller's.
#[derive(Drop)]
pub struct Setup {
    // The rule, once the text has named it.
    pub kind: Option<RuleKind>,
    // The plan and its guards.
    pub table: GuardTable,
    // The first value of each node. An array of all 64, since how many there are is the plan's to say.
    pub values: [i32; NODES],
    // How many scripts there are, and how many steps with their ends; and how many turns, if the text has a turn list.
    pub scripts: u8,
    pub steps: u16,
    pub turns: Option<u16>,
    ghost long: { length values ≡ 64 },
    ghost few: { steps ≤ 1024 },
    ghost several: { scripts ≤ 32 },
    ghost listed: { turn_count turns ≤ 4096 },
}
