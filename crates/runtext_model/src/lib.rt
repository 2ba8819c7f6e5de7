// The run text: what its lines say, and that each description has one text.
#![tactic(auto)]

pub mod kind;

ghost use Rattle.runtext_model.specs.Canonical.{Canonical};

// Every description has one text, and no other text is read as it.
pub fn format_canonical()
    ensures { Canonical }
{}
