// What a line adds to a setup.
ghost use Rattle.std.specs.Prelude.{◌≤◌, length};
ghost use Rattle.runtext_model.specs.Lines.{line_of};
ghost use Rattle.runtext.specs.Of.{Takes};

use crate::letter::line_of;
use crate::line::Line;
use crate::piece::Piece;
use crate::setup::Setup;
use basics::refusal::Refusal;
use basics::transaction::TransactionNumber;
use scripts_model::step::Step;

impl Setup {
    // Adds what a line says, or says why not.
    pub(crate) fn take_line(
        &mut self,
        line: Piece,
        steps: &mut [Step],
        turns: &mut [TransactionNumber],
    ) -> Result<(), Refusal>
        requires steps { 1024 ≤ length steps.old }
        requires turns { 4096 ≤ length turns.old }
        ensures { Takes self.old self.new steps.old steps.new turns.old turns.new (line_of line.entry.part.bytes.now) result }
    {
        let said = line_of(line).ok_or(Refusal::MalformedLine)?;
        match said {
            Line::Rule(kind) => self.rule_line(kind),
            Line::Node(form) => self.node_line(form),
            Line::Guard(form) => self.guard_line(form),
            Line::Script => self.script_line(steps),
            Line::Step(form) => self.step_line(form, steps),
            Line::Turns(list) => self.turns_line(list, turns),
        }
    }
}
