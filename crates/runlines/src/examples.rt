// Lines worked out.
ghost use Rattle.runlines.specs.Examples.{TurnLines, ListLines, LastLines};

// All of them are as written there.
pub fn example_lines()
    ensures turns { TurnLines }
    ensures lists { ListLines }
    ensures last { LastLines }
{}
