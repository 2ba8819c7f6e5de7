// Cases at the edges, worked out over the definitions that the other crates' contracts cite.
#![tactic(auto)]

ghost use Rattle.edge_cases.specs.Rules.{MajorityOfFour, GuardsStandApart, GuardsMeet};
ghost use Rattle.edge_cases.specs.Sessions.{WidestAdjustment};
ghost use Rattle.edge_cases.specs.Stores.{ImageOfTwo, Narrow, Wide};

// All of them hold: the contract says so, and the function does nothing.
pub fn edge_cases_stand()
    ensures image_of_two { ImageOfTwo }
    ensures narrow { Narrow }
    ensures wide { Wide }
    ensures majority_of_four { MajorityOfFour }
    ensures guards_apart { GuardsStandApart }
    ensures guards_meet { GuardsMeet }
    ensures widest_adjustment { WidestAdjustment }
{}
