// Which of the three lock rules a run text asks for.
#[derive(Clone, Copy, Debug, Drop, PartialEq, Eq)]
pub enum RuleKind {
    Tree,
    Majority,
    Guards,
}
