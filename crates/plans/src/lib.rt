// A junction's timing plan as a graph: its nodes, their widths and their parents.
#![tactic(auto)]

pub mod build;
pub mod descend;
pub mod plan;
