// What refuses a target, after the check of the diagram.
#![tactic(auto)]

pub mod count;
pub mod size;
