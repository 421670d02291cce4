// What the check of a diagram can say before any link is followed: refusals 1 to 10.
#![tactic(auto)]

pub mod lengths;
pub mod ranges;
pub mod terminals;
