// Reduction: the diagram with the fewest nodes that stands for the same function.
#![tactic(auto)]

pub mod answer;
pub mod reduce;
