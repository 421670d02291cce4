// Pairs of nodes of two diagrams, as a walk from both roots reaches them: a step of a pair, the table of those that were met, and the walk.
#![tactic(auto)]

pub mod step;
pub mod table;
pub mod walk;
