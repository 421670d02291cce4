// A store of nodes in lent words, no node in it twice, and the walk over a diagram that builds its function there.
#![tactic(auto)]

pub mod shelf;
pub mod walk;
