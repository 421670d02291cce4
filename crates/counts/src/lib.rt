// Counts of a decision diagram, the valuations that it holds for and the paths from its root to node 1: what they are, and one node's from its
// children's. They are worked out in crates/exact_counts, so that an edit of either is checked in seconds.
#![tactic(auto)]

pub mod links;
pub mod root;
pub mod table;
