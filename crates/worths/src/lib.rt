// The pairs of nodes that two diagrams reach together: for how many valuations both nodes hold, and whether the two differ. It stands in the
// table of the pairs, beside each.
#![tactic(auto)]

pub mod flags;
pub mod sums;
