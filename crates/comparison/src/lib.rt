// Two diagrams of one variable count beside each other: in how many valuations one holds and not the other, in how many both, and the
// smallest valuation in which they differ.
#![tactic(auto)]

pub mod compare;
mod smallest;
mod work;
