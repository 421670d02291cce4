// Weights in the working room: for each node of an ordered diagram, how many valuations that it holds for have a path that visits it.
#![tactic(auto)]

mod up;
pub mod weigh;
