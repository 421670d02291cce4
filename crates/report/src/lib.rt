// The report of a file: count and weights of the diagram in it as lines of text, or the one line of its refusal.
#![tactic(auto)]

pub mod lines;
pub mod weigh;
