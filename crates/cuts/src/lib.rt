// Cutting by marks: links to marked nodes are sent to a terminal, and what is left is reduced.
#![tactic(auto)]

pub mod cut;
pub mod marks;
mod send;
