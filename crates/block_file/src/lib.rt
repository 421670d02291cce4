// Block files: diagrams of at most 120 nodes as blocks of 512 bytes, one after another.
#![tactic(auto)]

pub mod read;
pub mod write;
