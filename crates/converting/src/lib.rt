// From a block file to a node file of the same nodes, and back.
#![tactic(auto)]

pub mod answer;
pub mod job;
pub mod texts;
pub mod words;

// How many bytes of a file were written, and where the text ends.
#[derive(Clone, Copy)]
pub struct Ends {
    pub file: usize,
    pub text: usize,
}
