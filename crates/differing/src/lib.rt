// Two files of a condition, the old one and the new one, compared.
#![tactic(auto)]

pub mod answer;
pub mod job;
pub mod words;

// Where the lines for standard output end, and where the text for standard error does: one of the two is empty.
#[derive(Clone, Copy)]
pub struct Ends {
    pub lines: usize,
    pub text: usize,
}
