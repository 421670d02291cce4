// The supervisor's job: a keep condition may only grow, a suppress condition may only lose cases.
#![tactic(auto)]

pub mod answer;
pub mod job;
pub mod summary;
pub mod wanted;

// How many bytes of a file were written, and where the text ends.
#[derive(Clone, Copy)]
pub struct Ends {
    pub file: usize,
    pub text: usize,
}
