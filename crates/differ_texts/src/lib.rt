// What `differ` writes: the lines of an answer on standard output, all else on standard error.
#![tactic(auto)]

pub mod lines;
pub mod texts;
