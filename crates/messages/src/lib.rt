// What `shrink` says on standard error: its help, the line of a refusal, and the lines of its summary.
#![tactic(auto)]

pub mod number;
pub mod refusal;
pub mod summary;
pub mod words;
