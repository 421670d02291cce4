// Stored settings in the place of words: what they do is what the words would have done.
#![tactic(auto)]

pub mod answer;
pub mod show;
pub mod words;
pub mod write;
