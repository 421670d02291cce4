// The summary kept beside a pool over additions and drops, for any words.
#![tactic(auto)]

pub mod keep;
