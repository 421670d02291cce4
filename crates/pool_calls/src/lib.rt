// The operations on a pool, for any words.
#![tactic(auto)]

pub mod add;
pub mod drop;
pub mod read;
mod slot;
