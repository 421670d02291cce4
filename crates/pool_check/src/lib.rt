// Refusal 46: whether any words are a well-formed pool. It is decided before a working room is looked at, so what it needs is local.
#![tactic(auto)]

mod again;
pub mod check;
pub mod nodes;
mod wanted;
