// The check that any words can be offered to.
#![tactic(auto)]

mod plain;
pub mod validate;
