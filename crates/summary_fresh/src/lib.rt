// The summary beside a pool worked out afresh, and compared with the one that is kept.
#![tactic(auto)]

pub mod agree;
pub mod recount;
