// The summary beside a pool: what it is, and what is promised of it (specs/). Its numbers are counted in crates/summary_count, it is
// worked out in crates/summary_fresh, kept in crates/summary_calls, and lent as a row of structures by crates/summary_row.
#![tactic(auto)]

// The words of a variable's record: how many live nodes test it, and how many live slots depend on it.
pub const RECORD: usize = 2;
