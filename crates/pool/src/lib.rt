// A site's conditions in one table of nodes: what a pool is, and what is promised of it (specs/). The check that any words can be
// offered to is in crates/pool_check; its conditions are built anew in crates/pool_build; the operations are in crates/pool_calls.
#![tactic(auto)]

// The conditions that a pool has places for.
pub const SLOTS: usize = 64;

// The words of the smallest table: the two terminals.
pub const TERMINAL_WORDS: usize = 6;
