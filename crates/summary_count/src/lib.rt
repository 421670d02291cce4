// The numbers of a summary: the nodes and the live slots of each variable, added to the records of plain words. The summary is worked out from them
// in crates/summary_fresh, and kept in crates/summary_calls: three crates, so that an edit of each is checked in seconds.
#![tactic(auto)]

pub mod nodes;
pub mod slots;
