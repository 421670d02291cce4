// Decision diagrams as 32-bit words: what they mean, what the check of any words answers, and the words of a node.
// The check itself is three crates above, diagram_form, diagram_reach and diagram_check, so that an edit of it is checked in seconds.
#![tactic(auto)]

pub mod limits;
pub mod node;
pub mod refusal;
pub mod room;
pub mod verdict;
