// Evening settings: a condition's direction and target, stored beside it in a block of 512 bytes with the two sums of a block file.
// docs/SETTINGS.md has the layout.
#![tactic(auto)]

pub mod layout;
pub mod number;
pub mod range;
pub mod read;
pub mod setting;
pub mod write;
