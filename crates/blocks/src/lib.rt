// One block of a block file: 512 bytes, numbers with their least byte first, fifty places for nodes and two sums that guard them.
#![tactic(auto)]

pub mod fields;
pub mod layout;
pub mod nodes;
pub mod stored;
pub mod sums;
pub mod write;
