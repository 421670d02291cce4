// The map of the working room while a target is searched for, in words for each node. The definitions have the same places in
// specs/Map.antt, which says what stands there.
#![tactic(auto)]

use naturals::WORDS;
use store::shelf;

pub const MARKS: usize = 1;

pub const MARKS_END: usize = MARKS + 1;

pub const LINKS: usize = MARKS_END;

pub const COUNTS: usize = LINKS + 1;

pub const COUNTS_END: usize = COUNTS + WORDS;

pub const WEIGHTS: usize = COUNTS_END;

pub const WEIGHTS_END: usize = WEIGHTS + WORDS;

pub const TABLES: usize = WEIGHTS_END;

// Behind the memo, a word for each node, the store begins with its nodes.
pub const ANSWER: usize = TABLES + 1;

pub const TABLES_END: usize = ANSWER + shelf::END;

pub const END: usize = TABLES_END;
