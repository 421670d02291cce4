// The numbers of a settings block, each once. The definitions have the same in specs/Settings.antt. Byte 0 is the version.
use blocks::layout::SUMMED;

pub const NEWEST: u32 = 2;

pub const DIRECTION: usize = 1;

pub const KIND: usize = 2;

pub const FLAG: usize = 3;

// The target: words of four bytes, the least first. What is behind it, up to the sums, is unused.
pub const TARGET: usize = 4;

pub const TARGET_WORDS: usize = 16;

pub const FIELDS_END: usize = TARGET + 4 * TARGET_WORDS;

pub const UNUSED: usize = SUMMED - FIELDS_END;

// The largest size that is stored.
pub const LARGEST_SIZE: u32 = 4294967295;
