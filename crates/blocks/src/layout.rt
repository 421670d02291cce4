// The numbers of the block file, each once. The definitions have the same in specs/Block.antt.

// How many numbers a byte can be, and two bytes.
pub const BYTE_SPAN: u32 = 256;

pub const PAIR_SPAN: u32 = BYTE_SPAN * BYTE_SPAN;

// Bytes of a block.
pub const BLOCK: usize = 512;

// Bytes that the sums are over: all but their own four.
pub const SUMMED: usize = BLOCK - 4;

// Where the places for nodes begin, where they end, with the four bytes of the file's nodes after them, and the bytes of one.
pub const PLACES: usize = 4;

pub const PLACES_END: usize = SUMMED - 4;

pub const PLACE: usize = 10;

// Nodes of a full block, and its words.
pub const NODES: usize = 50;

pub const WORDS: usize = 3 * NODES;

// The most nodes of a file, their words, and the bytes of their blocks.
pub const MOST: usize = 120;

pub const FILE_WORDS: usize = 3 * MOST;

pub const FILE: usize = BLOCK * ((MOST + (NODES - 1)) / NODES);
