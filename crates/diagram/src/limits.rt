// The numbers of document 01, each once; the words of a count are naturals::WORDS. The definitions have the same in specs/Limits.antt.

// The most nodes of a diagram.
pub const MAX_NODES: usize = 4096;

// And so the most words, three for each node.
pub const MAX_WORDS: usize = 3 * MAX_NODES;

// The most variables.
pub const MAX_VARIABLES: usize = 511;

// Words of working room for each node.
pub const ROOM_PER_NODE: usize = 128;
