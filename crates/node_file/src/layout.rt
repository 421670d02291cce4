// The numbers of the node file, each once. The definitions have the same in specs/NodeFile.antt.
use blocks::layout::PLACE;
use diagram::limits::MAX_NODES;

// The bytes of the most nodes.
pub const NODE_FILE: usize = PLACE * MAX_NODES;

// So many bytes of an input tell what all of it would: with one node more than there may be it is refused, whatever follows.
pub const NODE_INPUT: usize = NODE_FILE + PLACE;
