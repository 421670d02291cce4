// Marks of nodes, in the working room: for a diagram of which m is the larger of its number of nodes and 2, the words from m
// to 2m, zero where a node is not marked.
ghost use Rattle.std.specs.Prelude.{◌≡◌, ◌+◌, ◌*◌, ◌≤◌, length, set};
ghost use Rattle.diagram.specs.Limits.{max_nodes};
ghost use Rattle.cuts.specs.Marks.{marked_in, Markable, Marked};

use diagram::node::{BddPointer, word};
use diagram::room::put;

pub fn is_marked(room: &[u32], most: usize, node: BddPointer) -> bool
    requires { most ≤ max_nodes }
    ensures { result ≡ marked_in most room.now node.0 }
{
    word(room, most + node.to_index()) != 0
}

pub fn mark(room: &mut [u32], most: usize, node: BddPointer)
    requires { most ≤ max_nodes }
    ensures { room.new ≡ set room.old (most + node.0) 1 }
{
    put(room, most + node.to_index(), 1);
}

// Marks every node in a list.
pub fn mark_all(list: &[u32], room: &mut [u32], most: usize)
    requires { Markable list.now room.old most }
    ensures { Marked list.now most room.old room.new }
{
    for pointer in list {
        mark(room, most, BddPointer(*pointer));
    }
}
