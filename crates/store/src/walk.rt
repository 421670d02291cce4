// The walk over a diagram that builds its function in a store: nodes are numbered on the way back, low branch first. The
// memo has, for each node of the diagram, the successor of its pointer in the store, or 0. It may stand anywhere outside the store.
ghost use Rattle.store.specs.Room.{Walking, Walked};

use crate::shelf::{Made, join};
use diagram::node::{BddPointer, high_link_of, low_link_of, var_of, word};
use diagram::room::put;

// Builds the function that a node stands for. The variables left fall at each call, and the memo has each node walked once.
// The first node that finds no place ends it.
pub fn build(
    words: &[u32],
    room: &mut [u32],
    memo: usize,
    base: usize,
    capacity: usize,
    count: usize,
    node: BddPointer,
) -> Made
    requires { Walking words.now memo base capacity room.old count node.0 }
    ensures { Walked words.now memo base capacity room.old count node.0 room.new result.pointer.0 result.count }
{
    if node.is_terminal() {
        return Made {
            pointer: node,
            count,
        };
    }
    let at = memo + node.to_index();
    let known = word(room, at);
    if known != 0 {
        return Made {
            pointer: BddPointer(known - 1),
            count,
        };
    }
    let low_link = low_link_of(words, node);
    let high_link = high_link_of(words, node);
    let low = build(words, room, memo, base, capacity, count, low_link);
    if capacity < low.count {
        return low;
    }
    let high = build(words, room, memo, base, capacity, low.count, high_link);
    if capacity < high.count {
        return high;
    }
    let var = var_of(words, node);
    let made = join(
        room,
        base,
        capacity,
        high.count,
        var,
        low.pointer,
        high.pointer,
    );
    put(room, at, made.pointer.0 + 1);
    made
}
