// The reduced diagram of an ordered array: built in the working room, and for `reduce` copied to the output and cleared away.
// For m the larger of the number of nodes and 2, the memo stands in the room's first words, and the store from m on.
ghost use Rattle.std.specs.Prelude.{◌≡◌, ◌+◌, ◌*◌, ◌≤◌, max, length};
ghost use Rattle.diagram.specs.Limits.{max_nodes};
ghost use Rattle.diagram.specs.Diagram.{size};
ghost use Rattle.reduction.specs.Room.{Copied, Asked, Shelved, Lent, Answered};

use diagram::node::BddPointer;
use diagram::room::{clear, most};
use store::shelf::{END, start};
use store::walk::build;

const MEMO: usize = 0;

// Copies `count` words of the room, from a place on, to the output. A loop: `copy_from_slice` of a length that is not known is a call of
// memmove, which the archive for C would then need from outside.
pub fn copy(room: &[u32], from: usize, output: &mut [u32], count: usize)
    requires { (from + count ≤ length room.now) × (count ≤ length output.old) }
    ensures { Copied room.now from output.old output.new count }
{
    for i in 0..count {
        output[i] = room[from + i];
    }
}

// Builds the reduced diagram of an ordered array with at most `limit` nodes, and gives its number of nodes: one more than the
// limit where it has more. Its words stand behind the memo. Only memo and keys have to be zero before.
pub fn make(words: &[u32], room: &mut [u32], limit: usize, nodes: usize, vars: u32) -> usize
    requires { Asked words.now room.old limit nodes vars }
    ensures { Shelved words.now room.old room.new limit result }
{
    let base = most(nodes);
    start(room, base, limit, vars);
    let root = BddPointer((nodes - 1) as u32);
    let made = build(words, room, MEMO, base, limit, 2, root);
    if limit < made.count {
        return limit + 1;
    }
    made.pointer.to_index() + 1
}

// Copies the diagram's answer, of so many nodes, from the room to the output. It stands behind the memo, which has a word
// for each of the diagram's nodes.
fn hand_over(words: &[u32], room: &[u32], output: &mut [u32], count: usize)
    requires { (size words.now ≤ max_nodes) × (max (size words.now) 2 + 3 * count ≤ length room.now) × (3 * count ≤ length output.old) }
    ensures { Copied room.now (max (size words.now) 2) output.old output.new (3 * count) }
{
    let memo = most(words.len() / 3);
    copy(room, memo, output, 3 * count);
}

// Reduces an ordered array in a room that is zero, and gives the number of nodes. It has no more than the array.
pub fn answer(words: &[u32], room: &mut [u32], output: &mut [u32], nodes: usize, vars: u32) -> usize
    requires { Lent words.now room.old output.old nodes vars }
    ensures { Answered words.now room.old output.old room.new output.new result }
{
    let most = most(nodes);
    let count = make(words, room, most, nodes, vars);
    hand_over(words, room, output, count);
    clear(room, most + END * most);
    count
}
