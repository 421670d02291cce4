// What is left at all nodes, worked out again from the last variable to the first where a child has changed.
ghost use Rattle.diagram.specs.Diagram.{var_of};
ghost use Rattle.recounts.specs.Kept.{Joining, Turning, Levelling, Passing, Renewed};

use crate::changes::is_above_change;
use counts::links::note_sum;
use cuts::marks::{is_marked, mark};
use diagram::node::{BddPointer, BddVariable, word};
use levels::head_of;
use room_map::{COUNTS, LINKS};

// A node that is not taken, from its children.
fn join(words: &[u32], changed: &mut [u32], room: &mut [u32], nodes: usize, node: BddPointer)
    requires { Joining words.now changed.old room.old nodes node.0 }
    ensures { Renewed words.now room.old changed.new room.new (var_of words.now node.0) node.0 }
{
    mark(changed, 0, node);
    note_sum(words, room, COUNTS * nodes, node, true);
}

// One node: where no child has changed, and where it is taken, it stays.
fn renew(words: &[u32], changed: &mut [u32], room: &mut [u32], nodes: usize, node: BddPointer)
    requires { Turning words.now changed.old room.old nodes node.0 }
    ensures { Renewed words.now room.old changed.new room.new (var_of words.now node.0) node.0 }
{
    if !is_above_change(words, changed, node) {
        return;
    }
    if is_marked(room, nodes, node) {
        return;
    }
    join(words, changed, room, nodes, node);
}

// The nodes of one variable.
fn level(
    words: &[u32],
    heads: &[u32],
    changed: &mut [u32],
    room: &mut [u32],
    nodes: usize,
    variable: u32,
)
    requires { Levelling words.now heads.now changed.old room.old nodes variable }
    ensures { Renewed words.now room.old changed.new room.new variable 0 }
{
    let mut node = head_of(heads, BddVariable(variable));
    while node.0 != 0 {
        renew(words, changed, room, nodes, node);
        node = BddPointer(word(room, LINKS * nodes + node.to_index()));
    }
}

pub(crate) fn renew_all(
    words: &[u32],
    heads: &[u32],
    changed: &mut [u32],
    room: &mut [u32],
    nodes: usize,
    vars: u32,
)
    requires { Passing words.now heads.now changed.old room.old nodes vars }
    ensures { Renewed words.now room.old changed.new room.new 0 0 }
{
    for c in (0..vars).rev() {
        level(words, heads, changed, room, nodes, c);
    }
}
