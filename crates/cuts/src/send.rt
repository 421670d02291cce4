// A copy of a diagram's words in which the links to marked nodes go to a terminal.
ghost use Rattle.std.specs.Prelude.{◌≡◌, ◌+◌, ◌*◌, ◌≤◌, length, set};
ghost use Rattle.diagram.specs.Limits.{max_nodes};
ghost use Rattle.cuts.specs.Marks.{marked_in, link_from, node_at, Sending, Sent};

use crate::marks::is_marked;
use diagram::node::{BddPointer, BddVariable, high_link_of, low_link_of, var_of};
use diagram::room::put;

// Where a node's link goes; a terminal's stays.
fn sent_link(
    room: &[u32],
    most: usize,
    target: BddPointer,
    node: BddPointer,
    link: BddPointer,
) -> BddPointer
    requires { most ≤ max_nodes }
    ensures { result.0 ≡ link_from (marked_in most room.now) target.0 node.0 link.0 }
{
    if node.is_terminal() {
        return link;
    }
    if is_marked(room, most, link) {
        return target;
    }
    link
}

// Writes a node's three words.
fn put_node(sent: &mut [u32], node: BddPointer, var: BddVariable, low: BddPointer, high: BddPointer)
    ensures { sent.new ≡ node_at sent.old node.0 var.0 low.0 high.0 }
{
    let at = 3 * node.to_index();
    put(sent, at, var.0);
    put(sent, at + 1, low.0);
    put(sent, at + 2, high.0);
}

// Writes the copy.
pub(crate) fn send(
    words: &[u32],
    room: &[u32],
    most: usize,
    target: BddPointer,
    sent: &mut [u32],
    nodes: usize,
)
    requires { Sending words.now most sent.old nodes }
    ensures { Sent words.now (marked_in most room.now) target.0 sent.old sent.new }
{
    for p in 0..nodes {
        let node = BddPointer(p as u32);
        let low = sent_link(room, most, target, node, low_link_of(words, node));
        let high = sent_link(room, most, target, node, high_link_of(words, node));
        put_node(sent, node, var_of(words, node), low, high);
    }
}
