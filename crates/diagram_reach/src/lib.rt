// Which nodes the root reaches, on any graph of links that are in range: a walk with a stack in the working room, since
// before order is known links may go round in circles and a path may be as long as the array.
// The marks of the n nodes stand at [0, n) of the room and the stack at [n, 2n).
#![tactic(auto)]

ghost use Rattle.std.specs.Prelude.{◌≡◌, ◌+◌, ◌-◌, ◌*◌, ◌<◌, ◌≤◌, length, get_or, eqb};
ghost use Rattle.diagram.specs.Limits.{max_nodes};
ghost use Rattle.diagram.specs.Diagram.{size, Formed};
ghost use Rattle.diagram.specs.Verdict.{first, first_node, is_above_low, is_above, is_broken};
ghost use Rattle.diagram.specs.Refusal.{number_of};
ghost use Rattle.diagram.specs.Faults.{order_number};
ghost use Rattle.diagram.specs.Marking.{pushed, pushed_top, Working, Onward, Marks};

use diagram::node::{BddPointer, high_link_of, low_link_of, var_of, word};
use diagram::refusal::Refusal;
use diagram::room::{clear, most, put};

// Marks a node and puts it on the stack, unless it has its mark.
fn push(room: &mut [u32], nodes: usize, top: usize, node: BddPointer) -> usize
    requires { (nodes ≤ max_nodes) × (top ≤ max_nodes) }
    ensures { (result ≡ pushed_top room.old top node.0) × (room.new ≡ pushed nodes room.old top node.0) }
{
    let at = node.0 as usize;
    if word(room, at) == 0 {
        put(room, at, 1);
        put(room, nodes + top, node.0);
        top + 1
    } else {
        top
    }
}

// Takes the top of the stack off, at `below`, and marks the children of what stood there.
fn visit(words: &[u32], room: &mut [u32], nodes: usize, below: usize) -> usize
    requires { (nodes ≡ size words.now) × Formed words.now × Working words.now 0 room.old (below + 1) }
    ensures { Working words.now 0 room.new result × Onward words.now 1 room.old (below + 1) room.new result }
{
    let node = BddPointer(word(room, nodes + below));
    if node.is_terminal() {
        return below;
    }
    let low = low_link_of(words, node);
    let top = push(room, nodes, below, low);
    let high = high_link_of(words, node);
    push(room, nodes, top, high)
}

// Marks exactly the nodes that the root reaches.
pub fn mark(words: &[u32], room: &mut [u32], nodes: usize)
    requires { (nodes ≡ size words.now) × Formed words.now × (2 * nodes ≤ length room.old) }
    ensures { Marks words.now room.new }
{
    clear(room, nodes);
    let mut top = push(room, nodes, 0, BddPointer((nodes - 1) as u32));
    while 0 < top {
        top = visit(words, room, nodes, top - 1);
    }
}

// Whether both children of a node stand at a larger variable.
pub fn is_above(words: &[u32], node: BddPointer) -> bool
    ensures { result ≡ is_above words.now node.0 }
{
    let var = var_of(words, node);
    let low = var_of(words, low_link_of(words, node));
    if var.is_before(low) {
        let high = var_of(words, high_link_of(words, node));
        return var.is_before(high);
    }
    false
}

// Which of 11 and 17 a node gets that has a child not at a larger variable: its low child comes first.
pub fn broken_order(words: &[u32], node: BddPointer) -> Refusal
    ensures { number_of result ≡ order_number (is_above_low words.now node.0) }
{
    let var = var_of(words, node);
    let low = var_of(words, low_link_of(words, node));
    if var.is_before(low) {
        return Refusal::BrokenHighOrder;
    }
    Refusal::BrokenLowOrder
}

// Whether a node is reached and has a child that is not at a larger variable.
fn is_broken(words: &[u32], room: &[u32], node: usize) -> bool
    requires { (node < size words.now) × (size words.now ≤ max_nodes) × Marks words.now room.now }
    ensures { result ≡ is_broken words.now node }
{
    if word(room, node) == 0 {
        return false;
    }
    !is_above(words, BddPointer(node as u32))
}

// The smallest reachable node with a child that is not at a larger variable; past the nodes where there is none.
pub fn first_broken(words: &[u32], room: &[u32], nodes: usize) -> usize
    requires { (nodes ≡ size words.now) × (nodes ≤ max_nodes) × Marks words.now room.now }
    ensures { result ≡ first_node words.now (is_broken words.now) }
{
    for node in 2..nodes {
        if is_broken(words, room, node) {
            return node;
        }
    }
    most(nodes)
}

// The smallest non-terminal without a mark; past the nodes where there is none.
pub fn first_lost(room: &[u32], nodes: usize) -> usize
    ensures { result ≡ first (λ p. eqb (get_or room.now p 0) 0) 2 (nodes - 2) }
{
    for p in 2..nodes {
        if word(room, p) == 0 {
            return p;
        }
    }
    most(nodes)
}
