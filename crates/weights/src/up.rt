// The second pass, from the first variable to the last: a node has received the valuations of earlier variables that lead to
// it, passes them on to its children, and its weight is their number times what goes on from it. What a node has received
// stands in a table behind the counts, until its weight takes the place. What a node at variable c has received is at most 2 ^ c, and
// what goes on from it at most 2 to the number of the variables that are left: so many words are gone over, and no more.
ghost use Rattle.std.specs.Prelude.{◌+◌, ◌*◌, ◌≤◌, suc, length};
ghost use Rattle.naturals.specs.Natural.{word_count};
ghost use Rattle.diagram.specs.Limits.{max_nodes};
ghost use Rattle.diagram.specs.Diagram.{var_of, size};
ghost use Rattle.counts.specs.Table.{num, Noted, scaled as scaledBy};
ghost use Rattle.weights.specs.Passes.{Counted, Emptied, Passing, Giving, Taking, Turning, Ascending, Rising};

use counts::links::{place, skipped};
use counts::table::note;
use diagram::node::{BddPointer, BddVariable, high_link_of, low_link_of, var_of};
use in_place::sum::{Shifted, add_shifted, words_for};
use in_place::words::blank;
use in_place_more::product::multiply_at;
use levels::{head_of, next_of};
use naturals::power_of_two;

// A child receives what its parent has, doubled for each variable that the link skips.
fn give(words: &[u32], room: &mut [u32], base: usize, node: BddPointer, child: BddPointer)
    requires { Giving words.now base room.old node.0 child.0 }
    ensures { Noted base room.old child.0 (num base room.old child.0 + scaledBy words.now node.0 child.0 (num base room.old node.0)) room.new }
{
    let to = place(base, child);
    let had = Shifted { at: to, bits: 0 };
    let share = Shifted {
        at: place(base, node),
        bits: skipped(words, node, child),
    };
    let there = var_of(words, child);
    add_shifted(room, to, had, share, words_for(there.0));
}

// What a node has received, times what goes on from it, takes the place of what it has received.
fn weigh_node(words: &[u32], room: &mut [u32], nodes: usize, base: usize, node: BddPointer)
    requires { Taking words.now base room.old nodes node.0 }
    ensures { Noted base room.old node.0 (num base room.old node.0 * num nodes room.old node.0) room.new }
{
    let here = var_of(words, node);
    let all = var_of(words, BddPointer(0));
    multiply_at(
        room,
        place(base, node),
        words_for(here.0),
        place(nodes, node),
        words_for(all.0 - here.0),
    );
}

// One node: what its children receive, and its weight.
fn pass_on(words: &[u32], room: &mut [u32], nodes: usize, base: usize, node: BddPointer)
    requires { Turning words.now base room.old nodes node.0 }
    ensures { Passing words.now base room.new (var_of words.now node.0) node.0 }
{
    let low = low_link_of(words, node);
    let high = high_link_of(words, node);
    give(words, room, base, node, low);
    give(words, room, base, node, high);
    weigh_node(words, room, nodes, base, node);
}

// The nodes of one variable.
fn level(words: &[u32], heads: &[u32], room: &mut [u32], nodes: usize, base: usize, variable: u32)
    requires { Ascending words.now heads.now base room.old nodes variable }
    ensures { Passing words.now base room.new (suc variable) (size words.now) }
{
    let mut node = head_of(heads, BddVariable(variable));
    while node.0 != 0 {
        pass_on(words, room, nodes, base, node);
        node = next_of(room, node);
    }
}

// Nobody has received any.
fn empty(room: &mut [u32], nodes: usize, base: usize)
    requires { (nodes ≤ max_nodes) × (base + word_count * nodes ≤ length room.old) }
    ensures { Emptied base room.old nodes room.new }
{
    blank(room, base, naturals::WORDS * nodes);
}

// At first the root alone has received: one for each valuation of the variables before its own.
fn begin(words: &[u32], room: &mut [u32], nodes: usize, base: usize)
    requires { Counted words.now base room.old nodes }
    ensures { Passing words.now base room.new 0 (size words.now) }
{
    empty(room, nodes, base);
    let root = BddPointer((nodes - 1) as u32);
    let above = var_of(words, root);
    let all = power_of_two(above.0).unwrap();
    note(room, base, root, all);
}

// All nodes.
pub(crate) fn pass_all(
    words: &[u32],
    heads: &[u32],
    room: &mut [u32],
    nodes: usize,
    base: usize,
    vars: u32,
)
    requires { Rising words.now heads.now base room.old nodes vars }
    ensures { Passing words.now base room.new vars (size words.now) }
{
    begin(words, room, nodes, base);
    for c in 0..vars {
        level(words, heads, room, nodes, base, c);
    }
}
