// The worths of all nodes, from the last variable to the first: a node's children stand at larger variables, so theirs are noted
// before, wherever they stand in the array. The room has the chains' links, and behind them the table of the worths.
ghost use Rattle.std.specs.Prelude.{◌≡◌, ◌+◌, ◌*◌, ◌≤◌, length, replicate};
ghost use Rattle.naturals.specs.Natural.{word_count};
ghost use Rattle.diagram.specs.Diagram.{var_of, vars as varsOf};
ghost use Rattle.levels.specs.Chains.{chain_count, Heads, Given, Linked};
ghost use Rattle.counts.specs.Worth.{Joining, Descending, Worths};

use counts::links::note_sum;
use counts::table::note;
use diagram::node::{BddPointer, BddVariable};
use levels::{head_of, link, next_of};
use naturals::{Natural, zero};

// One node, whose children's worths are noted.
fn join(words: &[u32], room: &mut [u32], nodes: usize, node: BddPointer, valuations: bool)
    requires { Joining valuations words.now room.old nodes node.0 }
    ensures { Worths valuations words.now room.new (var_of words.now node.0) node.0 }
{
    note_sum(words, room, nodes, node, valuations);
}

// The nodes of one variable.
fn level(
    words: &[u32],
    heads: &[u32],
    room: &mut [u32],
    nodes: usize,
    variable: u32,
    valuations: bool,
)
    requires { Descending valuations words.now heads.now room.old nodes variable }
    ensures { Worths valuations words.now room.new variable 0 }
{
    let mut node = head_of(heads, BddVariable(variable));
    while node.0 != 0 {
        join(words, room, nodes, node, valuations);
        node = next_of(room, node);
    }
}

// The terminals' worths: none goes on from node 0, and from node 1 the one that is at its end.
fn terminals(words: &[u32], heads: &[u32], room: &mut [u32], nodes: usize, valuations: bool)
    requires { Given words.now nodes × Linked words.now heads.now room.old nodes × (nodes + word_count * nodes ≤ length room.old) }
    ensures { Worths valuations words.now room.new (varsOf words.now) 0 }
{
    note(room, nodes, BddPointer(0), zero());
    note(room, nodes, BddPointer(1), Natural::from(1));
}

// The worths of all nodes, by chains that are made already.
fn count_down(
    words: &[u32],
    heads: &[u32],
    room: &mut [u32],
    nodes: usize,
    vars: u32,
    valuations: bool,
)
    requires { Given words.now nodes × Linked words.now heads.now room.old nodes × (nodes + word_count * nodes ≤ length room.old) × (vars ≡ varsOf words.now) }
    ensures { Worths valuations words.now room.new 0 0 }
{
    terminals(words, heads, room, nodes, valuations);
    for c in (0..vars).rev() {
        level(words, heads, room, nodes, c, valuations);
    }
}

// The chains, and the worths of all nodes by them. `heads` is zero before.
pub(crate) fn link_and_count(
    words: &[u32],
    heads: &mut [u32],
    room: &mut [u32],
    nodes: usize,
    vars: u32,
    valuations: bool,
)
    requires { Given words.now nodes × (vars ≡ varsOf words.now) × (heads.old ≡ replicate chain_count 0) × (nodes + word_count * nodes ≤ length room.old) }
    ensures { Heads words.now heads.new × Worths valuations words.now room.new 0 0 }
{
    link(words, heads, room, nodes);
    count_down(words, heads, room, nodes, vars, valuations);
}
