// The cut by the first priorities.
ghost use Rattle.std.specs.Prelude.{◌≤◌, take};
ghost use Rattle.cuts.specs.Marks.{Marked};
ghost use Rattle.trials.specs.Trials.{Trying, Tried};
ghost use Rattle.trials.specs.First.{Unmarkable, Unmarked, FirstMarkable, Limited, TriedWithin};

use cuts::cut::cut;
use cuts::marks::mark;
use diagram::node::{BddPointer, word};
use diagram::room::clear;

// No node is marked.
pub fn unmark(room: &mut [u32], nodes: usize)
    requires { Unmarkable room.old nodes }
    ensures { Unmarked nodes room.old room.new }
{
    clear(&mut room[nodes..2 * nodes], nodes);
}

// The first `count` nodes by priority are marked.
fn mark_first(room: &mut [u32], nodes: usize, count: usize)
    requires { FirstMarkable room.old nodes count }
    ensures { Marked (take count room.old) nodes room.old room.new }
{
    for i in 0..count {
        mark(room, nodes, BddPointer(word(room, i)));
    }
}

// The cut by the first `count` priorities with at most `limit` nodes, and its number of nodes: one more than the limit where it
// has more.
pub fn cut_first_within(
    words: &[u32],
    sent: &mut [u32],
    room: &mut [u32],
    limit: usize,
    count: usize,
    nodes: usize,
    vars: u32,
) -> usize
    requires { Limited words.now sent.old room.old limit count nodes vars }
    ensures { TriedWithin words.now limit count room.old room.new result }
{
    unmark(room, nodes);
    mark_first(room, nodes, count);
    cut(words, sent, room, limit, BddPointer(0), nodes, vars)
}

// The cut by the first `count` priorities, whatever its number of nodes: it has no more than the diagram.
pub fn cut_first(
    words: &[u32],
    sent: &mut [u32],
    room: &mut [u32],
    count: usize,
    nodes: usize,
    vars: u32,
) -> usize
    requires { Trying words.now sent.old room.old count nodes vars }
    ensures { Tried words.now count room.old room.new result }
{
    cut_first_within(words, sent, room, nodes, count, nodes, vars)
}
