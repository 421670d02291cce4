// Whether each node is reached from a live slot. Where variables grow along every link that is so exactly if a slot or a link of another node
// names it: parents stand at ever smaller variables, and so end at a slot. No path has to be followed.
ghost use Rattle.std.specs.Prelude.{◌≡◌, not, ◌&&◌, suc, ◌≤◌, set};
ghost use Rattle.diagram.specs.Limits.{max_nodes};
ghost use Rattle.diagram.specs.Diagram.{low_of, high_of, size};
ghost use Rattle.pool.specs.Pool.{slot_count, is_free, is_wanted, each_node};
ghost use Rattle.pool_check.specs.Marks.{is_bare, Marks, nowhere, is_named, Links};

use crate::nodes::is_free;
use diagram::limits::MAX_NODES;
use diagram::node::{BddPointer, high_link_of, low_link_of, word};
use diagram::room::put;
use pool::SLOTS;

// A mark for each name: a place is named by its successor, and 0 names nothing.
const NAMES: usize = MAX_NODES + 1;

// Marks what the slots name.
fn mark_named(slots: &[u32], marks: &mut [u32])
    requires { Marks nowhere marks.old }
    ensures { Marks (is_named slots.now slot_count) marks.new }
{
    for k in 0..SLOTS {
        let name = word(slots, k);
        put(marks, name as usize, 1);
    }
}

// Marks a place.
fn mark(marks: &mut [u32], place: BddPointer)
    ensures { marks.new ≡ set marks.old (suc place.0) 1 }
{
    put(marks, place.to_index() + 1, 1);
}

fn mark_children(table: &[u32], marks: &mut [u32], node: BddPointer)
    ensures { marks.new ≡ set (set marks.old (suc (low_of table.now node.0)) 1) (suc (high_of table.now node.0)) 1 }
{
    mark(marks, low_link_of(table, node));
    mark(marks, high_link_of(table, node));
}

// Marks what the links after the terminals name.
fn mark_linked(table: &[u32], marks: &mut [u32])
    requires { size table.now ≤ max_nodes }
    ensures { Links table.now marks.old marks.new }
{
    let places = table.len() / 3;
    for p in 2..places {
        mark_children(table, marks, BddPointer(p as u32));
    }
}

// Whether a place is a node that has no mark.
fn is_lost(table: &[u32], marks: &[u32], place: BddPointer) -> bool
    ensures { result ≡ (not (is_free table.now place.0) && is_bare marks.now place.0) }
{
    if word(marks, place.to_index() + 1) != 0 {
        return false;
    }
    !is_free(table, place)
}

// Whether every node has its mark.
fn are_marked(table: &[u32], marks: &[u32]) -> bool
    requires { size table.now ≤ max_nodes }
    ensures { result ≡ each_node table.now (λ p. not (is_bare marks.now p)) }
{
    let places = table.len() / 3;
    for p in 2..places {
        if is_lost(table, marks, BddPointer(p as u32)) {
            return false;
        }
    }
    true
}

fn wanted_in(table: &[u32], slots: &[u32], marks: &mut [u32]) -> bool
    requires { (size table.now ≤ max_nodes) × Marks nowhere marks.old }
    ensures { result ≡ each_node table.now (is_wanted table.now slots.now) }
{
    mark_named(slots, marks);
    mark_linked(table, marks);
    are_marked(table, marks)
}

pub(crate) fn are_wanted(table: &[u32], slots: &[u32]) -> bool
    requires { size table.now ≤ max_nodes }
    ensures { result ≡ each_node table.now (is_wanted table.now slots.now) }
{
    let mut marks = [0u32; NAMES];
    wanted_in(table, slots, &mut marks)
}
