// What is left at a node, and whether it has changed since the last count: marks from 0 on in words of their own.
ghost use Rattle.std.specs.Prelude.{◌≡◌, ◌||◌, ℕ, ◌≤◌, set};
ghost use Rattle.naturals.specs.Natural.{Holds};
ghost use Rattle.diagram.specs.Diagram.{low_of, high_of};
ghost use Rattle.diagram.specs.Limits.{max_nodes};
ghost use Rattle.counts.specs.Table.{In, Noted};
ghost use Rattle.cuts.specs.Marks.{marked_in};
ghost use Rattle.room_map.specs.Map.{counts_from};

use counts::table::note;
use cuts::marks::{is_marked, mark};
use diagram::node::{BddPointer, high_link_of, low_link_of};
use naturals::Natural;
use room_map::COUNTS;

// So much is left at a node now.
pub fn change(changed: &mut [u32], room: &mut [u32], nodes: usize, node: BddPointer, count: Natural)
    requires { (nodes ≤ max_nodes) × In (counts_from nodes) room.old node.0 }
    ensures { (changed.new ≡ set changed.old node.0 1) × ((x : ℕ) → Holds x count.words → Noted (counts_from nodes) room.old node.0 x room.new) }
{
    mark(changed, 0, node);
    note(room, COUNTS * nodes, node, count);
}

// Whether one of a node's children has changed.
pub(crate) fn is_above_change(words: &[u32], changed: &[u32], node: BddPointer) -> bool
    ensures { result ≡ (marked_in 0 changed.now (low_of words.now node.0) || marked_in 0 changed.now (high_of words.now node.0)) }
{
    if is_marked(changed, 0, low_link_of(words, node)) {
        return true;
    }
    is_marked(changed, 0, high_link_of(words, node))
}
