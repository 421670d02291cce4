// The quick way to an acceptance. Where variables grow along every link, a node other than the root is reached exactly if
// its parents are, so it is enough that each has one: no path has to be followed, and links are read in the order in
// which they stand. Every accepted array is such; where something is amiss, the search of diagram_reach says what.
ghost use Rattle.std.specs.Prelude.{◌≡◌, true, false, ◌≤◌, ◌<◌, length, set};
ghost use Rattle.diagram.specs.Diagram.{low_of, high_of, size, vars, Formed, Accepted};
ghost use Rattle.diagram.specs.Verdict.{accepted, is_above, graph_of};
ghost use Rattle.diagram.specs.Marking.{Linked};

use diagram::node::{BddPointer, high_link_of, low_link_of};
use diagram::room::{clear, most, put};
use diagram_reach::{first_lost, is_above};

// Marks both children of a node.
fn mark_children(words: &[u32], room: &mut [u32], node: BddPointer)
    ensures { room.new ≡ set (set room.old (low_of words.now node.0) 1) (high_of words.now node.0) 1 }
{
    let low = low_link_of(words, node);
    put(room, low.to_index(), 1);
    let high = high_link_of(words, node);
    put(room, high.to_index(), 1);
}

// Marks the children of every non-terminal before the first that has one not at a larger variable; where that one is.
fn mark_all_children(words: &[u32], room: &mut [u32], nodes: usize) -> usize
    requires { (nodes ≡ size words.now) × Formed words.now × (nodes ≤ length room.old) }
    ensures { Linked words.now room.new result × (result < size words.now → is_above words.now result ≡ false) }
{
    clear(room, nodes);
    for node in 2..nodes {
        let at = BddPointer(node as u32);
        if !is_above(words, at) {
            return node;
        }
        mark_children(words, room, at);
    }
    most(nodes)
}

// Whether variables grow along every link and each node but the root has a parent: exactly then nothing is amiss.
pub(crate) fn is_plain(words: &[u32], room: &mut [u32], nodes: usize) -> bool
    requires { (nodes ≡ size words.now) × Formed words.now × (nodes ≤ length room.old) }
    ensures { (result ≡ true → graph_of words.now ≡ accepted (size words.now) (vars words.now)) × (result ≡ false → Accepted words.now → ⊥) }
{
    if mark_all_children(words, room, nodes) < nodes {
        return false;
    }
    nodes - 1 <= first_lost(room, nodes)
}
