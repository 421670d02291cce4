// The count of a cut, kept while more and more nodes are taken away (document 01, "The evening's cut": a count after each walk).
// Taking a node away changes what is left at the nodes above it only; so a count works out those again whose children have
// changed, and reads the others where they stand. What was counted of a diagram can be turned to its negation.
#![tactic(auto)]

pub mod changes;
mod renewal;
pub mod turning;

ghost use Rattle.recounts.specs.Kept.{Recounting, Recounted};

use counts::root::root_worth;
use diagram::room::clear;
use naturals::Natural;
use renewal::renew_all;
use room_map::COUNTS;

// The count of the cut by the marks. The cut is not built.
pub fn recount(
    words: &[u32],
    heads: &[u32],
    changed: &mut [u32],
    room: &mut [u32],
    nodes: usize,
    vars: u32,
) -> Natural
    requires { Recounting words.now heads.now changed.old room.old nodes vars }
    ensures { Recounted words.now heads.now room.old changed.new room.new nodes result.words }
{
    renew_all(words, heads, changed, room, nodes, vars);
    clear(changed, nodes);
    root_worth(words, room, COUNTS * nodes, nodes, true)
}
