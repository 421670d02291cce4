// Cutting by a list (document 01, port 8): links to listed nodes are sent to a terminal, and what is left is reduced.
#![tactic(auto)]

mod listing;

ghost use Rattle.std.specs.Prelude.{◌<◌};
ghost use Rattle.diagram.specs.Verdict.{value_in, verdict_in};
ghost use Rattle.list_cuts.specs.Approximates.{Approximates};
ghost use Rattle.list_cuts.specs.Listed.{Listing, Listed};

use cuts::cut::cut;
use cuts::marks::mark_all;
use diagram::limits::MAX_WORDS;
use diagram::node::BddPointer;
use diagram::room::{clear, most};
use diagram::verdict::{Finding, Output, Refused};
use diagram_check::validate::admit;
use listing::listing;
use reduction::answer::copy;
use room_map::{ANSWER, TABLES_END};

// Cuts an accepted diagram by a list that is accepted too, in a room that is zero, and gives the number of nodes.
fn approximate(
    words: &[u32],
    list: &[u32],
    target: BddPointer,
    room: &mut [u32],
    output: &mut [u32],
    nodes: usize,
    vars: u32,
) -> usize
    requires { Listing words.now list.now target.0 room.old output.old nodes vars }
    ensures { Listed words.now list.now target.0 room.old room.new output.old output.new result }
{
    let most = most(nodes);
    let mut sent = [0u32; MAX_WORDS];
    mark_all(list, room, most);
    let count = cut(words, &mut sent, room, most, target, nodes, vars);
    copy(room, ANSWER * most, output, 3 * count);
    clear(room, TABLES_END * most);
    count
}

// How many nodes stand in the output, where neither the words nor the list are refused.
fn approximate_by(
    words: &[u32],
    list: &[u32],
    target: BddPointer,
    room: &mut [u32],
    output: &mut [u32],
) -> Result<Finding<usize>, Refused>
    requires { target.0 < 2 }
    ensures { Approximates words.now list.now target.0 room.old room.new output.old output.new (verdict_in result) (value_in 0 result) }
{
    let extent = admit(words, room, Output::Diagram(output.len()))?;
    listing(list, extent.nodes, extent.vars)?;
    let value = approximate(words, list, target, room, output, extent.nodes, extent.vars);
    Ok(Finding { extent, value })
}

// Valuations whose path meets a listed node no longer hold; all others are as they were.
pub fn underapproximate(
    words: &[u32],
    list: &[u32],
    room: &mut [u32],
    output: &mut [u32],
) -> Result<Finding<usize>, Refused>
    ensures { Approximates words.now list.now 0 room.old room.new output.old output.new (verdict_in result) (value_in 0 result) }
{
    approximate_by(words, list, BddPointer(0), room, output)
}

// Valuations whose path meets a listed node now hold; all others are as they were.
pub fn overapproximate(
    words: &[u32],
    list: &[u32],
    room: &mut [u32],
    output: &mut [u32],
) -> Result<Finding<usize>, Refused>
    ensures { Approximates words.now list.now 1 room.old room.new output.old output.new (verdict_in result) (value_in 0 result) }
{
    approximate_by(words, list, BddPointer(1), room, output)
}
