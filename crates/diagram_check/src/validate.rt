// The check of any words as a diagram: refusals 1 to 12 and 17, in the order of docs/RULES.md.
ghost use Rattle.std.specs.Prelude.{◌≡◌, ◌*◌, ◌≤◌, length, replicate};
ghost use Rattle.diagram.specs.Diagram.{size, vars as varsOf, Formed};
ghost use Rattle.diagram.specs.Verdict.{said, graph_of, contents_of, Checked};
ghost use Rattle.diagram.specs.Marking.{Sized};

use crate::plain::is_plain;
use diagram::limits::ROOM_PER_NODE;
use diagram::node::BddPointer;
use diagram::refusal::Refusal;
use diagram::room::{clear, most};
use diagram::verdict::{Extent, Output, Refused, Verdict};
use diagram_form::lengths::lengths;
use diagram_form::ranges::ranges;
use diagram_form::terminals::terminals;
use diagram_reach::{broken_order, first_broken, first_lost, mark};

// Refusals 11, 17 and 12: what can be said once links can be followed.
fn graph(words: &[u32], room: &mut [u32], nodes: usize, vars: u32) -> Verdict
    requires { (nodes ≡ size words.now) × (vars ≡ varsOf words.now) × Formed words.now × (2 * nodes ≤ length room.old) }
    ensures { said result ≡ graph_of words.now }
{
    if is_plain(words, room, nodes) {
        return Ok(Extent { nodes, vars });
    }
    mark(words, room, nodes);
    let broken = first_broken(words, room, nodes);
    let lost = first_lost(room, nodes);
    if broken < nodes {
        let reason = broken_order(words, BddPointer(broken as u32));
        return Err(Refused {
            reason,
            place: broken,
        });
    }
    // Something is amiss and it is not the order.
    Err(Refused {
        reason: Refusal::Unreachable,
        place: lost,
    })
}

// Refusals 6 to 12 and 17.
fn contents(words: &[u32], room: &mut [u32]) -> Verdict
    requires { Sized words.now room.old }
    ensures { said result ≡ contents_of words.now }
{
    let ended = terminals(words);
    let Ok(_) = ended else {
        return ended;
    };
    let ranged = ranges(words);
    let Ok(Extent { nodes, vars }) = ranged else {
        return ranged;
    };
    graph(words, room, nodes, vars)
}

// The same, and the room is zero afterwards, whatever the search has left in it.
fn inspect(words: &[u32], room: &mut [u32]) -> Verdict
    requires { Sized words.now room.old }
    ensures { (said result ≡ contents_of words.now) × (room.new ≡ replicate (length room.old) 0) }
{
    let verdict = contents(words, room);
    let all = room.len();
    clear(room, all);
    verdict
}

// The check that every operation begins with, for the output that it lends.
pub fn admit(words: &[u32], room: &mut [u32], output: Output) -> Verdict
    ensures { Checked words.now output room.old room.new result }
{
    let measured = lengths(words, room.len(), output);
    let Ok(Extent { nodes, vars: _ }) = measured else {
        return measured;
    };
    let all = ROOM_PER_NODE * most(nodes);
    inspect(words, &mut room[..all])
}

// The check alone: refusals 1 to 3, 5 to 12 and 17.
pub fn validate(words: &[u32], room: &mut [u32]) -> Verdict
    ensures { Checked words.now Output.Nothing room.old room.new result }
{
    admit(words, room, Output::Nothing)
}
