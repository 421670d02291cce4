// The counts of a diagram turned to those of its negation, which has the same nodes at the same variables: so the chains stay,
// and at each node all valuations of the variables from its own on are shared out between the two.
ghost use Rattle.counts.specs.Table.{Noted};
ghost use Rattle.room_map.specs.Map.{counts_from};
ghost use Rattle.recounts.specs.Kept.{opposite, Opposing, Turnable, Turned};

use counts::links::place;
use diagram::node::{BddPointer, var_of};
use in_place_more::difference::subtract_from_power;
use room_map::COUNTS;

fn turn_node(words: &[u32], room: &mut [u32], nodes: usize, vars: u32, node: BddPointer)
    requires { Opposing words.now room.old nodes vars node.0 }
    ensures { Noted (counts_from nodes) room.old node.0 (opposite words.now room.old nodes vars node.0) room.new }
{
    let variable = var_of(words, node);
    subtract_from_power(room, place(COUNTS * nodes, node), vars - variable.0);
}

// All non-terminals. The terminals' counts are those of the negation already.
pub fn turn(words: &[u32], room: &mut [u32], nodes: usize, vars: u32)
    requires { Turnable words.now room.old nodes vars }
    ensures { Turned words.now room.old room.new nodes }
{
    for p in 2..nodes {
        turn_node(words, room, nodes, vars, BddPointer(p as u32));
    }
}
