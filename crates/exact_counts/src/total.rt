// The worth of a whole diagram, on which the counts rest, and from which weights and searches go on.
ghost use Rattle.counts.specs.Worth.{Totalling, Totalled};

use crate::down::link_and_count;
use counts::root::root_worth;
use naturals::{Natural, zero};

// The chains and the worths of all nodes stay in the room. One node is false, with none. `heads` is zero before.
pub fn total(
    words: &[u32],
    heads: &mut [u32],
    room: &mut [u32],
    nodes: usize,
    vars: u32,
    valuations: bool,
) -> Natural
    requires { Totalling words.now heads.old room.old nodes vars }
    ensures { Totalled valuations words.now heads.new room.new result.words }
{
    if nodes == 1 {
        return zero();
    }
    link_and_count(words, heads, room, nodes, vars, valuations);
    root_worth(words, room, nodes, nodes, valuations)
}
