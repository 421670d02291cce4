// Reading a condition: refusals 46, 33, 34, 5 and 4.
ghost use Rattle.pool.specs.Answers.{Reads};

use crate::slot::live;
use diagram::limits::ROOM_PER_NODE;
use diagram::node::{BddPointer, word};
use diagram::refusal::Refusal;
use diagram::verdict::{Extent, Refused, Verdict};
use pool_build::fetch::fetch;

pub fn read(
    table: &[u32],
    slots: &[u32],
    slot: usize,
    room: &mut [u32],
    output: &mut [u32],
) -> Verdict
    ensures { Reads table.now slots.now slot room.old room.new output.old output.new result }
{
    let Extent { nodes, vars } = live(table, slots, slot)?;
    let all = ROOM_PER_NODE * nodes;
    if room.len() < all {
        return Err(Refused {
            reason: Refusal::ShortRoom,
            place: 0,
        });
    }
    let root = BddPointer(word(slots, slot) - 1);
    fetch(table, &mut room[..all], output, nodes, root, vars)
}
