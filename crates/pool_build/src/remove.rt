// A condition taken from those of a pool. What no other slot reaches is not built again, and so its places are free.
ghost use Rattle.pool.specs.Pool.{WellFormed, held};
ghost use Rattle.pool.specs.Answers.{with_dropped};
ghost use Rattle.pool_build.specs.Work.{Begun, Composed, Replaced, Blank};

use crate::gather::{STORE, WORK, gather, hand_back, walked};
use diagram::node::word;
use diagram::room::put;
use pool::SLOTS;
use reduction::answer::copy;
use store::shelf::start;

fn compose_named(table: &[u32], names: &mut [u32], work: &mut [u32], capacity: usize) -> usize
    requires { Begun table.now capacity names.old work.old }
    ensures { Composed table.now (held table.now names.old) capacity names.new work.new result }
{
    start(work, STORE, capacity, word(table, 0));
    gather(table, names, work, capacity, 2, 0, SLOTS)
}

fn remove_in(
    table: &mut [u32],
    slots: &mut [u32],
    slot: usize,
    names: &mut [u32],
    work: &mut [u32],
) -> usize
    requires { WellFormed table.old slots.old × Blank names.old work.old }
    ensures { Replaced table.old slots.old (with_dropped table.old slots.old slot) table.new slots.new result }
{
    let capacity = table.len() / 3;
    let part = walked(table);
    copy(slots, 0, names, SLOTS);
    put(names, slot, 0);
    let count = compose_named(&table[..part], names, work, capacity);
    hand_back(work, names, table, slots, count);
    count
}

// The number of nodes in use afterwards.
pub fn remove(table: &mut [u32], slots: &mut [u32], slot: usize) -> usize
    requires { WellFormed table.old slots.old }
    ensures { Replaced table.old slots.old (with_dropped table.old slots.old slot) table.new slots.new result }
{
    let mut names = [0u32; SLOTS];
    let mut work = [0u32; WORK];
    remove_in(table, slots, slot, &mut names, &mut work)
}
