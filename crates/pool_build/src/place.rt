// A condition put among those of a pool.
ghost use Rattle.std.specs.Prelude.{◌≡◌, ◌<◌, set};
ghost use Rattle.diagram.specs.Diagram.{vars as varsOf, holds, Ordered};
ghost use Rattle.pool.specs.Pool.{slot_count, live, held};
ghost use Rattle.pool.specs.Answers.{with_added};
ghost use Rattle.pool_build.specs.Work.{Adding, AddedTo, Begun, Composed, Replaced, Puts, Blank};

use crate::gather::{DIAGRAM_MEMO, STORE, WORK, gather, hand_back, walked};
use diagram::node::{BddPointer, word};
use diagram::room::put;
use pool::SLOTS;
use reduction::answer::copy;
use store::shelf::start;
use store::walk::build;

// Builds the diagram's condition and notes its root for the slot, unless the store is full.
fn build_diagram(
    table: &[u32],
    words: &[u32],
    names: &mut [u32],
    work: &mut [u32],
    capacity: usize,
    count: usize,
    slot: usize,
) -> usize
    requires { Adding table.now capacity count work.old words.now }
    ensures { AddedTo table.now capacity count slot names.old work.old words.now names.new work.new result }
{
    let root = BddPointer((words.len() / 3 - 1) as u32);
    let made = build(words, work, DIAGRAM_MEMO, STORE, capacity, count, root);
    put(names, slot, made.pointer.0 + 1);
    made.count
}

// The conditions before the slot, the new one, and those behind it.
fn compose(
    table: &[u32],
    words: &[u32],
    names: &mut [u32],
    work: &mut [u32],
    capacity: usize,
    slot: usize,
) -> usize
    requires { Begun table.now capacity names.old work.old × (slot < slot_count) × Ordered words.now × (varsOf words.now ≡ varsOf table.now) }
    ensures { Composed table.now (set (held table.now names.old) slot (live (holds words.now))) capacity names.new work.new result }
{
    start(work, STORE, capacity, word(table, 0));
    let before = gather(table, names, work, capacity, 2, 0, slot);
    if capacity < before {
        return before;
    }
    let with = build_diagram(table, words, names, work, capacity, before, slot);
    if capacity < with {
        return with;
    }
    gather(table, names, work, capacity, with, slot + 1, SLOTS)
}

fn place_in(
    table: &mut [u32],
    slots: &mut [u32],
    words: &[u32],
    slot: usize,
    names: &mut [u32],
    work: &mut [u32],
) -> usize
    requires { Puts table.old slots.old words.now slot × Blank names.old work.old }
    ensures { Replaced table.old slots.old (with_added table.old slots.old words.now slot) table.new slots.new result }
{
    let capacity = table.len() / 3;
    let part = walked(table);
    copy(slots, 0, names, SLOTS);
    let count = compose(&table[..part], words, names, work, capacity, slot);
    if capacity < count {
        return count;
    }
    hand_back(work, names, table, slots, count);
    count
}

// The number of nodes in use afterwards, or one more than there are places: then nothing is changed.
pub fn place(table: &mut [u32], slots: &mut [u32], words: &[u32], slot: usize) -> usize
    requires { Puts table.old slots.old words.now slot }
    ensures { Replaced table.old slots.old (with_added table.old slots.old words.now slot) table.new slots.new result }
{
    let mut names = [0u32; SLOTS];
    let mut work = [0u32; WORK];
    place_in(table, slots, words, slot, &mut names, &mut work)
}
