// The live slots that depend on each variable. One slot after the other is walked from its root, in local words:
//     from 0 on        for each variable the number of the last slot that was seen to depend on it
//     from MARKS on    for each place the number of the last slot that was walked through it
// A slot's number is one more than its place among the slots, so that nothing has to be cleared between two slots.
ghost use Rattle.std.specs.Prelude.{◌<◌, ◌≡◌};
ghost use Rattle.diagram.specs.Limits.{max_variables};
ghost use Rattle.pool.specs.Pool.{slot_count};
ghost use Rattle.summary_count.specs.Counting.{slots_in};
ghost use Rattle.summary_count.specs.Walking.{Stamping, Stamped, with_slot, Noting, Noted, Slotting, Slotted, Working, Worked};

use diagram::limits::{MAX_NODES, MAX_VARIABLES};
use diagram::node::{BddPointer, high_link_of, low_link_of, var_of, word};
use diagram::room::put;
use pool::SLOTS;
use summary::RECORD;

const MARKS: usize = MAX_VARIABLES;

const WORK: usize = MARKS + MAX_NODES;

// Stamps the variables that a way from a node comes to. The variables left fall at each call, and the marks have each node walked once.
fn stamp(table: &[u32], work: &mut [u32], number: u32, node: BddPointer)
    requires { Stamping table.now work.old number node.0 }
    ensures { Stamped table.now work.old number node.0 work.new }
{
    if node.is_terminal() {
        return;
    }
    let mark = MARKS + node.to_index();
    if word(work, mark) == number {
        return;
    }
    stamp(table, work, number, low_link_of(table, node));
    stamp(table, work, number, high_link_of(table, node));
    let var = var_of(table, node);
    put(work, var.0 as usize, number);
    put(work, mark, number);
}

// Adds one to the slots of a variable, if it is stamped.
fn count_if_stamped(work: &[u32], summary: &mut [u32], i: usize, number: u32)
    requires { (i < max_variables) × (slots_in summary.old i < slot_count) }
    ensures { summary.new ≡ with_slot work.now number i summary.old }
{
    if word(work, i) != number {
        return;
    }
    let at = RECORD * i + 1;
    put(summary, at, word(summary, at) + 1);
}

// Adds one to the second number of each stamped variable's record.
fn count_stamped(work: &[u32], summary: &mut [u32], vars: usize, number: u32)
    requires { Noting vars summary.old }
    ensures { Noted vars number work.now summary.old summary.new }
{
    for i in 0..vars {
        count_if_stamped(work, summary, i, number);
    }
}

// Counts slot k, unless it is empty.
fn count_slot(table: &[u32], slots: &[u32], summary: &mut [u32], work: &mut [u32], k: usize)
    requires { Slotting table.now slots.now summary.old work.old k }
    ensures { Slotted table.now slots.now k summary.old summary.new work.old work.new }
{
    let name = word(slots, k);
    if name == 0 {
        return;
    }
    let number = k as u32 + 1;
    stamp(table, work, number, BddPointer(name - 1));
    count_stamped(work, summary, word(table, 0) as usize, number);
}

fn count_each(table: &[u32], slots: &[u32], summary: &mut [u32], work: &mut [u32])
    requires { Slotting table.now slots.now summary.old work.old 0 }
    ensures { Worked table.now slots.now summary.old summary.new }
{
    for k in 0..SLOTS {
        count_slot(table, slots, summary, work, k);
    }
}

// Adds the slots of each variable to the second number of its record.
pub fn count_slots(table: &[u32], slots: &[u32], summary: &mut [u32])
    requires { Working table.now slots.now summary.old }
    ensures { Worked table.now slots.now summary.old summary.new }
{
    let mut work = [0; WORK];
    count_each(table, slots, summary, &mut work);
}
