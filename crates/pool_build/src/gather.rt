// The conditions of a pool built one after the other, in the order of the slots, in a store in local words:
//     from STORE on             the store, with as many places as the table has
//     from TABLE_MEMO on        the memo of the old table
//     from DIAGRAM_MEMO on      the memo of a diagram that is added
// The new words of the slots go to a copy of them.
ghost use Rattle.std.specs.Prelude.{◌≡◌, suc};
ghost use Rattle.pool.specs.Walked.{walked_words};
ghost use Rattle.pool_build.specs.Work.{built, Standing, Behind, Naming, Slotted, Gathered, Handing, HandedBack};

use diagram::limits::MAX_NODES;
use diagram::node::{BddPointer, word};
use diagram::room::{clear, put};
use pool::{SLOTS, TERMINAL_WORDS};
use reduction::answer::copy;
use store::shelf::END;
use store::walk::build;

pub(crate) const STORE: usize = 0;

pub(crate) const TABLE_MEMO: usize = END * MAX_NODES;

pub(crate) const DIAGRAM_MEMO: usize = TABLE_MEMO + MAX_NODES;

pub(crate) const WORK: usize = DIAGRAM_MEMO + MAX_NODES;

// How many words of the table are walked: all, or the terminals' where there are no variables. No node but these is over no variables, and
// free places would stand at a variable that isn't there.
pub(crate) fn walked(table: &[u32]) -> usize
    ensures { result ≡ walked_words table.now }
{
    if word(table, 0) == 0 {
        return TERMINAL_WORDS;
    }
    table.len()
}

// Builds the condition of slot k and notes its root, unless the slot is empty or the store is full.
fn gather_slot(
    table: &[u32],
    names: &mut [u32],
    work: &mut [u32],
    capacity: usize,
    count: usize,
    k: usize,
) -> usize
    requires { Standing table.now capacity (built work.old count) work.old × Naming table.now k (suc k) names.old }
    ensures { Slotted table.now capacity count k names.old work.old names.new work.new result × Behind work.old work.new }
{
    let name = word(names, k);
    if name == 0 {
        return count;
    }
    let made = build(
        table,
        work,
        TABLE_MEMO,
        STORE,
        capacity,
        count,
        BddPointer(name - 1),
    );
    put(names, k, made.pointer.0 + 1);
    made.count
}

// The same for the slots from one on and before another. The first node that finds no place ends it.
pub(crate) fn gather(
    table: &[u32],
    names: &mut [u32],
    work: &mut [u32],
    capacity: usize,
    count: usize,
    from: usize,
    to: usize,
) -> usize
    requires { Standing table.now capacity (built work.old count) work.old × Naming table.now from to names.old }
    ensures { Gathered table.now capacity count from to names.old work.old names.new work.new result × Behind work.old work.new }
{
    let mut made = count;
    for k in from..to {
        made = gather_slot(table, names, work, capacity, made, k);
        if capacity < made {
            return made;
        }
    }
    made
}

// Puts what was built in the place of what was there: so many nodes, and behind them zeros.
pub(crate) fn hand_back(
    work: &[u32],
    names: &[u32],
    table: &mut [u32],
    slots: &mut [u32],
    count: usize,
)
    requires { Handing work.now names.now table.old slots.old count }
    ensures { HandedBack work.now names.now table.old table.new slots.new count }
{
    let all = table.len();
    clear(table, all);
    copy(work, STORE, table, 3 * count);
    copy(names, 0, slots, SLOTS);
}
