// A site's conditions in one table of nodes, with a summary beside it: a lent row of structures, one for each signal.
ghost use Rattle.pool.specs.Answers.{Reads};
ghost use Rattle.summary.specs.Kept.{AddsBeside, DropsBeside, Summarizes};
ghost use Rattle.summary_row.specs.Row.{words_of};
ghost use Rattle.flat.specs.Flat.{Flat};

use flat::HouayletanVerdict;
use houayletan::pooling as called;
use summary_row::Signal;

// Puts a condition in an empty slot. Accepted, the verdict has the number of the nodes in use afterwards.
#[unsafe(no_mangle)]
pub extern "C" fn houayletan_pool_add_4(
    table: &mut [u32],
    slots: &mut [u32],
    row: &mut [Signal],
    words: &[u32],
    slot: usize,
    room: &mut [u32],
) -> HouayletanVerdict
    ensures { Flat (AddsBeside table.old slots.old (words_of row.old) words.now slot table.new slots.new (words_of row.new) room.old room.new) result }
{
    called::houayletan_pool_add_4(table, slots, row, words, slot, room)
}

// Empties a slot, and frees what no other one reaches. Accepted, the verdict has the number of the nodes in use afterwards.
#[unsafe(no_mangle)]
pub extern "C" fn houayletan_pool_drop_4(
    table: &mut [u32],
    slots: &mut [u32],
    row: &mut [Signal],
    slot: usize,
) -> HouayletanVerdict
    ensures { Flat (DropsBeside table.old slots.old (words_of row.old) slot table.new slots.new (words_of row.new)) result }
{
    called::houayletan_pool_drop_4(table, slots, row, slot)
}

// Works the row out, for a pool that has none or has another one. Accepted, the verdict has the number of the table's places.
#[unsafe(no_mangle)]
pub extern "C" fn houayletan_pool_summarize_3(
    table: &[u32],
    slots: &[u32],
    row: &mut [Signal],
) -> HouayletanVerdict
    ensures { Flat (Summarizes table.now slots.now (words_of row.old) (words_of row.new)) result }
{
    called::houayletan_pool_summarize_3(table, slots, row)
}

// The reduced array of a slot's condition. Accepted, the verdict has the number of its nodes.
#[unsafe(no_mangle)]
pub extern "C" fn houayletan_pool_read_3(
    table: &[u32],
    slots: &[u32],
    slot: usize,
    room: &mut [u32],
    output: &mut [u32],
) -> HouayletanVerdict
    ensures { Flat (Reads table.now slots.now slot room.old room.new output.old output.new) result }
{
    called::houayletan_pool_read_3(table, slots, slot, room, output)
}
