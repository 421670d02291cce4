// A site's conditions in one table of nodes, with a summary beside it: a lent row of structures, one for each signal.
// What holds the row only copies the first records to local words, calls a function over words with these, and copies back those that have
// changed.
ghost use Rattle.std.specs.Prelude.{◌≡◌, min, ◌*◌, ◌≤◌, length};
ghost use Rattle.diagram.specs.Limits.{max_variables};
ghost use Rattle.pool.specs.Answers.{Reads};
ghost use Rattle.summary.specs.Summary.{record_words};
ghost use Rattle.summary.specs.Kept.{AddsBeside, DropsBeside, Summarizes};
ghost use Rattle.summary_row.specs.Row.{words_of};
ghost use Rattle.flat.specs.Flat.{Flat};
ghost use Rattle.houayletan.specs.Beside.{Tells, Worded};

use diagram::limits::MAX_VARIABLES;
use diagram::verdict::Verdict;
use flat::HouayletanVerdict;
use pool_calls::read::read;
use summary::RECORD;
use summary_calls::keep::{add, drop, summarize};
use summary_row::{Signal, give, take};

// The words of the longest summary.
const SUMMARY: usize = RECORD * MAX_VARIABLES;

// A verdict, and how many of the first records have changed.
#[derive(Clone, Copy)]
pub struct Told {
    pub verdict: HouayletanVerdict,
    pub records: usize,
}

// How many of a row's records are copied: a pool has no more variables.
pub fn records(row: usize) -> usize
    ensures { result ≡ min row max_variables }
{
    row.min(MAX_VARIABLES)
}

// The verdict laid flat has the variables where it is accepted, and else none: so many records have changed.
fn tell(verdict: Verdict) -> Told
    ensures { Tells verdict result }
{
    let flat = HouayletanVerdict::from(verdict);
    Told {
        verdict: flat,
        records: flat.vars as usize,
    }
}

fn add_words(
    table: &mut [u32],
    slots: &mut [u32],
    summary: &mut [u32],
    count: usize,
    words: &[u32],
    slot: usize,
    room: &mut [u32],
) -> Told
    requires { record_words * count ≤ length summary.old }
    ensures { Worded count (λ kept kept'. AddsBeside table.old slots.old kept words.now slot table.new slots.new kept' room.old room.new) summary.old summary.new result }
{
    let end = RECORD * count;
    tell(add(table, slots, &mut summary[..end], words, slot, room))
}

fn drop_words(
    table: &mut [u32],
    slots: &mut [u32],
    summary: &mut [u32],
    count: usize,
    slot: usize,
) -> Told
    requires { record_words * count ≤ length summary.old }
    ensures { Worded count (λ kept kept'. DropsBeside table.old slots.old kept slot table.new slots.new kept') summary.old summary.new result }
{
    let end = RECORD * count;
    tell(drop(table, slots, &mut summary[..end], slot))
}

fn summarize_words(table: &[u32], slots: &[u32], summary: &mut [u32], count: usize) -> Told
    requires { record_words * count ≤ length summary.old }
    ensures { Worded count (Summarizes table.now slots.now) summary.old summary.new result }
{
    let end = RECORD * count;
    tell(summarize(table, slots, &mut summary[..end]))
}

// Puts a condition in an empty slot. Accepted, the verdict has the number of the nodes in use afterwards.
pub fn houayletan_pool_add_4(
    table: &mut [u32],
    slots: &mut [u32],
    row: &mut [Signal],
    words: &[u32],
    slot: usize,
    room: &mut [u32],
) -> HouayletanVerdict
    ensures { Flat (AddsBeside table.old slots.old (words_of row.old) words.now slot table.new slots.new (words_of row.new) room.old room.new) result }
{
    let mut summary = [0; SUMMARY];
    let count = records(row.len());
    take(row, &mut summary, count);
    let told = add_words(table, slots, &mut summary, count, words, slot, room);
    give(row, &summary, told.records);
    told.verdict
}

// Empties a slot, and frees what no other one reaches. Accepted, the verdict has the number of the nodes in use afterwards.
pub fn houayletan_pool_drop_4(
    table: &mut [u32],
    slots: &mut [u32],
    row: &mut [Signal],
    slot: usize,
) -> HouayletanVerdict
    ensures { Flat (DropsBeside table.old slots.old (words_of row.old) slot table.new slots.new (words_of row.new)) result }
{
    let mut summary = [0; SUMMARY];
    let count = records(row.len());
    take(row, &mut summary, count);
    let told = drop_words(table, slots, &mut summary, count, slot);
    give(row, &summary, told.records);
    told.verdict
}

// Works the row out, for a pool that has none or has another one. Accepted, the verdict has the number of the table's places.
pub fn houayletan_pool_summarize_3(
    table: &[u32],
    slots: &[u32],
    row: &mut [Signal],
) -> HouayletanVerdict
    ensures { Flat (Summarizes table.now slots.now (words_of row.old) (words_of row.new)) result }
{
    let mut summary = [0; SUMMARY];
    let count = records(row.len());
    let told = summarize_words(table, slots, &mut summary, count);
    give(row, &summary, told.records);
    told.verdict
}

// The reduced array of a slot's condition. Accepted, the verdict has the number of its nodes.
pub fn houayletan_pool_read_3(
    table: &[u32],
    slots: &[u32],
    slot: usize,
    room: &mut [u32],
    output: &mut [u32],
) -> HouayletanVerdict
    ensures { Flat (Reads table.now slots.now slot room.old room.new output.old output.new) result }
{
    HouayletanVerdict::from(read(table, slots, slot, room, output))
}
