// Adding and dropping where a summary is kept beside the pool: 46, 37 and 47 before all others.
ghost use Rattle.std.specs.Prelude.{◌≡◌};
ghost use Rattle.diagram.specs.Verdict.{said};
ghost use Rattle.summary.specs.Kept.{standing, summarized, AddsBeside, DropsBeside, Summarizes};

use diagram::node::word;
use diagram::refusal::Refusal;
use diagram::verdict::{Extent, Refused, Verdict};
use pool_calls::add::add_known;
use pool_calls::drop::drop_known;
use pool_check::check::is_pool;
use summary::RECORD;
use summary_fresh::agree::agrees;
use summary_fresh::recount::recount;

// Whether there is a pool, and a record for each variable.
fn roomy(table: &[u32], slots: &[u32], summary: &[u32]) -> Verdict
    ensures { said result ≡ summarized table.now slots.now summary.now }
{
    if !is_pool(table, slots) {
        return Err(Refused {
            reason: Refusal::NoPool,
            place: 0,
        });
    }
    let vars = word(table, 0);
    if summary.len() < RECORD * (vars as usize) {
        return Err(Refused {
            reason: Refusal::ShortSummary,
            place: 0,
        });
    }
    Ok(Extent {
        nodes: table.len() / 3,
        vars,
    })
}

// And whether the records agree with the pool.
fn stands(table: &[u32], slots: &[u32], summary: &[u32]) -> Verdict
    ensures { said result ≡ standing table.now slots.now summary.now }
{
    let extent = roomy(table, slots, summary)?;
    if !agrees(table, slots, summary) {
        return Err(Refused {
            reason: Refusal::OtherSummary,
            place: 0,
        });
    }
    Ok(extent)
}

pub fn add(
    table: &mut [u32],
    slots: &mut [u32],
    summary: &mut [u32],
    words: &[u32],
    slot: usize,
    room: &mut [u32],
) -> Verdict
    ensures { AddsBeside table.old slots.old summary.old words.now slot table.new slots.new summary.new room.old room.new result }
{
    stands(table, slots, summary)?;
    let extent = add_known(table, slots, words, slot, room)?;
    recount(table, slots, summary);
    Ok(extent)
}

pub fn drop(table: &mut [u32], slots: &mut [u32], summary: &mut [u32], slot: usize) -> Verdict
    ensures { DropsBeside table.old slots.old summary.old slot table.new slots.new summary.new result }
{
    stands(table, slots, summary)?;
    let extent = drop_known(table, slots, slot)?;
    recount(table, slots, summary);
    Ok(extent)
}

// Works the summary out, for a pool that has none or has another one.
pub fn summarize(table: &[u32], slots: &[u32], summary: &mut [u32]) -> Verdict
    ensures { Summarizes table.now slots.now summary.old summary.new result }
{
    let extent = roomy(table, slots, summary)?;
    recount(table, slots, summary);
    Ok(extent)
}
