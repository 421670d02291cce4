// Adding a condition: refusal 46, the diagram's own, and 33 to 36.
ghost use Rattle.std.specs.Prelude.{◌≡◌, true};
ghost use Rattle.pool.specs.Pool.{is_pool};
ghost use Rattle.pool.specs.Answers.{Adds};
ghost use Rattle.pool_calls.specs.Calls.{Addable, AddsTo, Placing};

use diagram::node::word;
use diagram::refusal::Refusal;
use diagram::verdict::{Extent, Refused, Verdict};
use diagram_check::validate::validate;
use pool::SLOTS;
use pool_build::place::place;
use pool_check::check::is_pool;

// The slot is free and the variable counts agree: 36, or the condition is added.
fn add_placed(table: &mut [u32], slots: &mut [u32], words: &[u32], slot: usize) -> Verdict
    requires { Placing table.old slots.old words.now slot }
    ensures { AddsTo table.old slots.old words.now slot table.new slots.new result }
{
    let places = table.len() / 3;
    let count = place(table, slots, words, slot);
    if places < count {
        return Err(Refused {
            reason: Refusal::PoolFull,
            place: 0,
        });
    }
    Ok(Extent {
        nodes: count,
        vars: word(words, 0),
    })
}

// There is a pool and the diagram is accepted: 33 to 36, or the condition is added.
fn add_accepted(table: &mut [u32], slots: &mut [u32], words: &[u32], slot: usize) -> Verdict
    requires { Addable table.old slots.old words.now }
    ensures { AddsTo table.old slots.old words.now slot table.new slots.new result }
{
    if SLOTS <= slot {
        return Err(Refused {
            reason: Refusal::NoSuchSlot,
            place: 0,
        });
    }
    if word(slots, slot) != 0 {
        return Err(Refused {
            reason: Refusal::WrongSlot,
            place: 0,
        });
    }
    if word(words, 0) != word(table, 0) {
        return Err(Refused {
            reason: Refusal::OtherPool,
            place: 0,
        });
    }
    add_placed(table, slots, words, slot)
}

// Adds where there is a pool: the diagram's own refusals, and 33 to 36.
pub fn add_known(
    table: &mut [u32],
    slots: &mut [u32],
    words: &[u32],
    slot: usize,
    room: &mut [u32],
) -> Verdict
    requires { is_pool table.old slots.old ≡ true }
    ensures { Adds table.old slots.old words.now slot table.new slots.new room.old room.new result }
{
    validate(words, room)?;
    add_accepted(table, slots, words, slot)
}

pub fn add(
    table: &mut [u32],
    slots: &mut [u32],
    words: &[u32],
    slot: usize,
    room: &mut [u32],
) -> Verdict
    ensures { Adds table.old slots.old words.now slot table.new slots.new room.old room.new result }
{
    if !is_pool(table, slots) {
        return Err(Refused {
            reason: Refusal::NoPool,
            place: 0,
        });
    }
    add_known(table, slots, words, slot, room)
}
