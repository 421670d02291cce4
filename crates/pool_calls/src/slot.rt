// What dropping and reading look at first: the pool, and the slot.
ghost use Rattle.std.specs.Prelude.{◌≡◌, true};
ghost use Rattle.diagram.specs.Diagram.{size};
ghost use Rattle.diagram.specs.Verdict.{said};
ghost use Rattle.pool.specs.Pool.{is_pool};
ghost use Rattle.pool.specs.Answers.{live_of};

use diagram::node::word;
use diagram::refusal::Refusal;
use diagram::verdict::{Extent, Refused, Verdict};
use pool::SLOTS;
use pool_check::check::is_pool;

// Whether the slot is there and live, where there is a pool.
pub(crate) fn live_known(table: &[u32], slots: &[u32], slot: usize) -> Verdict
    requires { is_pool table.now slots.now ≡ true }
    ensures { said result ≡ live_of table.now slots.now slot (size table.now) }
{
    if SLOTS <= slot {
        return Err(Refused {
            reason: Refusal::NoSuchSlot,
            place: 0,
        });
    }
    if word(slots, slot) == 0 {
        return Err(Refused {
            reason: Refusal::WrongSlot,
            place: 0,
        });
    }
    Ok(Extent {
        nodes: table.len() / 3,
        vars: word(table, 0),
    })
}

// Whether there is a pool, and the slot is there and live.
pub(crate) fn live(table: &[u32], slots: &[u32], slot: usize) -> Verdict
    ensures { said result ≡ live_of table.now slots.now slot (size table.now) }
{
    if !is_pool(table, slots) {
        return Err(Refused {
            reason: Refusal::NoPool,
            place: 0,
        });
    }
    live_known(table, slots, slot)
}
