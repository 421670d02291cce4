// Dropping a condition: refusals 46, 33 and 34.
ghost use Rattle.std.specs.Prelude.{◌≡◌, true};
ghost use Rattle.pool.specs.Pool.{is_pool};
ghost use Rattle.pool.specs.Answers.{Drops};

use crate::slot::live_known;
use diagram::refusal::Refusal;
use diagram::verdict::{Extent, Refused, Verdict};
use pool_build::remove::remove;
use pool_check::check::is_pool;

// Drops where there is a pool: 33 and 34.
pub fn drop_known(table: &mut [u32], slots: &mut [u32], slot: usize) -> Verdict
    requires { is_pool table.old slots.old ≡ true }
    ensures { Drops table.old slots.old slot table.new slots.new result }
{
    let found = live_known(table, slots, slot)?;
    let nodes = remove(table, slots, slot);
    Ok(Extent {
        nodes,
        vars: found.vars,
    })
}

pub fn drop(table: &mut [u32], slots: &mut [u32], slot: usize) -> Verdict
    ensures { Drops table.old slots.old slot table.new slots.new result }
{
    if !is_pool(table, slots) {
        return Err(Refused {
            reason: Refusal::NoPool,
            place: 0,
        });
    }
    drop_known(table, slots, slot)
}
