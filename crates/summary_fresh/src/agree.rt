// Whether the summary that is kept is the one worked out afresh.
ghost use Rattle.std.specs.Prelude.{◌≡◌, ◌≤◌, length, take};
ghost use Rattle.summary.specs.Kept.{same, agrees as agreesWith};
ghost use Rattle.summary.specs.Summaries.{Roomy};

use crate::recount::recount;
use diagram::limits::MAX_VARIABLES;
use diagram::node::word;
use summary::RECORD;

const FRESH: usize = RECORD * MAX_VARIABLES;

// Whether the first words are the same.
fn is_same(kept: &[u32], fresh: &[u32], count: usize) -> bool
    requires { (count ≤ length kept.now) × (count ≤ length fresh.now) }
    ensures { result ≡ same (take count kept.now) (take count fresh.now) }
{
    for at in 0..count {
        if word(kept, at) != word(fresh, at) {
            return false;
        }
    }
    true
}

pub fn agrees(table: &[u32], slots: &[u32], summary: &[u32]) -> bool
    requires { Roomy table.now slots.now summary.now }
    ensures { result ≡ agreesWith table.now slots.now summary.now }
{
    let mut fresh = [0; FRESH];
    recount(table, slots, &mut fresh);
    is_same(summary, &fresh, RECORD * (word(table, 0) as usize))
}
