// The summary of a pool, worked out afresh.
ghost use Rattle.std.specs.Prelude.{◌≡◌};
ghost use Rattle.summary.specs.Kept.{renewed};
ghost use Rattle.summary.specs.Summaries.{Roomy};

use diagram::node::word;
use diagram::room::clear;
use summary::RECORD;
use summary_count::nodes::count_nodes;
use summary_count::slots::count_slots;

// The words behind it stay. Not laid into its callers: its arrays would take their stack while the pool is checked.
#[inline(never)]
pub fn recount(table: &[u32], slots: &[u32], summary: &mut [u32])
    requires { Roomy table.now slots.now summary.old }
    ensures { summary.new ≡ renewed table.now slots.now summary.old }
{
    clear(summary, RECORD * (word(table, 0) as usize));
    count_nodes(table, summary);
    count_slots(table, slots, summary);
}
