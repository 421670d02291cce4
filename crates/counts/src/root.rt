// The worth of a whole diagram is its root's.
ghost use Rattle.std.specs.Prelude.{◌≡◌};
ghost use Rattle.naturals.specs.Natural.{Holds};
ghost use Rattle.counts.specs.Worth.{doublings as doublingsOf, root_of, Rooted};

use crate::table::count_at;
use diagram::node::{BddPointer, var_of};
use naturals::{Natural, shift_left};

// How often a link that skips variables doubles a worth.
pub(crate) fn doublings(valuations: bool, skipped: u32) -> u32
    ensures { result ≡ doublingsOf valuations skipped }
{
    if valuations { skipped } else { 0 }
}

// What a table has at the root, doubled for the variables above it.
pub fn root_worth(
    words: &[u32],
    table: &[u32],
    base: usize,
    nodes: usize,
    valuations: bool,
) -> Natural
    requires { Rooted valuations words.now base table.now nodes }
    ensures { Holds (root_of valuations words.now base table.now nodes) result.words }
{
    let root = BddPointer((nodes - 1) as u32);
    let below = count_at(table, base, root);
    let above = var_of(words, root);
    shift_left(below, doublings(valuations, above.0)).unwrap()
}
