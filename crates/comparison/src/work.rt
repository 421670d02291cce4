// What is worked out in the table.
ghost use Rattle.std.specs.Prelude.{◌≡◌, ◌/◌, length};
ghost use Rattle.naturals.specs.Natural.{Holds, Answers};
ghost use Rattle.diagram.specs.Diagram.{vars as varsOf};
ghost use Rattle.pairs.specs.Pairs.{pair_words};
ghost use Rattle.pairs.specs.Table.{Alike};
ghost use Rattle.comparison.specs.Comparison.{in_both, any_differ, shown as shownOf};
ghost use Rattle.comparison.specs.Work.{Rooted, Arriving, Told, Worked};

use crate::smallest::smallest;
use naturals::{Natural, load, shift_left};
use pairs::table::capacity_of;
use pairs::walk::walk;
use worths::flags::differs_at;
use worths::sums::{count_from, level_at, note_all};

// How many pairs there are, how many valuations both diagrams hold for, and the smallest valuation in which they differ, if there is one.
#[derive(Clone, Copy, Debug, PartialEq, Eq)]
pub(crate) struct Found {
    pub pairs: usize,
    pub both: Natural,
    pub smallest: Option<Natural>,
}

// The count at the place of the two roots, doubled for the variables above them.
fn root_count(
    first: &[u32],
    second: &[u32],
    table: &[u32],
    capacity: usize,
    place: usize,
    vars: u32,
) -> Natural
    requires { Rooted first.now second.now capacity table.now place vars }
    ensures { Holds (in_both first.now second.now) result.words }
{
    let below = load(table, count_from(capacity, place)).unwrap();
    let above = level_at(first, second, table, capacity, place);
    shift_left(below, above.0).unwrap()
}

// The smallest valuation in which they differ.
fn shown(
    first: &[u32],
    second: &[u32],
    table: &[u32],
    capacity: usize,
    place: usize,
    vars: u32,
) -> Option<Natural>
    requires { Rooted first.now second.now capacity table.now place vars }
    ensures { Answers (any_differ first.now second.now) (shownOf first.now second.now) result }
{
    if differs_at(table, capacity, place) {
        return Some(smallest(first, second, table, capacity, place, vars));
    }
    None
}

fn tell(
    first: &[u32],
    second: &[u32],
    table: &mut [u32],
    capacity: usize,
    count: usize,
    place: usize,
    vars: u32,
) -> Found
    requires { Arriving first.now second.now capacity table.old count place vars }
    ensures { Told first.now second.now result }
{
    note_all(first, second, table, capacity, count, vars);
    Found {
        pairs: count,
        both: root_count(first, second, table, capacity, place, vars),
        smallest: shown(first, second, table, capacity, place, vars),
    }
}

// Nothing where there are more pairs than places.
pub(crate) fn work(first: &[u32], second: &[u32], table: &mut [u32], vars: u32) -> Option<Found>
    requires { Alike first.now second.now × (vars ≡ varsOf first.now) }
    ensures { Worked first.now second.now (length table.old / pair_words) result }
{
    let capacity = capacity_of(table.len());
    if capacity == 0 {
        return None;
    }
    let met = walk(first, second, table, capacity)?;
    Some(tell(first, second, table, capacity, met.count, met.place, vars))
}
