// The smallest valuation in which two diagrams differ, as a number: variable 0 is its highest bit.
ghost use Rattle.std.specs.Prelude.{◌≡◌, true, ◌<◌};
ghost use Rattle.naturals.specs.Natural.{Holds};
ghost use Rattle.diagram.specs.Diagram.{vars};
ghost use Rattle.comparison.specs.Comparison.{any_differ, shown};
ghost use Rattle.comparison.specs.Work.{Rooted, Searching, Turned};

use naturals::{Natural, times_plus, zero};
use pairs::table::{high_at, low_at};
use worths::flags::differs_at;
use worths::sums::level_at;

// Where a pair goes at a variable, and by which bit.
#[derive(Clone, Copy)]
struct Step {
    pub place: usize,
    pub bit: u32,
}

// A pair that differs goes low if it still differs there. A variable that it doesn't test is 0.
fn turn(
    first: &[u32],
    second: &[u32],
    table: &[u32],
    capacity: usize,
    place: usize,
    variable: u32,
) -> Step
    requires { Searching first.now second.now capacity table.now place variable × (variable < vars first.now) }
    ensures { Turned first.now second.now capacity table.now place variable result.place result.bit }
{
    let here = level_at(first, second, table, capacity, place);
    if here.0 != variable {
        return Step { place, bit: 0 };
    }
    let low = low_at(table, capacity, place);
    let high = high_at(table, capacity, place);
    if differs_at(table, capacity, low) {
        return Step { place: low, bit: 0 };
    }
    Step {
        place: high,
        bit: 1,
    }
}

// From a place whose pair differs.
pub(crate) fn smallest(
    first: &[u32],
    second: &[u32],
    table: &[u32],
    capacity: usize,
    place: usize,
    vars: u32,
) -> Natural
    requires { Rooted first.now second.now capacity table.now place vars × (any_differ first.now second.now ≡ true) }
    ensures { Holds (shown first.now second.now) result.words }
{
    let mut number = zero();
    let mut at = place;
    for variable in 0..vars {
        let next = turn(first, second, table, capacity, at, variable);
        number = times_plus(number, 2, next.bit).unwrap();
        at = next.place;
    }
    number
}
