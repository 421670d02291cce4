// Two diagrams beside each other: document 02, E1.
ghost use Rattle.std.specs.Prelude.{◌≡◌, ◌≤◌, ◌/◌, Option, length, replicate};
ghost use Rattle.naturals.specs.Natural.{value};
ghost use Rattle.diagram.specs.Diagram.{vars as varsOf};
ghost use Rattle.pairs.specs.Pairs.{pair_words};
ghost use Rattle.pairs.specs.Table.{Alike};
ghost use Rattle.comparison.specs.Comparison.{which_number, Compare};
ghost use Rattle.comparison.specs.Work.{Worked, Differences, Known, Besides};

use crate::work::{Found, work};
use diagram::refusal::Refusal;
use diagram::room::clear;
use diagram::verdict::{Extent, Finding, Refused};
use exact_counts::exact_cardinality;
use naturals::{Natural, subtract};
use pairs::table::PAIR_WORDS;

// The diagram that a refusal is about. Refusals 31 and 32 are about both, and name the first, as C has it.
#[derive(Clone, Copy, Debug, PartialEq, Eq)]
pub enum Which {
    First = 0,
    Second = 1,
}

impl Which {
    // The number that C and the programs know it by.
    pub fn number(self) -> u32
        ensures { result ≡ which_number self }
    {
        self as u32
    }
}

#[derive(Clone, Copy, Debug, PartialEq, Eq)]
pub struct ComparisonRefused {
    pub refused: Refused,
    pub which: Which,
}

// How many valuations hold in the first only, in the second only and in both; and the smallest valuation in which they differ, if there is
// one, as a number, in which variable 0 is the highest bit.
#[derive(Clone, Copy, Debug, PartialEq, Eq)]
pub struct Comparison {
    pub first: Natural,
    pub second: Natural,
    pub both: Natural,
    pub smallest: Option<Natural>,
}

// The nodes of the extent are the pairs reached.
pub type Compared = Result<Finding<Comparison>, ComparisonRefused>;

// A refusal of both together.
fn of_both(reason: Refusal) -> ComparisonRefused
    ensures { (result.refused.reason ≡ reason) × (result.refused.place ≡ 0) × (which_number result.which ≡ 0) }
{
    ComparisonRefused {
        refused: Refused { reason, place: 0 },
        which: Which::First,
    }
}

// Each has its own share of what both hold for.
fn answered(first: Natural, second: Natural, vars: u32, found: Found) -> Finding<Comparison>
    requires { (value found.both.words ≤ value first.words) × (value found.both.words ≤ value second.words) }
    ensures { Differences first.words second.words vars found result }
{
    let both = found.both;
    let only_first = subtract(first, both).unwrap();
    let only_second = subtract(second, both).unwrap();
    Finding {
        extent: Extent {
            nodes: found.pairs,
            vars,
        },
        value: Comparison {
            first: only_first,
            second: only_second,
            both,
            smallest: found.smallest,
        },
    }
}

// The table is zero afterwards.
fn work_and_clear(first: &[u32], second: &[u32], table: &mut [u32], vars: u32) -> Option<Found>
    requires { Alike first.now second.now × (vars ≡ varsOf first.now) }
    ensures { Worked first.now second.now (length table.old / pair_words) result × (table.new ≡ replicate (length table.old) 0) }
{
    let told = work(first, second, table, vars);
    let all = table.len();
    clear(table, all);
    told
}

// Both diagrams are accepted: what their checks have told is given.
fn beside(
    first: &[u32],
    second: &[u32],
    table: &mut [u32],
    of_first: Finding<Natural>,
    of_second: Finding<Natural>,
) -> Compared
    requires { Known first.now second.now of_first of_second }
    ensures { Besides first.now second.now table.old table.new result }
{
    let vars = of_first.extent.vars;
    let others = of_second.extent.vars;
    if vars != others {
        return Err(of_both(Refusal::OtherVariables));
    }
    let whole = PAIR_WORDS * (table.len() / PAIR_WORDS);
    let told = work_and_clear(first, second, &mut table[..whole], vars);
    let Some(found) = told else {
        return Err(of_both(Refusal::TooManyPairs));
    };
    Ok(answered(of_first.value, of_second.value, vars, found))
}

// `room` serves both checks in turn; `table` has PAIR_WORDS words for each pair.
pub fn compare(first: &[u32], second: &[u32], room: &mut [u32], table: &mut [u32]) -> Compared
    ensures { Compare first.now second.now room.old room.new table.old table.new result }
{
    let of_first = exact_cardinality(first, room).map_err(|refused| ComparisonRefused {
        refused,
        which: Which::First,
    })?;
    let of_second = exact_cardinality(second, room).map_err(|refused| ComparisonRefused {
        refused,
        which: Which::Second,
    })?;
    beside(first, second, table, of_first, of_second)
}
