// What each pair is worth, from the first place to the last: a pair's children stand before it.
ghost use Rattle.std.specs.Prelude.{◌≡◌, ◌&&◌, eqb, suc, ◌+◌, ◌-◌, ◌*◌, ◌<◌, ◌≤◌};
ghost use Rattle.naturals.specs.Natural.{word_count};
ghost use Rattle.diagram.specs.Diagram.{vars as varsOf};
ghost use Rattle.pairs.specs.Pairs.{max_pairs, level_of, pairs_of};
ghost use Rattle.pairs.specs.Table.{counts_from};
ghost use Rattle.worths.specs.Worth.{pair_at, Listed, Placed, Worths, Noting, Ending, Stepping, Counted};

use crate::flags::{differs_at, note_flag, word_of};
use diagram::node::{BddPointer, BddVariable};
use in_place::sum::{Shifted, add_shifted, words_for};
use naturals::{Natural, store};
use pairs::step::{is_ended, level};
use pairs::table::{COUNTS, first_at, high_at, low_at, second_at};

// The variable at which the pair at a place steps.
pub fn level_at(
    first: &[u32],
    second: &[u32],
    table: &[u32],
    capacity: usize,
    place: usize,
) -> BddVariable
    requires { Placed first.now second.now capacity table.now place }
    ensures { result.0 ≡ level_of first.now second.now (pair_at first.now second.now place) }
{
    let p = first_at(table, capacity, place);
    let q = second_at(table, capacity, place);
    level(first, second, p, q)
}

// Where the count of a place stands.
pub fn count_from(capacity: usize, place: usize) -> usize
    requires { (capacity ≤ max_pairs) × (place < max_pairs) }
    ensures { result ≡ counts_from capacity + word_count * place }
{
    COUNTS * capacity + naturals::WORDS * place
}

// Whether both are node 1.
fn are_ones(p: BddPointer, q: BddPointer) -> bool
    ensures { result ≡ (eqb p.0 1 && eqb q.0 1) }
{
    p.0 == 1 && q.0 == 1
}

// Two terminals: both hold where both are node 1, and they differ where they are not the same.
fn note_end(
    first: &[u32],
    second: &[u32],
    table: &mut [u32],
    capacity: usize,
    place: usize,
    vars: u32,
    p: BddPointer,
    q: BddPointer,
)
    requires { Noting first.now second.now capacity table.old place vars × Ending first.now second.now place p.0 q.0 }
    ensures { Worths first.now second.now capacity table.new (suc place) }
{
    let both = word_of(are_ones(p, q));
    store(table, count_from(capacity, place), Natural::from(both));
    note_flag(table, capacity, place, p.0 != q.0);
}

// A child's count as it counts at its parent: doubled for each variable that is skipped.
fn part(
    first: &[u32],
    second: &[u32],
    table: &[u32],
    capacity: usize,
    here: BddVariable,
    child: usize,
) -> Shifted
    requires { Placed first.now second.now capacity table.now child × (here.0 < level_of first.now second.now (pair_at first.now second.now child)) }
    ensures { (result.at ≡ counts_from capacity + word_count * child) × (result.bits ≡ level_of first.now second.now (pair_at first.now second.now child) - here.0 - 1) }
{
    let there = level_at(first, second, table, capacity, child);
    Shifted {
        at: count_from(capacity, child),
        bits: there.0 - here.0 - 1,
    }
}

// Any other pair has its children's counts together.
fn note_sum(
    first: &[u32],
    second: &[u32],
    table: &mut [u32],
    capacity: usize,
    place: usize,
    vars: u32,
)
    requires { Noting first.now second.now capacity table.old place vars × Stepping first.now second.now place }
    ensures { Counted first.now second.now capacity table.new place }
{
    let here = level_at(first, second, table, capacity, place);
    let low = part(
        first,
        second,
        table,
        capacity,
        here,
        low_at(table, capacity, place),
    );
    let high = part(
        first,
        second,
        table,
        capacity,
        here,
        high_at(table, capacity, place),
    );
    add_shifted(
        table,
        count_from(capacity, place),
        low,
        high,
        words_for(vars - here.0),
    );
}

// It differs where one of its children does.
fn note_either(first: &[u32], second: &[u32], table: &mut [u32], capacity: usize, place: usize)
    requires { Counted first.now second.now capacity table.old place × Stepping first.now second.now place }
    ensures { Worths first.now second.now capacity table.new (suc place) }
{
    let low = differs_at(table, capacity, low_at(table, capacity, place));
    let high = differs_at(table, capacity, high_at(table, capacity, place));
    note_flag(table, capacity, place, low || high);
}

fn note_pair(
    first: &[u32],
    second: &[u32],
    table: &mut [u32],
    capacity: usize,
    place: usize,
    vars: u32,
)
    requires { Noting first.now second.now capacity table.old place vars }
    ensures { Worths first.now second.now capacity table.new (suc place) }
{
    let p = first_at(table, capacity, place);
    let q = second_at(table, capacity, place);
    if is_ended(p, q) {
        note_end(first, second, table, capacity, place, vars, p, q);
        return;
    }
    note_sum(first, second, table, capacity, place, vars);
    note_either(first, second, table, capacity, place);
}

// All pairs.
pub fn note_all(
    first: &[u32],
    second: &[u32],
    table: &mut [u32],
    capacity: usize,
    count: usize,
    vars: u32,
)
    requires { Listed first.now second.now capacity table.old × (count ≡ pairs_of first.now second.now) × (vars ≡ varsOf first.now) }
    ensures { Worths first.now second.now capacity table.new count }
{
    for place in 0..count {
        note_pair(first, second, table, capacity, place, vars);
    }
}
