// The walk over the pairs that two diagrams reach together. A pair is entered behind its children, so each place's children stand before it.
ghost use Rattle.pairs.specs.Pairs.{pair, roots, all_of};
ghost use Rattle.pairs.specs.Table.{Alike, Space, Adding, Added, Walking, Walked, MetAll};

use crate::step::{is_ended, level, pass};
use crate::table::{enter, key, seek};
use diagram::node::BddPointer;
use diagram::room::clear;

// The place of a pair, and how many pairs there are. Inside the walk there are one more than there are places where one found none: an
// Option goes through memory there and not through two registers, and took 10 to 20 % longer a pair in the same walk in Rust.
#[derive(Clone, Copy, Debug, PartialEq, Eq)]
pub struct Met {
    pub place: usize,
    pub count: usize,
}

// Enters a pair that isn't there, if there is a place for it.
fn add(
    table: &mut [u32],
    capacity: usize,
    count: usize,
    p: BddPointer,
    q: BddPointer,
    low: usize,
    high: usize,
) -> Met
    requires { Adding capacity table.old count (pair p.0 q.0) low high }
    ensures { Added capacity table.old count (pair p.0 q.0) low high table.new result.place result.count }
{
    if count == capacity {
        return Met {
            place: 0,
            count: capacity + 1,
        };
    }
    enter(table, capacity, count, key(p, q), low, high);
    Met {
        place: count,
        count: count + 1,
    }
}

// Meets all pairs from one on. The level grows at each call, and each pair is gone on from once. The first pair that finds no place ends it.
fn meet(
    first: &[u32],
    second: &[u32],
    table: &mut [u32],
    capacity: usize,
    count: usize,
    p: BddPointer,
    q: BddPointer,
) -> Met
    requires { Walking first.now second.now capacity table.old count (pair p.0 q.0) }
    ensures { Walked first.now second.now capacity table.old count (pair p.0 q.0) table.new result.place result.count }
{
    if let Some(place) = seek(table, capacity, count, key(p, q)) {
        return Met { place, count };
    }
    if is_ended(p, q) {
        return add(table, capacity, count, p, q, 0, 0);
    }
    let variable = level(first, second, p, q);
    let p_low = pass(first, variable, p, false);
    let q_low = pass(second, variable, q, false);
    let low = meet(first, second, table, capacity, count, p_low, q_low);
    if capacity < low.count {
        return low;
    }
    let p_high = pass(first, variable, p, true);
    let q_high = pass(second, variable, q, true);
    let high = meet(first, second, table, capacity, low.count, p_high, q_high);
    if capacity < high.count {
        return high;
    }
    add(table, capacity, high.count, p, q, low.place, high.place)
}

// Meets all pairs from the two roots on, in a table of any contents with places for some pairs. Nothing where they are too few.
pub fn walk(first: &[u32], second: &[u32], table: &mut [u32], capacity: usize) -> Option<Met>
    requires { Alike first.now second.now × Space capacity table.old }
    ensures { MetAll first.now second.now capacity (all_of first.now second.now) table.new (roots first.now second.now) result }
{
    clear(table, capacity);
    let p = BddPointer((first.len() / 3 - 1) as u32);
    let q = BddPointer((second.len() / 3 - 1) as u32);
    let met = meet(first, second, table, capacity, 0, p, q);
    if capacity < met.count {
        return None;
    }
    Some(met)
}
