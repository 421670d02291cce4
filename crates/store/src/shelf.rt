// A store of nodes in lent words, no node in it twice. A store has a base, the place at which it begins, and a capacity, the
// nodes that it has places for. From the base on there are
//     three words for each place: the nodes
//     from NEXT capacities on, a word for each place: the node before it with the same key, or 0
//     from HEADS capacities on, a word for each key: the last node that has it, or 0
// up to END capacities. So a node is looked for along a short chain, and not among all.
ghost use Rattle.std.specs.Prelude.{◌≡◌, ◌+◌, ◌*◌, ◌<◌, ◌≤◌, get_or};
ghost use Rattle.diagram.specs.Limits.{max_nodes};
ghost use Rattle.store.specs.Store.{node, same, join as join_of};
ghost use Rattle.store.specs.Room.{farthest, store_to, key_of, store_in, entered, Space, Forgotten, Empty, Started, Shelf, Sought, Done};

use diagram::node::{BddPointer, BddVariable, word};
use diagram::room::{clear, put};

pub const NEXT: usize = 3;

pub const HEADS: usize = 4;

pub const END: usize = 5;

// A pointer into the store, and how many nodes the store has: one more than its capacity where a node found no place.
#[derive(Clone, Copy)]
pub struct Made {
    pub pointer: BddPointer,
    pub count: usize,
}

// Makes the keys' words zero, whatever stood there: what a store needs before it begins.
pub fn forget(room: &mut [u32], base: usize, capacity: usize)
    requires { Space base capacity room.old }
    ensures { Forgotten base capacity room.old room.new }
{
    clear(
        &mut room[base + HEADS * capacity..base + END * capacity],
        capacity,
    );
}

// Begins a store with the terminals alone. Only the keys' words have to be zero before.
pub fn start(room: &mut [u32], base: usize, capacity: usize, vars: u32)
    requires { Empty base capacity room.old }
    ensures { Started base capacity vars room.old room.new }
{
    put(room, base, vars);
    put(room, base + 1, 0);
    put(room, base + 2, 0);
    put(room, base + 3, vars);
    put(room, base + 4, 1);
    put(room, base + 5, 1);
}

// The number below the capacity that a node is looked up by: its words mixed to 32 bits, and these scaled.
pub fn key(capacity: usize, var: BddVariable, low: BddPointer, high: BddPointer) -> usize
    requires { capacity ≤ max_nodes }
    ensures { result ≡ key_of capacity (node var.0 low.0 high.0) }
{
    let mixed = (var.0 as usize) * 608135817
        + (low.0 as usize) * 1013904223
        + (high.0 as usize) * 736899889;
    mixed % 4294967296 * capacity / 4294967296
}

// Whether a node's three words stand at a place.
pub fn is_node(room: &[u32], at: usize, var: BddVariable, low: BddPointer, high: BddPointer) -> bool
    requires { at ≤ store_to farthest max_nodes }
    ensures { result ≡ same (node (get_or room.now at 0) (get_or room.now (at + 1) 0) (get_or room.now (at + 2) 0)) (node var.0 low.0 high.0) }
{
    if word(room, at + 1) != low.0 {
        return false;
    }
    if word(room, at + 2) != high.0 {
        return false;
    }
    word(room, at) == var.0
}

// The place of a node in the store, from the last node with its key on; where it isn't there, how many nodes there are.
fn seek(
    room: &[u32],
    base: usize,
    capacity: usize,
    count: usize,
    bucket: usize,
    var: BddVariable,
    low: BddPointer,
    high: BddPointer,
) -> usize
    requires { Shelf base capacity room.now count (node var.0 low.0 high.0) × (bucket ≡ key_of capacity (node var.0 low.0 high.0)) }
    ensures { Sought base capacity room.now count (node var.0 low.0 high.0) result }
{
    let mut q = word(room, base + HEADS * capacity + bucket) as usize;
    while q != 0 {
        if is_node(room, base + 3 * q, var, low, high) {
            return q;
        }
        q = word(room, base + NEXT * capacity + q) as usize;
    }
    count
}

// Writes a node at the store's end, and makes it the last with its key.
fn enter(
    room: &mut [u32],
    base: usize,
    capacity: usize,
    count: usize,
    bucket: usize,
    var: BddVariable,
    low: BddPointer,
    high: BddPointer,
)
    requires { Space base capacity room.old × (count < capacity) × (bucket < capacity) }
    ensures { room.new ≡ entered base capacity room.old count bucket (node var.0 low.0 high.0) }
{
    let at = base + 3 * count;
    room[at] = var.0;
    room[at + 1] = low.0;
    room[at + 2] = high.0;
    let head = base + HEADS * capacity + bucket;
    let before = room[head];
    room[base + NEXT * capacity + count] = before;
    room[head] = count as u32;
}

// The pointer to a variable over two children: the child where both are the same, else the node that is there already,
// else a new one, if there is a place for it.
pub fn join(
    room: &mut [u32],
    base: usize,
    capacity: usize,
    count: usize,
    var: BddVariable,
    low: BddPointer,
    high: BddPointer,
) -> Made
    requires { Shelf base capacity room.old count (node var.0 low.0 high.0) }
    ensures { Done base capacity (join_of var.0 low.0 high.0 (store_in base room.old count)) room.old room.new result.pointer.0 result.count }
{
    if low.0 == high.0 {
        return Made {
            pointer: low,
            count,
        };
    }
    let bucket = key(capacity, var, low, high);
    let place = seek(room, base, capacity, count, bucket, var, low, high);
    if place < count {
        return Made {
            pointer: BddPointer(place as u32),
            count,
        };
    }
    let more = count + 1;
    if capacity < more {
        return Made {
            pointer: BddPointer(0),
            count: capacity + 1,
        };
    }
    enter(room, base, capacity, count, bucket, var, low, high);
    Made {
        pointer: BddPointer(count as u32),
        count: more,
    }
}
