// Ten bytes for a node: variable 2, low link 4, high link 4. Block files and node files have the same.
ghost use Rattle.std.specs.Prelude.{◌≡◌, ◌+◌, ◌*◌, ◌≤◌, length};
ghost use Rattle.writing.specs.Writing.{Wrote};
ghost use Rattle.blocks.specs.Block.{place_bytes, node_bytes, nodes_bytes, node_at, nodes_at};

use crate::fields::{four_at, put_four, put_two, store_four, store_two, two_at};
use crate::layout::PLACE;
use writing::put;

// The node in the ten bytes from a place on.
fn get_node(bytes: &[u8], from: usize, output: &mut [u32], at: usize) -> usize
    requires { from + place_bytes ≤ length bytes.now }
    ensures { Wrote (node_at bytes.now from) output.old at output.new result }
{
    let low = put(output, at, two_at(bytes, from));
    let high = put(output, low, four_at(bytes, from + 2));
    put(output, high, four_at(bytes, from + 6))
}

// So many nodes, one after another from a place on.
pub fn get_nodes(bytes: &[u8], first: usize, count: usize, output: &mut [u32], at: usize) -> usize
    requires { first + place_bytes * count ≤ length bytes.now }
    ensures { Wrote (nodes_at bytes.now first count) output.old at output.new result }
{
    let mut place = at;
    for i in 0..count {
        place = get_node(bytes, first + PLACE * i, output, place);
    }
    place
}

// As much of a node's bytes as there is a place for.
fn put_part(out: &mut [u8], at: usize, var: u32, low: u32, high: u32) -> usize
    ensures { Wrote (node_bytes var low high) out.old at out.new result }
{
    let first = put_two(out, at, var);
    let second = put_four(out, first, low);
    put_four(out, second, high)
}

// All of them.
fn store_node(out: &mut [u8], at: usize, var: u32, low: u32, high: u32) -> usize
    requires { at + place_bytes ≤ length out.old }
    ensures { Wrote (node_bytes var low high) out.old at out.new result }
{
    let first = store_two(out, at, var);
    let second = store_four(out, first, low);
    store_four(out, second, high)
}

fn put_node(out: &mut [u8], at: usize, var: u32, low: u32, high: u32) -> usize
    ensures { Wrote (node_bytes var low high) out.old at out.new result }
{
    if PLACE <= out.len().saturating_sub(at) {
        return store_node(out, at, var, low, high);
    }
    put_part(out, at, var, low, high)
}

// The places of some nodes, three words each.
pub fn put_nodes(out: &mut [u8], at: usize, words: &[u32]) -> usize
    ensures { Wrote (nodes_bytes words.now) out.old at out.new result }
{
    let mut place = at;
    for i in 0..words.len() / 3 {
        place = put_node(out, place, words[3 * i], words[3 * i + 1], words[3 * i + 2]);
    }
    place
}
