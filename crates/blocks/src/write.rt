// Writing one block.
ghost use Rattle.std.specs.Prelude.{◌≡◌, ◌++◌, ◌≤◌, ◌<◌, ◌^◌, length};
ghost use Rattle.writing.specs.Writing.{Wrote};
ghost use Rattle.blocks.specs.Block.{block_bytes, front, sealed, block_of, Whole};

use crate::fields::{put_four, put_two};
use crate::layout::{BLOCK, PLACE, PLACES, PLACES_END, SUMMED};
use crate::nodes::put_nodes;
use crate::sums::{sum, weighted_sum};
use writing::{write, write_zeros};

// All of a block but its sums.
fn put_front(out: &mut [u8], nodes: usize, number: usize, words: &[u32]) -> usize
    requires { Whole nodes number words.now }
    ensures { Wrote (front nodes number words.now) out.old 0 out.new result }
{
    let held = words.len() / 3;
    let counted = put_two(out, 0, number as u32);
    let begun = put_two(out, counted, held as u32);
    let used = put_nodes(out, begun, words);
    let full = write_zeros(out, used, PLACES_END - PLACES - PLACE * held);
    put_four(out, full, nodes as u32)
}

// All of a block but its sums, and behind it these.
pub fn write_sealed(file: &mut [u8], at: usize, front: &[u8]) -> usize
    requires { length front.now ≤ block_bytes }
    ensures { Wrote (sealed front.now) file.old at file.new result }
{
    let place = write(file, at, front);
    let next = put_two(file, place, sum(front));
    put_two(file, next, weighted_sum(front))
}

// The block of some nodes, three words each, in a file of `nodes`. Variables that do not fit two bytes are not taken: what
// is asked rules them out, and `write_file` of crates/block_file refuses them.
pub fn write_block(file: &mut [u8], at: usize, nodes: usize, number: usize, words: &[u32]) -> usize
    requires { Whole nodes number words.now }
    ensures { Wrote (block_of nodes number words.now) file.old at file.new result }
{
    let mut block = [0u8; BLOCK];
    put_front(&mut block, nodes, number, words);
    write_sealed(file, at, &block[..SUMMED])
}
