// Reading one block. The reader's state is the number of the block that is due and the number of nodes that the first block stated.
#![tactic(auto)]

ghost use Rattle.std.specs.Prelude.{◌≡◌, ◌||◌, ◌-◌, ◌*◌, ◌≤◌, ◌<◌, min, eqb, length};
ghost use Rattle.diagram.specs.Refusal.{number_of};
ghost use Rattle.blocks.specs.Block.{block_bytes, block_nodes, total, here, two, four, unused, counts_right, block_outcome, said, Reads};

use blocks::fields::{get_four, get_two};
use blocks::layout::{BLOCK, MOST, NODES, PLACE, PLACES, PLACES_END, WORDS};
use blocks::nodes::get_nodes;
use blocks::stored::Stored;
use blocks::sums::{sum, sums_right};
use diagram::refusal::Refusal;
use diagram::verdict::Refused;

// How many nodes a block holds, by its number and the number of nodes in the file.
pub fn nodes_here(nodes: usize, number: usize) -> usize
    ensures { result ≡ here nodes number }
{
    if nodes / NODES < number {
        return 0;
    }
    let left = nodes - NODES * number;
    left.min(NODES)
}

// Whether a block states the number of nodes that the first block stated.
fn same_file(nodes: usize, number: usize, stated: usize) -> bool
    ensures { result ≡ (eqb number 0 || eqb nodes stated) }
{
    if number == 0 {
        return true;
    }
    nodes == stated
}

// Whether the block's number is the one due, its counts are right, and a later block states what the first one did.
fn counts_right(block: &[u8], number: usize, stated: usize) -> bool
    ensures { result ≡ counts_right number stated block.now }
{
    if get_two(block, 0) as usize != number {
        return false;
    }
    let nodes = get_four(block, PLACES_END) as usize;
    if !same_file(nodes, number, stated) {
        return false;
    }
    let held = get_two(block, 2) as usize;
    if held == 0 {
        return false;
    }
    held == nodes_here(nodes, number)
}

// Whether the places after the block's nodes are zero: the sum of bytes is zero only if they all are.
fn unused_zero(block: &[u8], held: usize) -> bool
    requires { (held ≤ block_nodes) × (block_bytes ≤ length block.now) }
    ensures { result ≡ eqb (total (unused block.now held)) 0 }
{
    let from = PLACES + PLACE * held;
    sum(&block[from..PLACES_END]) == 0
}

fn refused(reason: Refusal, place: usize) -> Stored
    ensures { said result ≡ Rattle.blocks.specs.Block.refused (number_of reason) place }
{
    Err(Refused { reason, place })
}

// The tests of a block in their order; `lent` is the length of the output.
fn test_block(block: &[u8], number: usize, stated: usize, lent: usize) -> Stored
    ensures { said result ≡ block_outcome number stated block.now lent }
{
    if block.len() < BLOCK {
        return refused(Refusal::ShortBlock, number);
    }
    if !sums_right(block) {
        return refused(Refusal::WrongSum, number);
    }
    if !counts_right(block, number, stated) {
        return refused(Refusal::WrongCount, number);
    }
    let nodes = get_four(block, PLACES_END) as usize;
    if MOST < nodes {
        return refused(Refusal::TooManyStored, number);
    }
    let held = get_two(block, 2) as usize;
    let clean = unused_zero(block, held);
    let fits = WORDS * number + 3 * held <= lent;
    if !clean {
        return refused(Refusal::UnusedBytes, number);
    }
    if !fits {
        return refused(Refusal::ShortOutput, number);
    }
    Ok(nodes)
}

// Reads the block due, which is the first 512 bytes of `block`, to its place in the output; the answer is the number of nodes in the file.
pub fn read_block(block: &[u8], number: usize, stated: usize, output: &mut [u32]) -> Stored
    ensures { Reads number stated block.now output.old output.new result }
{
    let nodes = test_block(block, number, stated, output.len())?;
    let held = get_two(block, 2) as usize;
    get_nodes(block, PLACES, held, output, WORDS * number);
    Ok(nodes)
}
