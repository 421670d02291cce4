// Writing the file of some nodes.
ghost use Rattle.std.specs.Prelude.{◌≡◌, ◌*◌, ◌<◌, ◌≤◌, length};
ghost use Rattle.diagram.specs.Diagram.{size};
ghost use Rattle.writing.specs.Writing.{Wrote};
ghost use Rattle.blocks.specs.Block.{said, block_nodes, block_of};
ghost use Rattle.block_file.specs.File.{block_count, part, file_of, first_wide, write_outcome, WritesFile, Storable};

use block_reading::nodes_here;
use blocks::layout::{BLOCK, MOST, NODES, PAIR_SPAN, WORDS};
use blocks::stored::Stored;
use blocks::write::write_block;
use diagram::node::word;
use diagram::refusal::Refusal;
use diagram::verdict::Refused;

// The widest variable that two bytes hold.
const WIDEST: u32 = PAIR_SPAN - 1;

// The first node whose variable does not fit two bytes, or the number of nodes.
pub fn first_wide(words: &[u32]) -> usize
    ensures { result ≡ first_wide words.now }
{
    let nodes = words.len() / 3;
    for p in 0..nodes {
        if WIDEST < word(words, 3 * p) {
            return p;
        }
    }
    nodes
}

// The tests in their order; `lent` is the length of the buffer.
fn test_words(words: &[u32], lent: usize) -> Stored
    ensures { said result ≡ write_outcome words.now lent }
{
    if words.len() == 0 {
        return Err(Refused {
            reason: Refusal::NoWords,
            place: 0,
        });
    }
    if words.len() % 3 != 0 {
        return Err(Refused {
            reason: Refusal::BrokenWords,
            place: 0,
        });
    }
    let nodes = words.len() / 3;
    if MOST < nodes {
        return Err(Refused {
            reason: Refusal::TooManyStored,
            place: 0,
        });
    }
    if lent < BLOCK * nodes.div_ceil(NODES) {
        return Err(Refused {
            reason: Refusal::ShortOutput,
            place: 0,
        });
    }
    let wide = first_wide(words);
    if wide < nodes {
        return Err(Refused {
            reason: Refusal::WideVariable,
            place: wide,
        });
    }
    Ok(nodes)
}

// The block with this number: its fifty nodes, or those that are left.
fn put_block(file: &mut [u8], at: usize, words: &[u32], number: usize) -> usize
    requires { Storable words.now × (block_nodes * number < size words.now) }
    ensures { Wrote (block_of (size words.now) number (part words.now number)) file.old at file.new result }
{
    let nodes = words.len() / 3;
    let from = WORDS * number;
    let end = from + 3 * nodes_here(nodes, number);
    write_block(file, at, nodes, number, &words[from..end])
}

fn put_blocks(file: &mut [u8], words: &[u32]) -> usize
    requires { Storable words.now }
    ensures { Wrote (file_of words.now) file.old 0 file.new result }
{
    let nodes = words.len() / 3;
    let mut place = 0;
    for number in 0..nodes.div_ceil(NODES) {
        place = put_block(file, place, words, number);
    }
    place
}

// The file stands at the front of the buffer, block after block; the rest of the buffer is as it was.
pub fn write_file(words: &[u32], file: &mut [u8]) -> Stored
    ensures { WritesFile words.now file.old file.new result }
{
    let nodes = test_words(words, file.len())?;
    put_blocks(file, words);
    Ok(nodes)
}
