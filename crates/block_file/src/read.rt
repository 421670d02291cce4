// Reading a file block by block.
ghost use Rattle.std.specs.Prelude.{◌≡◌, ◌≤◌};
ghost use Rattle.blocks.specs.Block.{said};
ghost use Rattle.block_file.specs.File.{end_of, ReadsFile};

use block_reading::read_block;
use blocks::layout::{BLOCK, MOST, NODES};
use blocks::stored::Stored;
use diagram::refusal::Refusal;
use diagram::verdict::Refused;

// The most blocks of a file.
const MOST_BLOCKS: usize = (MOST + NODES - 1) / NODES;

// After the last block no byte may stand.
fn end_of(len: usize, number: usize, nodes: usize) -> Stored
    requires { number ≤ 3 }
    ensures { said result ≡ end_of len number nodes }
{
    if BLOCK * number < len {
        return Err(Refused {
            reason: Refusal::ShortBlock,
            place: number,
        });
    }
    Ok(nodes)
}

// Three words of the output for each node. A refused block keeps the nodes of the blocks before it.
pub fn read_file(bytes: &[u8], output: &mut [u32]) -> Stored
    ensures { ReadsFile bytes.now output.old output.new result }
{
    let mut stated = 0;
    for number in 0..MOST_BLOCKS {
        let from = BLOCK * number;
        stated = read_block(&bytes[from..], number, stated, output)?;
        let due = number + 1;
        if stated <= NODES * due {
            return end_of(bytes.len(), due, stated);
        }
    }
    Err(Refused {
        reason: Refusal::ShortBlock,
        place: MOST_BLOCKS,
    })
}
