// The two sums of a block. Few enough bytes are summed that no sum wraps.
ghost use Rattle.std.specs.Prelude.{◌≡◌, ◌≤◌, length};
ghost use Rattle.blocks.specs.Block.{block_bytes, total, weighted, sums_right};

use crate::fields::get_two;
use crate::layout::{PAIR_SPAN, SUMMED};

pub fn sum(bytes: &[u8]) -> u32
    requires { length bytes.now ≤ block_bytes }
    ensures { result ≡ total bytes.now }
{
    let mut sum: u32 = 0;
    for byte in bytes {
        sum += *byte as u32;
    }
    sum
}

// Each byte times its position, counted from one.
pub(crate) fn weighted_sum(bytes: &[u8]) -> u32
    requires { length bytes.now ≤ block_bytes }
    ensures { result ≡ weighted 1 bytes.now }
{
    let mut sum: u32 = 0;
    for (i, byte) in bytes.iter().enumerate() {
        sum += (i as u32 + 1) * (*byte as u32);
    }
    sum
}

// Whether both sums of a block are what the block says.
pub fn sums_right(block: &[u8]) -> bool
    requires { block_bytes ≤ length block.now }
    ensures { result ≡ sums_right block.now }
{
    if get_two(block, SUMMED) != sum(&block[..SUMMED]) % PAIR_SPAN {
        return false;
    }
    get_two(block, SUMMED + 2) == weighted_sum(&block[..SUMMED]) % PAIR_SPAN
}
