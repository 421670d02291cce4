// What is said on standard error, but for refusals, which crates/messages writes.
ghost use Rattle.writing.specs.Writing.{Wrote};
ghost use Rattle.converting.specs.Converting.{help_text, unknown_text, nodes_text};

use report::lines::write_number;
use text::print::DECIMAL;
use writing::{put, write};

// The longest text is a refusal (`text_buffer` of specs/Converting.antt): its words, and four numbers.
const REFUSAL_WORDS: usize = 101;

pub const TEXT: usize = REFUSAL_WORDS + 4 * DECIMAL;

pub(crate) fn write_help(out: &mut [u8]) -> usize
    ensures { Wrote help_text out.old 0 out.new result }
{
    write(
        out,
        0,
        b"convert blocks to nodes   a block file to a node file\nconvert nodes to blocks   a node file of at most 120 nodes to a block file\nReads standard input and writes standard output. What is not a diagram is refused.\n",
    )
}

pub(crate) fn write_unknown(out: &mut [u8]) -> usize
    ensures { Wrote unknown_text out.old 0 out.new result }
{
    write(
        out,
        0,
        b"convert: the words are blocks to nodes, or nodes to blocks; convert alone prints its help\n",
    )
}

// `nodes 5`
pub(crate) fn write_nodes(out: &mut [u8], nodes: usize) -> usize
    ensures { Wrote (nodes_text nodes) out.old 0 out.new result }
{
    let next = write_number(out, 0, b"nodes ", nodes as u64);
    put(out, next, 10)
}
