// What is said where the words ask for no cut.
ghost use Rattle.writing.specs.Writing.{Wrote};
ghost use Rattle.messages.specs.Texts.{help_text, unknown_text, which_text};

use writing::write;

pub fn write_help(out: &mut [u8]) -> usize
    ensures { Wrote help_text out.old 0 out.new result }
{
    write(
        out,
        0,
        b"shrink keep size N       at most N nodes: cases are added until it fits\nshrink keep cases N      at least N cases\nshrink keep hex N        at least N cases, N in hexadecimal as weigh prints it\nshrink suppress size N   at most N nodes: cases are lost until it fits\nshrink suppress cases N  at most N cases\nshrink suppress hex N    at most N cases, N in hexadecimal as weigh prints it\nA condition that fits already loses no case and gains none, and comes out in the fewest nodes; as-is after N leaves its nodes as they are.\nReads a block file on standard input and writes it cut to fit to standard output, the summary to standard error; shrink nodes .. does the same with a node file, of up to 4096 nodes.\nkeep only adds cases, suppress only loses them. Numbers are decimal but for hex, with no zeros in front.\n",
    )
}

pub fn write_unknown(out: &mut [u8]) -> usize
    ensures { Wrote unknown_text out.old 0 out.new result }
{
    write(
        out,
        0,
        b"shrink: the words are nodes where it is a node file, keep or suppress, size or cases or hex, a number, and as-is where it is wanted; shrink alone prints its help\n",
    )
}

pub fn write_which(out: &mut [u8]) -> usize
    ensures { Wrote which_text out.old 0 out.new result }
{
    write(
        out,
        0,
        b"shrink: count does not say which base its number is in: write cases for decimal, hex for hexadecimal\n",
    )
}
