// The lines of the report. Counts and weights are hexadecimal, the rest is decimal.
ghost use Rattle.std.specs.Prelude.{◌≡◌, ◌++◌, ◌≤◌, ◌<◌};
ghost use Rattle.naturals.specs.Natural.{value};
ghost use Rattle.diagram.specs.Limits.{max_nodes};
ghost use Rattle.diagram.specs.Diagram.{size};
ghost use Rattle.diagram.specs.Refusal.{number_of};
ghost use Rattle.writing.specs.Writing.{Wrote};
ghost use Rattle.text.specs.Digits.{decimal, hexadecimal};
ghost use Rattle.report.specs.Report.{weight_in, refused_at, refusal, line, lines, head};

use diagram::limits::MAX_NODES;
use diagram::node::word;
use diagram::verdict::Refused;
use naturals::{Natural, load, zero};
use text::print::{HEXADECIMAL, write_decimal, write_hexadecimal};
use writing::{put, write};

// The longest report of a file (`report_buffer` of specs/Reported.antt, where the words stand that these bytes are): the head, and
// a line for each node. Each has two numbers of at most five digits and a count.
const HEAD_WORDS: usize = 20;

const LINE_WORDS: usize = 19;

const SMALL: usize = 5;

pub const REPORT: usize = HEAD_WORDS
    + 2 * SMALL
    + HEXADECIMAL
    + MAX_NODES * (LINE_WORDS + 2 * SMALL + HEXADECIMAL);

// A label and a number after it.
pub fn write_number(out: &mut [u8], at: usize, label: &[u8], x: u64) -> usize
    ensures { Wrote (label.now ++ decimal x) out.old at out.new result }
{
    let next = write(out, at, label);
    write_decimal(out, next, x)
}

pub(crate) fn write_count(out: &mut [u8], at: usize, label: &[u8], a: Natural) -> usize
    ensures { Wrote (label.now ++ hexadecimal (value a.words)) out.old at out.new result }
{
    let next = write(out, at, label);
    write_hexadecimal(out, next, a)
}

// `refused 12 at 4`, without the line feed. Any number: what no refusal has is written too (`write_refusal` of crates/messages).
pub fn write_refused(out: &mut [u8], at: usize, number: u32, place: usize) -> usize
    ensures { Wrote (refused_at number place) out.old at out.new result }
{
    let first = write_number(out, at, b"refused ", number as u64);
    write_number(out, first, b" at ", place as u64)
}

pub(crate) fn write_refusal(out: &mut [u8], refused: Refused) -> usize
    ensures { Wrote (refusal (number_of refused.reason) refused.place) out.old 0 out.new result }
{
    let next = write_refused(out, 0, refused.reason.number(), refused.place);
    put(out, next, b'\n')
}

// The weight of a node in a table of weights.
fn weight_of(weights: &[u32], node: usize) -> Natural
    requires { node < 65536 }
    ensures { value result.words ≡ weight_in weights.now node }
{
    load(weights, naturals::WORDS * node).unwrap_or(zero())
}

// `vars 3`, `nodes 5` and `count 5`
fn write_head(out: &mut [u8], words: &[u32], count: Natural) -> usize
    ensures { Wrote (head words.now (value count.words)) out.old 0 out.new result }
{
    let vars = write_number(out, 0, b"vars ", word(words, 0) as u64);
    let nodes = write_number(out, vars, b"\nnodes ", (words.len() / 3) as u64);
    let counted = write_count(out, nodes, b"\ncount ", count);
    put(out, counted, b'\n')
}

// `node 2 var 2 weight 3`
fn write_node(out: &mut [u8], at: usize, words: &[u32], weights: &[u32], node: usize) -> usize
    requires { node < 65536 }
    ensures { Wrote (line words.now (weight_in weights.now node) node) out.old at out.new result }
{
    let named = write_number(out, at, b"node ", node as u64);
    let tested = write_number(out, named, b" var ", word(words, 3 * node) as u64);
    let weighed = write_count(out, tested, b" weight ", weight_of(weights, node));
    put(out, weighed, b'\n')
}

fn write_nodes(out: &mut [u8], at: usize, words: &[u32], weights: &[u32]) -> usize
    requires { size words.now ≤ max_nodes }
    ensures { Wrote (lines words.now (weight_in weights.now) 0 (size words.now)) out.old at out.new result }
{
    let nodes = words.len() / 3;
    let mut place = at;
    for node in 0..nodes {
        place = write_node(out, place, words, weights, node);
    }
    place
}

// The whole report of a diagram, its count and its weights.
pub(crate) fn write_lines(out: &mut [u8], words: &[u32], count: Natural, weights: &[u32]) -> usize
    requires { size words.now ≤ max_nodes }
    ensures { Wrote (head words.now (value count.words) ++ lines words.now (weight_in weights.now) 0 (size words.now)) out.old 0 out.new result }
{
    let next = write_head(out, words, count);
    write_nodes(out, next, words, weights)
}
