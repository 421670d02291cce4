// The lines of the summary. Cases are given in decimal and, beside it, in hexadecimal, which `weigh` prints.
ghost use Rattle.std.specs.Prelude.{◌≡◌, ◌++◌};
ghost use Rattle.naturals.specs.Natural.{value};
ghost use Rattle.writing.specs.Writing.{Wrote};
ghost use Rattle.report.specs.Report.{feed};
ghost use Rattle.request.specs.Request.{nodes, cases, aim_of};
ghost use Rattle.messages.specs.Texts.{twice, target_text, sizes_text, counts_text, change_text, trials_text};

use naturals::{Natural, excess};
use report::lines::write_number;
use request::{Amount, Target};
use text::print::{DECIMAL, HEXADECIMAL, write_hexadecimal, write_natural};
use writing::{put, write};

// The longest summary (`longest_summary` of specs/Texts.antt, where the words stand that these bytes are): its words, seven numbers in
// decimal and four in hexadecimal.
const WORDS: usize = 88;

pub const SUMMARY: usize = WORDS + 7 * DECIMAL + 4 * HEXADECIMAL;

// `added 26 (hex 1a)`
fn write_twice(out: &mut [u8], at: usize, label: &[u8], a: Natural, middle: &[u8]) -> usize
    ensures { Wrote (twice label.now (value a.words) middle.now) out.old at out.new result }
{
    let named = write(out, at, label);
    let counted = write_natural(out, named, a);
    let begun = write(out, counted, middle);
    let repeated = write_hexadecimal(out, begun, a);
    put(out, repeated, b')')
}

pub fn write_line(out: &mut [u8], at: usize, label: &[u8], a: Natural, middle: &[u8]) -> usize
    ensures { Wrote (twice label.now (value a.words) middle.now ++ feed) out.old at out.new result }
{
    let next = write_twice(out, at, label, a, middle);
    put(out, next, b'\n')
}

fn write_nodes_target(out: &mut [u8], keep: bool, size: u32) -> usize
    ensures { Wrote (target_text keep (nodes size)) out.old 0 out.new result }
{
    let next = write_number(out, 0, b"target at most ", size as u64);
    write(out, next, b" nodes\n")
}

fn write_cases_target(out: &mut [u8], keep: bool, count: Natural) -> usize
    ensures { Wrote (target_text keep (cases (value count.words))) out.old 0 out.new result }
{
    if keep {
        return write_line(out, 0, b"target at least ", count, b" cases (hex ");
    }
    write_line(out, 0, b"target at most ", count, b" cases (hex ")
}

// `target at most 4 nodes`, `target at least 7936 cases (hex 1f00)`
pub fn write_target(out: &mut [u8], target: Target) -> usize
    ensures { Wrote (target_text target.keep (aim_of target)) out.old 0 out.new result }
{
    match target.amount {
        Amount::Nodes(size) => write_nodes_target(out, target.keep, size),
        Amount::Cases(count) => write_cases_target(out, target.keep, count),
    }
}

// `nodes 5 to 4`
pub fn write_sizes(out: &mut [u8], at: usize, before: usize, after: usize) -> usize
    ensures { Wrote (sizes_text before after) out.old at out.new result }
{
    let first = write_number(out, at, b"nodes ", before as u64);
    let second = write_number(out, first, b" to ", after as u64);
    put(out, second, b'\n')
}

// `cases 5 (hex 5) to 6 (hex 6)`
pub fn write_counts(out: &mut [u8], at: usize, before: Natural, after: Natural) -> usize
    ensures { Wrote (counts_text (value before.words) (value after.words)) out.old at out.new result }
{
    let first = write_twice(out, at, b"cases ", before, b" (hex ");
    let second = write_twice(out, first, b" to ", after, b" (hex ");
    put(out, second, b'\n')
}

// `added 1 (hex 1)` or `lost 1 (hex 1)`
pub fn write_change(out: &mut [u8], at: usize, keep: bool, before: Natural, after: Natural) -> usize
    ensures { Wrote (change_text keep (value before.words) (value after.words)) out.old at out.new result }
{
    if keep {
        return write_line(out, at, b"added ", excess(after, before), b" (hex ");
    }
    write_line(out, at, b"lost ", excess(before, after), b" (hex ")
}

// `trials 2`
pub fn write_trials(out: &mut [u8], at: usize, trials: usize) -> usize
    ensures { Wrote (trials_text trials) out.old at out.new result }
{
    let next = write_number(out, at, b"trials ", trials as u64);
    put(out, next, b'\n')
}
