// The lines of an answer. A row is a valuation as bits, `0` or `1`, variable 0 first.
ghost use Rattle.std.specs.Prelude.{◌≡◌, ◌++◌, ◌≤◌, length, is_some};
ghost use Rattle.naturals.specs.Natural.{value};
ghost use Rattle.diagram.specs.Limits.{max_variables};
ghost use Rattle.writing.specs.Writing.{Wrote};
ghost use Rattle.text.specs.Digits.{spell};
ghost use Rattle.differ_texts.specs.Texts.{row_text, signal, signals, any_on, list_on, on_text, smallest_text, difference_text, counts_text, shown_number};

use diagram::limits::MAX_VARIABLES;
use messages::summary::write_line;
use naturals::Natural;
use report::lines::write_number;
use text::print::{DECIMAL, HEXADECIMAL, put_bits};
use writing::{put, write};

// The bit of a signal that is on.
const ON: u8 = b'1';

// The longest answer (`lines_buffer` of specs/Texts.antt, where the words stand that these bytes are).
const WORDS: usize = 82;

// A blank, an x, and at most five digits.
const SIGNAL: usize = 7;

pub const LINES: usize = WORDS + 4 * DECIMAL + 3 * HEXADECIMAL + MAX_VARIABLES * (1 + SIGNAL);

// ` 011`, or nothing where there is no bit
fn write_row(out: &mut [u8], at: usize, row: &[u8]) -> usize
    ensures { Wrote (row_text row.now) out.old at out.new result }
{
    if row.len() == 0 {
        return at;
    }
    let next = put(out, at, b' ');
    write(out, next, row)
}

// ` x1`, where it is on
fn write_signal(out: &mut [u8], at: usize, variable: usize, bit: u8) -> usize
    ensures { Wrote (signal variable bit) out.old at out.new result }
{
    if bit == ON {
        return write_number(out, at, b" x", variable as u64);
    }
    at
}

fn write_signals(out: &mut [u8], at: usize, row: &[u8]) -> usize
    ensures { Wrote (signals 0 row.now) out.old at out.new result }
{
    let mut place = at;
    for (i, bit) in row.iter().enumerate() {
        place = write_signal(out, place, i, *bit);
    }
    place
}

fn any_on(row: &[u8]) -> bool
    ensures { result ≡ any_on row.now }
{
    for bit in row {
        if *bit == ON {
            return true;
        }
    }
    false
}

fn write_list(out: &mut [u8], at: usize, row: &[u8]) -> usize
    ensures { Wrote (list_on row.now) out.old at out.new result }
{
    if any_on(row) {
        return write_signals(out, at, row);
    }
    write(out, at, b" none")
}

// `on x1 x2`
fn write_on(out: &mut [u8], at: usize, row: &[u8]) -> usize
    ensures { Wrote (on_text row.now) out.old at out.new result }
{
    let named = write(out, at, b"on");
    let listed = write_list(out, named, row);
    put(out, listed, b'\n')
}

// `smallest difference 011`, and the signals that are on
fn write_smallest(out: &mut [u8], at: usize, row: &[u8]) -> usize
    ensures { Wrote (smallest_text row.now) out.old at out.new result }
{
    let named = write(out, at, b"smallest difference");
    let shown = write_row(out, named, row);
    let next = put(out, shown, b'\n');
    write_on(out, next, row)
}

// `row` is written over with the bits of the number.
fn write_difference(out: &mut [u8], at: usize, smallest: Option<Natural>, row: &mut [u8]) -> usize
    ensures { Wrote (difference_text (is_some smallest) (spell 2 (shown_number smallest) (length row.old))) out.old at out.new result }
{
    match smallest {
        Some(number) => {
            put_bits(row, number);
            write_smallest(out, at, row)
        }
        None => write(out, at, b"no difference\n"),
    }
}

// `vars 3`, and the three counts
fn write_counts(out: &mut [u8], vars: u32, first: Natural, second: Natural, both: Natural) -> usize
    ensures { Wrote (counts_text vars (value first.words) (value second.words) (value both.words)) out.old 0 out.new result }
{
    let named = write_number(out, 0, b"vars ", vars as u64);
    let next = put(out, named, b'\n');
    let old = write_line(out, next, b"old only ", first, b" (hex ");
    let new = write_line(out, old, b"new only ", second, b" (hex ");
    write_line(out, new, b"both ", both, b" (hex ")
}

// All lines. `smallest` is a number whose lowest bits are the row; there is none where they don't differ.
pub fn write_answer(
    out: &mut [u8],
    vars: u32,
    first: Natural,
    second: Natural,
    both: Natural,
    smallest: Option<Natural>,
) -> usize
    requires { vars ≤ max_variables }
    ensures { Wrote (counts_text vars (value first.words) (value second.words) (value both.words) ++ difference_text (is_some smallest) (spell 2 (shown_number smallest) vars)) out.old 0 out.new result }
{
    let next = write_counts(out, vars, first, second, both);
    let mut row = [0u8; MAX_VARIABLES];
    let bits = vars as usize;
    write_difference(out, next, smallest, &mut row[..bits])
}
