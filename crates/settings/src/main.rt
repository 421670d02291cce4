// `settings keep size 40 as-is`: what `shrink keep size 40 as-is` would do, stored as a settings block on standard output. `settings show`:
// the words that are stored in the block on standard input. All else goes to standard error. What is written is decided by `store` of
// crates/evening alone: here the words are fetched, the input is read, and both channels are written.
#![tactic(auto)]

ghost use Rattle.std.specs.Prelude.{◌≤◌, length};
ghost use Rattle.settings.specs.Program.{Answered, Ran};

use arguments::{arg, arg_count};
use blocks::layout::BLOCK;
use evening::write::{is_show, store};
use messages::summary::SUMMARY;
use request::WORD;
use shrinking::Ends;

// The channels' numbers: where the bytes of the answer go, and where what is said of them goes.
const STDOUT: i32 = 1;

const STDERR: i32 = 2;

// One byte more than a block has tells of the input what all of it would.
const INPUT: usize = BLOCK + 1;

fn blank_word() -> [u8; WORD] {
    [0u8; WORD]
}

// Whether all of it was written.
fn show(channel: i32, bytes: &[u8], end: usize) -> bool {
    if bytes.len() < end {
        return false;
    }
    io::write_all(channel, &bytes[..end])
}

// The text says what was stored, so it is given only where the file is.
fn deliver(file: &[u8], text: &[u8], ends: Ends) {
    if !show(STDOUT, file, ends.file) {
        io::write_all(STDERR, b"settings: standard output could not be written\n");
        return;
    }
    show(STDERR, text, ends.text);
}

fn run(count: usize, first: &[u8], second: &[u8], third: &[u8], fourth: &[u8], bytes: &[u8]) -> Ends
    ensures { Answered count first.now second.now third.now fourth.now bytes.now result.file result.text }
{
    let mut file = [0u8; BLOCK];
    let mut text = [0u8; SUMMARY];
    let ends = store(
        count, first, second, third, fourth, bytes, &mut file, &mut text,
    );
    deliver(&file, &text, ends);
    ends
}

// Only `show` reads.
fn read_input(wanted: bool, bytes: &mut [u8]) -> usize
    ensures { result ≤ length bytes.new }
{
    if wanted {
        return io::read_full(0, bytes);
    }
    0
}

// The words after the program's own name.
fn word_count(rt: HostRuntime) -> usize {
    let words = arg_count(&rt);
    if words == 0 {
        return 0;
    }
    words - 1
}

fn read_and_run(rt: HostRuntime, first: &[u8], second: &[u8], third: &[u8], fourth: &[u8]) -> Ends
    ensures { Ran result.file result.text }
{
    let mut bytes = [0u8; INPUT];
    let count = word_count(rt);
    let length = read_input(is_show(count, first), &mut bytes);
    run(count, first, second, third, fourth, &bytes[..length])
}

fn main(rt: HostRuntime) {
    let mut a = blank_word();
    let mut b = blank_word();
    let mut c = blank_word();
    let mut d = blank_word();
    let first = arg(&rt, 1, &mut a);
    let second = arg(&rt, 2, &mut b);
    let third = arg(&rt, 3, &mut c);
    let fourth = arg(&rt, 4, &mut d);
    read_and_run(rt, &a[..first], &b[..second], &c[..third], &d[..fourth]);
}
