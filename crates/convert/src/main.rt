// `convert blocks to nodes`, `convert nodes to blocks`: a file on standard input, the same nodes in the other form on standard output.
// How many nodes there are, the one line of a refusal and the help go to standard error. What is written is decided by `answer` of
// crates/converting alone: here the words are fetched, the input is read, and both channels are written.
#![tactic(auto)]

ghost use Rattle.std.specs.Prelude.{◌≤◌, length};
ghost use Rattle.convert.specs.Program.{Answered, Ran};

use arguments::{arg, arg_count};
use converting::Ends;
use converting::answer::{answer, wants_input};
use converting::texts::TEXT;
use converting::words::WORD;
use node_file::layout::{NODE_FILE, NODE_INPUT};

// The channels' numbers: where the bytes of the answer go, and where what is said of them goes.
const STDOUT: i32 = 1;

const STDERR: i32 = 2;

fn blank_input() -> [u8; NODE_INPUT] {
    [0u8; NODE_INPUT]
}

fn blank_word() -> [u8; WORD] {
    [0u8; WORD]
}

// Whether all of it was written.
fn show(channel: i32, bytes: &[u8], end: usize) -> bool {
    if bytes.len() < end {
        return false;
    }
    io::write_all(channel, &bytes[..end])
}

// The text says what was written, so it is given only where the file is.
fn deliver(file: &[u8], text: &[u8], ends: Ends) {
    if !show(STDOUT, file, ends.file) {
        io::write_all(STDERR, b"convert: standard output could not be written\n");
        return;
    }
    show(STDERR, text, ends.text);
}

fn run(count: usize, first: &[u8], second: &[u8], third: &[u8], bytes: &[u8]) -> Ends
    ensures { Answered count first.now second.now third.now bytes.now result.file result.text }
{
    let mut file = [0u8; NODE_FILE];
    let mut text = [0u8; TEXT];
    let ends = answer(count, first, second, third, bytes, &mut file, &mut text);
    deliver(&file, &text, ends);
    ends
}

// Nothing is read where the words ask for no conversion.
fn read_input(wanted: bool, bytes: &mut [u8]) -> usize
    ensures { result ≤ length bytes.new }
{
    if wanted {
        return io::read_full(0, bytes);
    }
    0
}

// The words after the program's own name.
fn word_count(rt: HostRuntime) -> usize {
    let words = arg_count(&rt);
    if words == 0 {
        return 0;
    }
    words - 1
}

fn read_and_run(rt: HostRuntime, first: &[u8], second: &[u8], third: &[u8]) -> Ends
    ensures { Ran result.file result.text }
{
    let mut bytes = blank_input();
    let count = word_count(rt);
    let wanted = wants_input(count, first, second, third);
    let length = read_input(wanted, &mut bytes);
    run(count, first, second, third, &bytes[..length])
}

fn main(rt: HostRuntime) {
    let mut from = blank_word();
    let mut between = blank_word();
    let mut to = blank_word();
    let first = arg(&rt, 1, &mut from);
    let second = arg(&rt, 2, &mut between);
    let third = arg(&rt, 3, &mut to);
    read_and_run(rt, &from[..first], &between[..second], &to[..third]);
}
