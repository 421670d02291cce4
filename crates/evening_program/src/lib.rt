// `shrink_stored keep size 40`, `shrink_stored suppress cases 7936 as-is`, `shrink_stored settings FILE`: a block file on standard input, cut to fit, on standard
// output; with `nodes` before the other words a node file. The summary, the one line of a refusal and the help go to standard error. What is
// written is decided by `answer_evening` of crates/evening alone: here the words are fetched, the settings file and the input are read, and
// both channels are written.
#![tactic(auto)]

ghost use Rattle.std.specs.Prelude.{◌≤◌, length, IfSome, option_copied};
ghost use Rattle.evening_program.specs.Program.{Answered, Ran};

use arguments::{arg, arg_count};
use blocks::layout::BLOCK;
use evening::answer::{answer_evening, names_settings, wants_evening_input};
use messages::summary::SUMMARY;
use named::read_file;
use node_file::layout::{NODE_FILE, NODE_INPUT};
use request::WORD;
use shrinking::Ends;

// The channels' numbers: where the bytes of the answer go, and where what is said of them goes.
const STDOUT: i32 = 1;

const STDERR: i32 = 2;

// A longer name of a settings file is read as an empty one: neither names a file.
const NAME: usize = 4096;

// One byte more than a block has tells of a settings file what all of it would.
const SETTINGS: usize = BLOCK + 1;

// So much of the input tells what all of it would.
fn blank_input() -> [u8; NODE_INPUT] {
    [0u8; NODE_INPUT]
}

fn blank_word() -> [u8; WORD] {
    [0u8; WORD]
}

// Whether all of it was written.
fn show(channel: i32, bytes: &[u8], end: usize) -> bool {
    if bytes.len() < end {
        return false;
    }
    io::write_all(channel, &bytes[..end])
}

// The summary says what was cut, so it is given only where the file is.
fn deliver(file: &[u8], text: &[u8], ends: Ends) {
    if !show(STDOUT, file, ends.file) {
        io::write_all(
            STDERR,
            b"shrink_stored: standard output could not be written\n",
        );
        return;
    }
    show(STDERR, text, ends.text);
}

fn run(
    count: usize,
    first: &[u8],
    second: &[u8],
    third: &[u8],
    fourth: &[u8],
    fifth: &[u8],
    settings: Option<&[u8]>,
    bytes: &[u8],
) -> Ends
    ensures { Answered count first.now second.now third.now fourth.now fifth.now (option_copied settings.entry) bytes.now result.file result.text }
{
    let mut file = [0u8; NODE_FILE];
    let mut text = [0u8; SUMMARY];
    let ends = answer_evening(
        count, first, second, third, fourth, fifth, settings, bytes, &mut file, &mut text,
    );
    deliver(&file, &text, ends);
    ends
}

// The last word is the name.
fn read_named<'a>(rt: HostRuntime, last: usize, bytes: &'a mut [u8]) -> Option<&'a [u8]>
    ensures { IfSome result (λ read. length read.now ≤ length bytes.old) }
{
    let mut name = [0u8; NAME];
    let length = arg(&rt, last, &mut name);
    read_file(&rt, &name[..length], bytes)
}

// No file is opened where the words name none.
fn read_settings_file<'a>(
    rt: HostRuntime,
    count: usize,
    first: &[u8],
    second: &[u8],
    bytes: &'a mut [u8],
) -> Option<&'a [u8]>
    ensures { IfSome result (λ read. length read.now ≤ length bytes.old) }
{
    if names_settings(count, first, second) {
        return read_named(rt, count, bytes);
    }
    None
}

// Nothing is read where no cut is asked for.
fn read_input(wanted: bool, bytes: &mut [u8]) -> usize
    ensures { result ≤ length bytes.new }
{
    if wanted {
        return io::read_full(0, bytes);
    }
    0
}

// The words after the program's own name.
fn word_count(rt: HostRuntime) -> usize {
    let words = arg_count(&rt);
    if words == 0 {
        return 0;
    }
    words - 1
}

fn read_and_run(
    count: usize,
    first: &[u8],
    second: &[u8],
    third: &[u8],
    fourth: &[u8],
    fifth: &[u8],
    settings: Option<&[u8]>,
) -> Ends
    ensures { Ran result.file result.text }
{
    let mut bytes = blank_input();
    let wanted = wants_evening_input(count, first, second, third, fourth, fifth, settings);
    let length = read_input(wanted, &mut bytes);
    run(
        count,
        first,
        second,
        third,
        fourth,
        fifth,
        settings,
        &bytes[..length],
    )
}

fn settle_and_run(
    rt: HostRuntime,
    first: &[u8],
    second: &[u8],
    third: &[u8],
    fourth: &[u8],
    fifth: &[u8],
) -> Ends
    ensures { Ran result.file result.text }
{
    let mut settings = [0u8; SETTINGS];
    let count = word_count(rt);
    let stored = read_settings_file(rt, count, first, second, &mut settings);
    read_and_run(count, first, second, third, fourth, fifth, stored)
}

// The whole program, for its crate and for the test programs. It answers how many bytes it had for each channel.
pub fn run_program(rt: HostRuntime) -> Ends
    ensures { Ran result.file result.text }
{
    let mut a = blank_word();
    let mut b = blank_word();
    let mut c = blank_word();
    let mut d = blank_word();
    let mut e = blank_word();
    let first = arg(&rt, 1, &mut a);
    let second = arg(&rt, 2, &mut b);
    let third = arg(&rt, 3, &mut c);
    let fourth = arg(&rt, 4, &mut d);
    let fifth = arg(&rt, 5, &mut e);
    settle_and_run(
        rt,
        &a[..first],
        &b[..second],
        &c[..third],
        &d[..fourth],
        &e[..fifth],
    )
}
