// `differ OLD NEW`, `differ nodes OLD NEW`: how the conditions of two files differ, on standard output. The one line of a refusal and the
// help go to standard error. What is written is decided by `answer` of crates/differing alone: here the words are fetched, the files are
// read, and the channels are written.
#![tactic(auto)]

ghost use Rattle.std.specs.Prelude.{option_copied};
ghost use Rattle.differ.specs.Program.{Words, Answered, Ran};

use arguments::{arg, arg_count};
use differ_texts::lines::LINES;
use differ_texts::texts::{NAME, TEXT};
use differing::Ends;
use differing::answer::answer;
use differing::words::{Asked, asked_of};
use forms::Form;
use named::read_file;
use node_file::layout::NODE_INPUT;

// The channels' numbers: where the bytes of the answer go, and where what is said of them goes.
const STDOUT: i32 = 1;

const STDERR: i32 = 2;

fn blank_name() -> [u8; NAME] {
    [0u8; NAME]
}

// So much of a file tells what all of it would.
fn blank_input() -> [u8; NODE_INPUT] {
    [0u8; NODE_INPUT]
}

// Whether all of it was written.
fn show(channel: i32, bytes: &[u8], end: usize) -> bool {
    if bytes.len() < end {
        return false;
    }
    io::write_all(channel, &bytes[..end])
}

fn deliver(lines: &[u8], text: &[u8], ends: Ends) {
    if !show(STDOUT, lines, ends.lines) {
        io::write_all(STDERR, b"differ: standard output could not be written\n");
        return;
    }
    show(STDERR, text, ends.text);
}

fn run(
    count: usize,
    first: &[u8],
    second: &[u8],
    third: &[u8],
    old: Option<&[u8]>,
    new: Option<&[u8]>,
) -> Ends
    requires { Words first.now second.now third.now }
    ensures { Answered count first.now second.now third.now (option_copied old.entry) (option_copied new.entry) result.lines result.text }
{
    let mut lines = [0u8; LINES];
    let mut text = [0u8; TEXT];
    let ends = answer(count, first, second, third, old, new, &mut lines, &mut text);
    deliver(&lines, &text, ends);
    ends
}

// The words after the program's own name.
fn word_count(rt: HostRuntime) -> usize {
    let words = arg_count(&rt);
    if words == 0 {
        return 0;
    }
    words - 1
}

fn read_and_run(
    rt: HostRuntime,
    count: usize,
    first: &[u8],
    second: &[u8],
    third: &[u8],
    old_name: &[u8],
    new_name: &[u8],
) -> Ends
    requires { Words first.now second.now third.now }
    ensures { Ran result.lines result.text }
{
    let mut old = blank_input();
    let mut new = blank_input();
    let old_file = read_file(&rt, old_name, &mut old);
    let new_file = read_file(&rt, new_name, &mut new);
    run(count, first, second, third, old_file, new_file)
}

// No file is opened where the words ask for no comparison.
fn obey(rt: HostRuntime, count: usize, first: &[u8], second: &[u8], third: &[u8]) -> Ends
    requires { Words first.now second.now third.now }
    ensures { Ran result.lines result.text }
{
    let asked = asked_of(count, first);
    match asked {
        Asked::Help => run(count, first, second, third, None, None),
        Asked::Unknown => run(count, first, second, third, None, None),
        Asked::Compare(form) => match form {
            Form::Blocks => read_and_run(rt, count, first, second, third, first, second),
            Form::Nodes => read_and_run(rt, count, first, second, third, second, third),
        },
    }
}

fn main(rt: HostRuntime) {
    let mut a = blank_name();
    let mut b = blank_name();
    let mut c = blank_name();
    let first = arg(&rt, 1, &mut a);
    let second = arg(&rt, 2, &mut b);
    let third = arg(&rt, 3, &mut c);
    obey(rt, word_count(rt), &a[..first], &b[..second], &c[..third]);
}
