// `weigh` reads a block file on standard input, `weigh nodes` a node file, and prints the count of its diagram and the weight of each node,
// or the one line of its refusal. So much of the input is read as tells what all of it would.
#![tactic(auto)]

ghost use Rattle.std.specs.Prelude.{◌≡◌, length};
ghost use Rattle.report.specs.Report.{report_of};

use arguments::{arg, arg_count};
use forms::Form;
use node_file::layout::NODE_INPUT;
use report::lines::REPORT;
use report::weigh::report;
use request::WORD;
use request::form::{form_of, may_weigh};

// The channels' numbers: where the bytes of the answer go, and where what is said of them goes.
const STDOUT: i32 = 1;

const STDERR: i32 = 2;

fn blank_input() -> [u8; NODE_INPUT] {
    [0u8; NODE_INPUT]
}

fn blank_word() -> [u8; WORD] {
    [0u8; WORD]
}

// Whether all of it was written.
fn show(text: &[u8], end: usize) -> bool {
    if text.len() < end {
        return false;
    }
    io::write_all(STDOUT, &text[..end])
}

fn deliver(text: &[u8], end: usize) {
    if !show(text, end) {
        io::write_all(STDERR, b"weigh: standard output could not be written\n");
    }
}

// How many bytes there are to print: the whole report, for the buffer holds every one.
fn weigh(form: Form, bytes: &[u8]) -> usize
    ensures { result ≡ length (report_of form bytes.now) }
{
    let mut text = [0u8; REPORT];
    let end = report(&mut text, form, bytes);
    deliver(&text, end);
    end
}

fn read_and_weigh(form: Form) {
    let mut bytes = blank_input();
    let length = io::read_full(0, &mut bytes);
    weigh(form, &bytes[..length]);
}

// The words after the program's own name.
fn word_count(rt: HostRuntime) -> usize {
    let words = arg_count(&rt);
    if words == 0 {
        return 0;
    }
    words - 1
}

// Nothing is read where the words are not known.
fn obey(count: usize, word: &[u8]) {
    if may_weigh(count, word) {
        read_and_weigh(form_of(word));
        return;
    }
    io::write_all(
        STDERR,
        b"weigh: the word is nodes for a node file; without a word it is a block file\n",
    );
}

fn main(rt: HostRuntime) {
    let mut word = blank_word();
    let length = arg(&rt, 1, &mut word);
    obey(word_count(rt), &word[..length]);
}
