// Runs `validate` over the cases of standard input and prints a line for each. A case is a line of decimal numbers: the
// length of the working room, the word that it is filled with beforehand, and the words of the diagram. The answer is the
// verdict, and of the room afterwards how many words at its front are zero and how many after these are as they were.
// Both files are made by tests/diagram_cases.py, from a reading of the rules in force that shares nothing with this code.
#![tactic(auto)]

ghost use Rattle.std.specs.Prelude.{◌≤◌, ◌<◌, length};

use cases::{fill, least, line_ends, number, run_of, words_of};
use diagram::limits::{MAX_NODES, ROOM_PER_NODE};
use diagram::verdict::Verdict;
use diagram_check::validate::validate;

// The number of standard output.
const STDOUT: i32 = 1;

const TEXT: usize = 524288;

// A few nodes more than a diagram may have: some cases offer and lend more than is taken.
const NODES: usize = MAX_NODES + 4;

const WORDS: usize = 3 * NODES;

const ROOM: usize = ROOM_PER_NODE * NODES;

fn say(text: &[u8], value: u64) {
    io::write_all(STDOUT, text);
    io::print_decimal(STDOUT, value);
}

fn say_verdict(verdict: Verdict) {
    match verdict {
        Ok(extent) => {
            say(b"accepted nodes ", extent.nodes as u64);
            say(b" vars ", extent.vars as u64);
        }
        Err(refused) => {
            say(b"refused ", refused.reason.number() as u64);
            say(b" at ", refused.place as u64);
        }
    }
}

fn say_room(room: &[u32], word: u32) {
    let zeros = run_of(room, 0, 0);
    say(b", room zero ", zeros as u64);
    say(b" kept ", run_of(room, zeros, word) as u64);
    io::write_all(STDOUT, b"\n");
}

fn run_case(words: &[u32], room: &mut [u32], word: u32) {
    fill(room, word);
    say_verdict(validate(words, room));
    say_room(room, word);
}

// One line of the text; the place after it.
fn one_line(text: &[u8], from: usize, words: &mut [u32], room: &mut [u32]) -> usize
    requires { from < length text.now }
    ensures { (from < result) × (result ≤ length text.now) }
{
    let asked = number(text, from);
    let start = asked.next;
    if text.len() <= start {
        return start;
    }
    let word = number(text, start);
    let after = word.next;
    let lent = least(asked.value as usize, room.len());
    if line_ends(text, after) {
        run_case(&words[..0], &mut room[..lent], word.value);
        return after;
    }
    let found = words_of(text, after, words);
    let count = found.count;
    run_case(&words[..count], &mut room[..lent], word.value);
    found.next
}

fn blank_text() -> [u8; TEXT] {
    [0u8; TEXT]
}

fn blank_words() -> [u32; WORDS] {
    [0u32; WORDS]
}

fn blank_room() -> [u32; ROOM] {
    [0u32; ROOM]
}

// All lines of the text.
fn run(text: &[u8], words: &mut [u32], room: &mut [u32]) {
    let mut at = 0;
    while at < text.len() {
        at = one_line(text, at, words, room);
    }
}

fn main() {
    let mut text = blank_text();
    let mut words = blank_words();
    let mut room = blank_room();
    let length = io::read_full(0, &mut text);
    run(&text[..length], &mut words, &mut room);
}
