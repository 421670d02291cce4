// Runs `count_and_weights` and then `node_valuation_weights` over the cases of standard input and prints a line for each answer.
// A case is a line of decimal numbers: the length of the working room and the word that it is filled with beforehand, the same of
// the output, and the words of the diagram. The answer is the verdict; the count, where the operation gives one; of the room
// afterwards how many words at its front are zero and how many after these are as they were; how many words of the output beyond
// the result are as they were; and the weights. Count and weights are hexadecimal. Both files are made by tests/weights_cases.py,
// from a reading of the rules in force that shares nothing with this code.
#![tactic(auto)]

ghost use Rattle.std.specs.Prelude.{◌≤◌, ◌<◌, length};
ghost use Rattle.diagram.specs.Limits.{max_nodes};

use cases::{fill, least, number, run_of, words_of};
use diagram::limits::{MAX_NODES, ROOM_PER_NODE};
use diagram::node::word;
use diagram::verdict::Verdict;
use naturals::{Natural, load, zero};
use node_weights::{count_and_weights, node_valuation_weights};

// The number of standard output.
const STDOUT: i32 = 1;

const TEXT: usize = 524288;

// A few nodes more than a diagram may have: some cases offer and lend more than is taken.
const NODES: usize = MAX_NODES + 4;

const WORDS: usize = 3 * NODES;

const OUTPUT: usize = naturals::WORDS * NODES;

const ROOM: usize = ROOM_PER_NODE * NODES;

fn say(text: &[u8], value: u64) {
    io::write_all(STDOUT, text);
    io::print_decimal(STDOUT, value);
}

fn say_verdict(verdict: Verdict) {
    match verdict {
        Ok(extent) => {
            say(b"accepted nodes ", extent.nodes as u64);
            say(b" vars ", extent.vars as u64);
        }
        Err(refused) => {
            say(b"refused ", refused.reason.number() as u64);
            say(b" at ", refused.place as u64);
        }
    }
}

fn say_room(room: &[u32], word: u32) {
    let zeros = run_of(room, 0, 0);
    say(b", room zero ", zeros as u64);
    say(b" kept ", run_of(room, zeros, word) as u64);
}

fn hex(x: u32, width: usize) {
    io::print_hex(STDOUT, x as u64, width);
}

// Without zeros in front.
fn show(a: Natural) {
    let mut begun = false;
    for word in a.words.iter().rev() {
        let x = *word;
        if begun {
            hex(x, 8);
        } else {
            if x != 0 {
                hex(x, 1);
                begun = true;
            }
        }
    }
    if !begun {
        io::write_all(STDOUT, b"0");
    }
}

fn say_weights(output: &[u32], nodes: usize)
    requires { nodes ≤ max_nodes }
{
    io::write_all(STDOUT, b", weights");
    for i in 0..nodes {
        io::write_all(STDOUT, b" ");
        show(load(output, naturals::WORDS * i).unwrap_or(zero()));
    }
}

// What the output has: the weights of that many nodes, and words as they were.
fn say_output(output: &[u32], word: u32, nodes: usize)
    requires { nodes ≤ max_nodes }
{
    say(
        b", output kept ",
        run_of(output, naturals::WORDS * nodes, word) as u64,
    );
    if 0 < nodes {
        say_weights(output, nodes);
    }
    io::write_all(STDOUT, b"\n");
}

fn weighed(verdict: Verdict) -> usize
    ensures { result ≤ max_nodes }
{
    match verdict {
        Ok(extent) => least(extent.nodes, MAX_NODES),
        Err(_) => 0,
    }
}

fn run_both(words: &[u32], output: &mut [u32], room: &mut [u32], filled: u32, marked: u32) {
    fill(output, filled);
    fill(room, marked);
    let both = count_and_weights(words, room, output);
    let verdict = both.map(|found| found.extent);
    say_verdict(verdict);
    io::write_all(STDOUT, b", count ");
    show(both.map_or(zero(), |found| found.value));
    say_room(room, marked);
    say_output(output, filled, weighed(verdict));
}

fn run_weights(words: &[u32], output: &mut [u32], room: &mut [u32], filled: u32, marked: u32) {
    fill(output, filled);
    fill(room, marked);
    let verdict = node_valuation_weights(words, room, output);
    say_verdict(verdict);
    say_room(room, marked);
    say_output(output, filled, weighed(verdict));
}

fn run_case(words: &[u32], output: &mut [u32], room: &mut [u32], filled: u32, marked: u32) {
    run_both(words, output, room, filled, marked);
    run_weights(words, output, room, filled, marked);
}

// One line of the text; the place after it.
fn one_line(
    text: &[u8],
    from: usize,
    words: &mut [u32],
    output: &mut [u32],
    room: &mut [u32],
) -> usize
    requires { from < length text.now }
    ensures { (from < result) × (result ≤ length text.now) }
{
    let first = number(text, from);
    let found = words_of(text, first.next, words);
    let count = found.count;
    if count < 3 {
        return found.next;
    }
    let lent_room = least(first.value as usize, room.len());
    let marked = word(words, 0);
    let lent_output = least(word(words, 1) as usize, output.len());
    let filled = word(words, 2);
    run_case(
        &words[3..count],
        &mut output[..lent_output],
        &mut room[..lent_room],
        filled,
        marked,
    );
    found.next
}

fn blank_text() -> [u8; TEXT] {
    [0u8; TEXT]
}

fn blank_words() -> [u32; WORDS] {
    [0u32; WORDS]
}

fn blank_output() -> [u32; OUTPUT] {
    [0u32; OUTPUT]
}

fn blank_room() -> [u32; ROOM] {
    [0u32; ROOM]
}

// All lines of the text.
fn run(text: &[u8], words: &mut [u32], output: &mut [u32], room: &mut [u32]) {
    let mut at = 0;
    while at < text.len() {
        at = one_line(text, at, words, output, room);
    }
}

fn main() {
    let mut text = blank_text();
    let mut words = blank_words();
    let mut output = blank_output();
    let mut room = blank_room();
    let length = io::read_full(0, &mut text);
    run(&text[..length], &mut words, &mut output, &mut room);
}
