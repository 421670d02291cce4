// Runs the counts, the small queries and negation over the cases of standard input and prints a line for each. A case is a
// line of decimal numbers: the length of the working room, the word that room and outputs are filled with beforehand, and
// the words of the diagram. Both files are made by tests/counts_cases.py: small diagrams are counted by trying every
// valuation, others by a recursion over whole numbers that shares nothing with this code; floats by Python's own, which are IEEE
// doubles.
#![tactic(auto)]

ghost use Rattle.std.specs.Prelude.{◌≤◌, ◌<◌, not, length, T};
ghost use Rattle.std.specs.Float.Ieee.{is_nan};

use cardinality::cardinality;
use cases::{fill, least, line_ends, number, run_of, words_of};
use diagram::limits::{MAX_NODES, MAX_VARIABLES, ROOM_PER_NODE};
use diagram::verdict::{Finding, Refused, Verdict};
use exact_counts::{exact_cardinality, exact_clause_cardinality};
use naturals::{Natural, zero};
use negation::not;
use queries::per_variable::size_per_variable;
use queries::{is_clause, is_false, is_true, is_valuation, num_vars, size};

// The number of standard output.
const STDOUT: i32 = 1;

const TEXT: usize = 524288;

// A few nodes more than a diagram may have: some cases offer and lend more than is taken.
const NODES: usize = MAX_NODES + 4;

const WORDS: usize = 3 * NODES;

const ROOM: usize = ROOM_PER_NODE * NODES;

const OUTPUT: usize = 3 * NODES;

// A word less than the output of the nodes of each variable has to have.
const NARROW: usize = MAX_VARIABLES - 1;

fn say(text: &[u8], value: u64) {
    io::write_all(STDOUT, text);
    io::print_decimal(STDOUT, value);
}

fn say_verdict(verdict: Verdict) {
    match verdict {
        Ok(extent) => {
            say(b"accepted nodes ", extent.nodes as u64);
            say(b" vars ", extent.vars as u64);
        }
        Err(refused) => {
            say(b"refused ", refused.reason.number() as u64);
            say(b" at ", refused.place as u64);
        }
    }
}

// All words, the highest first.
fn say_natural(text: &[u8], natural: Natural) {
    io::write_all(STDOUT, text);
    for word in natural.words.iter().rev() {
        io::print_hex(STDOUT, *word as u64, 8);
    }
}

// Zero where the words are refused.
fn say_count(text: &[u8], counted: Result<Finding<Natural>, Refused>) {
    match counted {
        Ok(found) => say_natural(text, found.value),
        Err(_) => say_natural(text, zero()),
    }
}

// The sixteen hexadecimal digits of a float's bits.
fn say_float(text: &[u8], x: f64)
    requires { T (not (is_nan x)) }
{
    io::write_all(STDOUT, text);
    io::print_hex(STDOUT, f64::to_bits(x), 16);
}

// No where the words are refused.
fn say_yes(text: &[u8], told: Result<Finding<bool>, Refused>) {
    io::write_all(STDOUT, text);
    match told {
        Ok(
            Finding {
                extent: _,
                value: true,
            },
        ) => {
            io::write_all(STDOUT, b"yes");
        }
        _ => {
            io::write_all(STDOUT, b"no");
        }
    }
}

// 0 where the words are refused.
fn say_amount(text: &[u8], told: Result<Finding<usize>, Refused>) {
    match told {
        Ok(found) => say(text, found.value as u64),
        Err(_) => say(text, 0),
    }
}

fn say_words(words: &[u32], count: usize) {
    for word in words.iter().take(count) {
        say(b" ", *word as u64);
    }
}

fn run_float(words: &[u32], room: &mut [u32]) {
    match cardinality(words, room) {
        Ok(found) => say_float(b", float ", found.value),
        Err(_) => say_float(b", float ", 0.0),
    }
}

fn run_counts(words: &[u32], room: &mut [u32]) {
    let valuations = exact_cardinality(words, room);
    say_verdict(valuations.map(|found| found.extent));
    say_count(b", count ", valuations);
    say_count(b", paths ", exact_clause_cardinality(words, room));
    run_float(words, room);
}

fn run_sizes(words: &[u32], room: &mut [u32]) {
    say_amount(b", size ", size(words, room));
    say_amount(b", vars ", num_vars(words, room));
    say_yes(b", true ", is_true(words, room));
    say_yes(b", false ", is_false(words, room));
}

fn run_walks(words: &[u32], room: &mut [u32]) {
    say_yes(b", clause ", is_clause(words, room));
    say_yes(b", valuation ", is_valuation(words, room));
}

fn say_room(room: &[u32], word: u32) {
    let zeros = run_of(room, 0, 0);
    say(b", room zero ", zeros as u64);
    say(b" kept ", run_of(room, zeros, word) as u64);
}

fn listed(verdict: Verdict) -> usize {
    match verdict {
        Ok(extent) => extent.vars as usize,
        Err(_) => 0,
    }
}

// The nodes of each variable; how many words of the output after these are as they were.
fn run_listing(words: &[u32], room: &mut [u32], output: &mut [u32], word: u32) {
    fill(output, word);
    let verdict = size_per_variable(words, room, output);
    say(b", per variable in ", output.len() as u64);
    io::write_all(STDOUT, b" ");
    say_verdict(verdict);
    let count = listed(verdict);
    say(b" kept ", run_of(output, count, word) as u64);
    io::write_all(STDOUT, b" words");
    say_words(output, count);
}

// In a long output, in one of just the length that is asked for, and in one that is a word short.
fn run_per_variable(words: &[u32], room: &mut [u32], output: &mut [u32], word: u32) {
    let mut exact = [0u32; MAX_VARIABLES];
    let mut narrow = [0u32; NARROW];
    run_listing(words, room, output, word);
    run_listing(words, room, &mut exact, word);
    run_listing(words, room, &mut narrow, word);
}

// Negation with an output that is too short for any answer, which has to stay as it was.
fn run_short(words: &[u32], room: &mut [u32]) {
    let mut output = [9u32; 5];
    let negated = not(words, room, &mut output);
    io::write_all(STDOUT, b", short ");
    say_verdict(negated.map(|found| found.extent));
    say(b" kept ", run_of(&output, 0, 9) as u64);
}

fn run_not(words: &[u32], room: &mut [u32], output: &mut [u32], word: u32) {
    fill(output, word);
    let negated = not(words, room, output);
    io::write_all(STDOUT, b", not ");
    say_verdict(negated.map(|found| found.extent));
    say_amount(b" nodes ", negated);
    io::write_all(STDOUT, b" words");
    say_words(output, words.len());
    io::write_all(STDOUT, b"\n");
}

fn blank_output() -> [u32; OUTPUT] {
    [0u32; OUTPUT]
}

fn run_case(words: &[u32], room: &mut [u32], word: u32) {
    let mut output = blank_output();
    fill(room, word);
    run_counts(words, room);
    run_sizes(words, room);
    run_walks(words, room);
    say_room(room, word);
    run_per_variable(words, room, &mut output, word);
    run_short(words, room);
    run_not(words, room, &mut output, word);
}

// One line of the text; the place after it.
fn one_line(text: &[u8], from: usize, words: &mut [u32], room: &mut [u32]) -> usize
    requires { from < length text.now }
    ensures { (from < result) × (result ≤ length text.now) }
{
    let asked = number(text, from);
    let start = asked.next;
    if text.len() <= start {
        return start;
    }
    let word = number(text, start);
    let after = word.next;
    let lent = least(asked.value as usize, room.len());
    if line_ends(text, after) {
        run_case(&words[..0], &mut room[..lent], word.value);
        return after;
    }
    let found = words_of(text, after, words);
    let count = found.count;
    run_case(&words[..count], &mut room[..lent], word.value);
    found.next
}

fn blank_text() -> [u8; TEXT] {
    [0u8; TEXT]
}

fn blank_words() -> [u32; WORDS] {
    [0u32; WORDS]
}

fn blank_room() -> [u32; ROOM] {
    [0u32; ROOM]
}

// All lines of the text.
fn run(text: &[u8], words: &mut [u32], room: &mut [u32]) {
    let mut at = 0;
    while at < text.len() {
        at = one_line(text, at, words, room);
    }
}

fn main() {
    let mut text = blank_text();
    let mut words = blank_words();
    let mut room = blank_room();
    let length = io::read_full(0, &mut text);
    run(&text[..length], &mut words, &mut room);
}
