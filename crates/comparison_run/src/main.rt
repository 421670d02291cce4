// Runs `compare` over the cases of standard input and prints a line for each answer. A case is a line of decimal numbers: the length of
// the working room and the word that it is filled with beforehand, the same of the pair table, how many words the first diagram has,
// these, and the words of the second. The answer is the verdict, with the diagram that a refusal is about; the counts of the
// valuations that hold in the first only, in the second only and in both; whether they differ, and the smallest valuation in which
// they do; and of room and table afterwards how many words at the front are zero and how many after these are as they were. Counts and
// the valuation are hexadecimal. Both files are made by tests/comparison_cases.py, from a reading of the rules in force that shares
// nothing with this code.
#![tactic(auto)]

ghost use Rattle.std.specs.Prelude.{◌≤◌, ◌<◌, length};

use cases::{fill, least, number, run_of, words_of};
use comparison::compare::{Compared, compare};
use diagram::limits::{MAX_NODES, ROOM_PER_NODE};
use diagram::node::word;
use diagram::verdict::Verdict;
use naturals::{Natural, zero};
use pairs::table::PAIR_WORDS;

// The number of standard output.
const STDOUT: i32 = 1;

const TEXT: usize = 524288;

// A few nodes more than a diagram may have: some cases offer more than is taken.
const NODES: usize = MAX_NODES + 4;

// Two diagrams.
const WORDS: usize = 6 * NODES;

// The room of the largest diagram that is compared here, and some.
const ROOM: usize = ROOM_PER_NODE * 1024;

const PAIRS: usize = 4096;

const TABLE: usize = PAIR_WORDS * PAIRS;

// The numbers of a line before the diagrams, without the first one.
const LEADING: usize = 4;

fn say(text: &[u8], value: u64) {
    io::write_all(STDOUT, text);
    io::print_decimal(STDOUT, value);
}

fn say_verdict(verdict: Verdict, which: u32) {
    match verdict {
        Ok(extent) => {
            say(b"accepted pairs ", extent.nodes as u64);
            say(b" vars ", u64::from(extent.vars));
        }
        Err(refused) => {
            say(b"refused ", u64::from(refused.reason.number()));
            say(b" at ", refused.place as u64);
        }
    }
    say(b" which ", u64::from(which));
}

fn say_left(name: &[u8], lent: &[u32], word: u32) {
    let zeros = run_of(lent, 0, 0);
    io::write_all(STDOUT, name);
    say(b" zero ", zeros as u64);
    say(b" kept ", run_of(lent, zeros, word) as u64);
}

fn hex(x: u32, width: usize) {
    io::print_hex(STDOUT, x as u64, width);
}

// Without zeros in front.
fn show(a: Natural) {
    let mut begun = false;
    for word in a.words.iter().rev() {
        let x = *word;
        if begun {
            hex(x, 8);
        } else {
            if x != 0 {
                hex(x, 1);
                begun = true;
            }
        }
    }
    if !begun {
        io::write_all(STDOUT, b"0");
    }
}

fn say_number(name: &[u8], a: Natural) {
    io::write_all(STDOUT, name);
    show(a);
}

fn say_numbers(first: Natural, second: Natural, both: Natural, smallest: Option<Natural>) {
    say_number(b", first ", first);
    say_number(b" second ", second);
    say_number(b" both ", both);
    if smallest.is_some() {
        io::write_all(STDOUT, b", differ yes");
    } else {
        io::write_all(STDOUT, b", differ no");
    }
    say_number(b" smallest ", smallest.unwrap_or(zero()));
}

fn say_answer(answer: Compared) {
    match answer {
        Ok(found) => {
            let told = found.value;
            say_verdict(Ok(found.extent), 0);
            say_numbers(told.first, told.second, told.both, told.smallest);
        }
        Err(refusal) => {
            say_verdict(Err(refusal.refused), refusal.which.number());
            say_numbers(zero(), zero(), zero(), None);
        }
    }
}

fn run_case(
    first: &[u32],
    second: &[u32],
    room: &mut [u32],
    table: &mut [u32],
    marked: u32,
    filled: u32,
) {
    fill(room, marked);
    fill(table, filled);
    say_answer(compare(first, second, room, table));
    say_left(b", room", room, marked);
    say_left(b", table", table, filled);
    io::write_all(STDOUT, b"\n");
}

// One line of the text; the place after it.
fn one_line(
    text: &[u8],
    from: usize,
    words: &mut [u32],
    room: &mut [u32],
    table: &mut [u32],
) -> usize
    requires { from < length text.now }
    ensures { (from < result) × (result ≤ length text.now) }
{
    let first = number(text, from);
    let found = words_of(text, first.next, words);
    let count = found.count;
    if count < LEADING {
        return found.next;
    }
    let lent_room = least(first.value as usize, room.len());
    let marked = word(words, 0);
    let lent_table = least(word(words, 1) as usize, table.len());
    let filled = word(words, 2);
    let middle = LEADING + least(word(words, 3) as usize, count - LEADING);
    run_case(
        &words[LEADING..middle],
        &words[middle..count],
        &mut room[..lent_room],
        &mut table[..lent_table],
        marked,
        filled,
    );
    found.next
}

fn blank_text() -> [u8; TEXT] {
    [0u8; TEXT]
}

fn blank_words() -> [u32; WORDS] {
    [0u32; WORDS]
}

fn blank_room() -> [u32; ROOM] {
    [0u32; ROOM]
}

fn blank_table() -> [u32; TABLE] {
    [0u32; TABLE]
}

// All lines of the text.
fn run(text: &[u8], words: &mut [u32], room: &mut [u32], table: &mut [u32]) {
    let mut at = 0;
    while at < text.len() {
        at = one_line(text, at, words, room, table);
    }
}

fn main() {
    let mut text = blank_text();
    let mut words = blank_words();
    let mut room = blank_room();
    let mut table = blank_table();
    let length = io::read_full(0, &mut text);
    run(&text[..length], &mut words, &mut room, &mut table);
}
