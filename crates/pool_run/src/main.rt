// Runs the calls to a pool that standard input has, one after the other, and prints a line for each. Table and slots stay between the
// calls. A line of input is a letter, right after it a number, and then, with blanks between, the other numbers:
//     z word                                  fills table and slots
//     t place words..                         writes words in the table, from a place on
//     s place words..                         the same in the slots
//     a table slots slot high room words..    adds: lent are so many words of table, slots and room; the slot is slot + 2^32 high
//     d table slots slot high                 drops
//     r table slots slot high room output     reads; room and output are filled beforehand
// The answer is the verdict; of the room afterwards how many words at its front are zero and how many after these are as they were; after
// adding and dropping the words that table and slots then have, after reading those of the answer and how many words of the output behind
// them are as they were. Words are shown where they are few; else there is a sum of them, which is another one where any one word is
// another. Both files are made by tests/pool_cases.py, from a reading of document 02 that shares nothing with this code.
#![tactic(auto)]

ghost use Rattle.std.specs.Prelude.{◌≤◌, ◌<◌, length};

use cases::{fill, least, run_of, words_of};
use diagram::limits::{MAX_NODES, ROOM_PER_NODE};
use diagram::node::word;
use diagram::room::put;
use diagram::verdict::Verdict;
use pool_calls::add::add;
use pool_calls::drop::drop;
use pool_calls::read::read;

// The number of standard output.
const STDOUT: i32 = 1;

const TEXT: usize = 1310720;

// A place more than a pool may have, and a word.
const TABLE: usize = 3 * MAX_NODES + 4;

const SLOTS: usize = 66;

// A diagram of a node more than is taken, and what stands before it.
const WORDS: usize = 3 * MAX_NODES + 8;

const ROOM: usize = ROOM_PER_NODE * MAX_NODES + 4;

const OUTPUT: usize = 3 * MAX_NODES + 4;

// What room and output are filled with.
const MARK: u32 = 7;

const FILL: u32 = 9;

// Words that are shown, and not summed.
const FEW: usize = 24;

// The numbers of a line that adds, before the diagram.
const BEFORE: usize = 5;

// A prime above all words, and what a sum is scaled by for each.
const MODULUS: u64 = 4294967311;

const SCALE: u64 = 2654435761;

fn say(text: &[u8], value: u64) {
    io::write_all(STDOUT, text);
    io::print_decimal(STDOUT, value);
}

fn say_verdict(name: &[u8], verdict: Verdict) {
    io::write_all(STDOUT, name);
    match verdict {
        Ok(extent) => {
            say(b" accepted nodes ", extent.nodes as u64);
            say(b" vars ", extent.vars as u64);
        }
        Err(refused) => {
            say(b" refused ", refused.reason.number() as u64);
            say(b" at ", refused.place as u64);
        }
    }
}

fn say_room(room: &[u32]) {
    let zeros = run_of(room, 0, 0);
    say(b", room zero ", zeros as u64);
    say(b" kept ", run_of(room, zeros, MARK) as u64);
}

// A sum with one word more.
fn with_word(sum: u64, word: u32) -> u64
    requires { sum < 4294967311 }
    ensures { result < 4294967311 }
{
    (sum * SCALE + word as u64) % MODULUS
}

fn sum_of(words: &[u32]) -> u64 {
    let mut sum: u64 = 0;
    for word in words {
        sum = with_word(sum, *word);
    }
    sum
}

fn say_word(word: u32) {
    say(b" ", word as u64);
}

fn list(words: &[u32]) {
    for word in words {
        say_word(*word);
    }
}

fn say_words(name: &[u8], words: &[u32]) {
    io::write_all(STDOUT, name);
    if FEW < words.len() {
        say(b" sum ", sum_of(words));
        return;
    }
    list(words);
}

fn say_pool(table: &[u32], slots: &[u32]) {
    say_words(b", table", table);
    say_words(b", slots", slots);
    io::write_all(STDOUT, b"\n");
}

// How many nodes were answered, none where it is refused.
fn answered(verdict: Verdict) -> usize {
    verdict.map_or(0, |extent| extent.nodes)
}

fn say_output(output: &[u32], nodes: usize) {
    let count = least(3 * least(nodes, MAX_NODES), output.len());
    say_words(b", output", &output[..count]);
    say(b" kept ", run_of(output, count, FILL) as u64);
    io::write_all(STDOUT, b"\n");
}

fn run_add(table: &mut [u32], slots: &mut [u32], words: &[u32], slot: usize, room: &mut [u32]) {
    fill(room, MARK);
    let verdict = add(table, slots, words, slot, room);
    say_verdict(b"add", verdict);
    say_room(room);
    say_pool(table, slots);
}

fn run_drop(table: &mut [u32], slots: &mut [u32], slot: usize) {
    let verdict = drop(table, slots, slot);
    say_verdict(b"drop", verdict);
    say_pool(table, slots);
}

fn run_read(table: &[u32], slots: &[u32], slot: usize, room: &mut [u32], output: &mut [u32]) {
    fill(room, MARK);
    fill(output, FILL);
    let verdict = read(table, slots, slot, room, output);
    say_verdict(b"read", verdict);
    say_room(room);
    say_output(output, answered(verdict));
}

fn slot_of(low: u32, high: u32) -> usize {
    low as usize + high as usize * 4294967296
}

fn slot_in(numbers: &[u32]) -> usize {
    slot_of(word(numbers, 2), word(numbers, 3))
}

// As many words as a line says, or all there are.
fn lent(numbers: &[u32], at: usize, all: usize) -> usize
    ensures { result ≤ all }
{
    least(word(numbers, at) as usize, all)
}

fn add_line(numbers: &[u32], table: &mut [u32], slots: &mut [u32], room: &mut [u32]) {
    if numbers.len() < BEFORE {
        return;
    }
    let places = lent(numbers, 0, table.len());
    let names = lent(numbers, 1, slots.len());
    let rest = lent(numbers, 4, room.len());
    run_add(
        &mut table[..places],
        &mut slots[..names],
        &numbers[BEFORE..],
        slot_in(numbers),
        &mut room[..rest],
    );
}

fn drop_line(numbers: &[u32], table: &mut [u32], slots: &mut [u32]) {
    let places = lent(numbers, 0, table.len());
    let names = lent(numbers, 1, slots.len());
    run_drop(&mut table[..places], &mut slots[..names], slot_in(numbers));
}

fn read_line(numbers: &[u32], table: &[u32], slots: &[u32], room: &mut [u32], output: &mut [u32]) {
    let places = lent(numbers, 0, table.len());
    let names = lent(numbers, 1, slots.len());
    let rest = lent(numbers, 4, room.len());
    let shown = lent(numbers, 5, output.len());
    run_read(
        &table[..places],
        &slots[..names],
        slot_in(numbers),
        &mut room[..rest],
        &mut output[..shown],
    );
}

// Writes the numbers but the first, which is the place for them.
fn write(numbers: &[u32], to: &mut [u32]) {
    let from = word(numbers, 0) as usize;
    for i in 1..numbers.len() {
        put(to, from + (i - 1), word(numbers, i));
    }
}

fn run_line(
    letter: u8,
    numbers: &[u32],
    table: &mut [u32],
    slots: &mut [u32],
    room: &mut [u32],
    output: &mut [u32],
) {
    match letter {
        b'a' => add_line(numbers, table, slots, room),
        b'd' => drop_line(numbers, table, slots),
        b'r' => read_line(numbers, table, slots, room, output),
        b's' => write(numbers, slots),
        b't' => write(numbers, table),
        // z
        _ => {
            fill(table, word(numbers, 0));
            fill(slots, word(numbers, 0));
        }
    }
}

// One line of the text; the place after it.
fn one_line(
    text: &[u8],
    from: usize,
    words: &mut [u32],
    table: &mut [u32],
    slots: &mut [u32],
    room: &mut [u32],
    output: &mut [u32],
) -> usize
    requires { from < length text.now }
    ensures { (from < result) × (result ≤ length text.now) }
{
    let letter = text[from];
    let found = words_of(text, from + 1, words);
    run_line(letter, &words[..found.count], table, slots, room, output);
    found.next
}

fn blank_text() -> [u8; TEXT] {
    [0u8; TEXT]
}

fn blank_words() -> [u32; WORDS] {
    [0u32; WORDS]
}

fn blank_table() -> [u32; TABLE] {
    [0u32; TABLE]
}

fn blank_slots() -> [u32; SLOTS] {
    [0u32; SLOTS]
}

fn blank_room() -> [u32; ROOM] {
    [0u32; ROOM]
}

fn blank_output() -> [u32; OUTPUT] {
    [0u32; OUTPUT]
}

// All lines of the text.
fn run(
    text: &[u8],
    words: &mut [u32],
    table: &mut [u32],
    slots: &mut [u32],
    room: &mut [u32],
    output: &mut [u32],
) {
    let mut at = 0;
    while at < text.len() {
        at = one_line(text, at, words, table, slots, room, output);
    }
}

fn main() {
    let mut text = blank_text();
    let mut words = blank_words();
    let mut table = blank_table();
    let mut slots = blank_slots();
    let mut room = blank_room();
    let mut output = blank_output();
    let length = io::read_full(0, &mut text);
    run(
        &text[..length],
        &mut words,
        &mut table,
        &mut slots,
        &mut room,
        &mut output,
    );
}
