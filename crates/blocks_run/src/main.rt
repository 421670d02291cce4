// Runs the cases of standard input over block files, texts and reports, and prints the answers. A case is a line of
// decimal numbers: what to do, a length, a filling, and bytes or words.
//     0  read a file from the bytes to that many words of the filling; prints the answer and these words
//     1  write the file of the words to that many bytes of the filling; prints the answer and these bytes
//     2  the report of the bytes, as a block file or, where the length is not 0, as a node file
//     3  take the bytes for a decimal number of 32 bits and print it back, 4 for a hexadecimal one of all words, 5 for a
//        decimal one of all words, and after it its two lowest words as one number
//     6  read one block, as 0: the first two bytes are its number and the nodes that block 0 stated
//     7  the line of a refusal: the filling is its number, the length its place
// Both files are made by tests/blocks_cases.py, from a reading of the rules in force that shares nothing with this code.
#![tactic(auto)]

ghost use Rattle.std.specs.Prelude.{◌≡◌, ◌^◌, ◌≤◌, ◌<◌, length};

use block_file::read::read_file;
use block_file::write::write_file;
use block_reading::read_block;
use blocks::layout::{BLOCK, FILE, FILE_WORDS};
use blocks::stored::Stored;
use cases::{number, words_of};
use diagram::node::word;
use forms::Form;
use messages::refusal::write_refusal;
use naturals::Natural;
use report::lines::REPORT;
use report::weigh::report;
use text::parse::{parse_decimal, parse_hexadecimal, parse_natural};
use text::print::{DECIMAL, write_decimal, write_hexadecimal, write_natural};

// The number of standard output.
const STDOUT: i32 = 1;

const TEXT: usize = 524288;

// The numbers of a case: the bytes of a block more than a file may have, and what stands before them.
const WORDS: usize = FILE + BLOCK + 52;

// More words than the nodes of a file have.
const OUTPUT: usize = FILE_WORDS + 40;

fn say(text: &[u8], value: u64) {
    io::write_all(STDOUT, text);
    io::print_decimal(STDOUT, value);
}

fn say_stored(stored: Stored) {
    match stored {
        Ok(nodes) => say(b"nodes ", nodes as u64),
        Err(refused) => {
            say(b"refused ", refused.reason.number() as u64);
            say(b" at ", refused.place as u64);
        }
    }
}

fn say_words(words: &[u32]) {
    for word in words {
        say(b" ", u64::from(*word));
    }
    io::write_all(STDOUT, b"\n");
}

fn say_bytes(bytes: &[u8]) {
    for byte in bytes {
        say(b" ", u64::from(*byte));
    }
    io::write_all(STDOUT, b"\n");
}

// The low bytes of words, as many as there is place for; how many there are.
fn put_bytes(bytes: &mut [u8], words: &[u32]) -> usize
    ensures { result ≤ length bytes.new }
{
    let end = bytes.len().min(words.len());
    for i in 0..end {
        bytes[i] = (words[i] % 256) as u8;
    }
    end
}

fn blank_output() -> [u32; OUTPUT] {
    [0u32; OUTPUT]
}

fn blank_lines() -> [u8; REPORT] {
    [0u8; REPORT]
}

fn read_to(output: &mut [u32], bytes: &[u8], filling: u32) {
    output.fill(filling);
    let stored = read_file(bytes, output);
    say_stored(stored);
    say_words(output);
}

fn read_case(bytes: &[u8], lent: usize, filling: u32) {
    let mut output = blank_output();
    let end = lent.min(OUTPUT);
    read_to(&mut output[..end], bytes, filling);
}

fn block_to(output: &mut [u32], block: &[u8], number: usize, stated: usize, filling: u32) {
    output.fill(filling);
    let stored = read_block(block, number, stated, output);
    say_stored(stored);
    say_words(output);
}

fn block_case(bytes: &[u8], lent: usize, filling: u32) {
    if bytes.len() < 2 {
        return;
    }
    let number = bytes[0] as usize;
    let stated = bytes[1] as usize;
    let mut output = blank_output();
    let end = lent.min(OUTPUT);
    block_to(&mut output[..end], &bytes[2..], number, stated, filling);
}

fn write_to(file: &mut [u8], words: &[u32], filling: u32) {
    file.fill((filling % 256) as u8);
    let stored = write_file(words, file);
    say_stored(stored);
    say_bytes(file);
}

fn write_case(words: &[u32], lent: usize, filling: u32) {
    let mut file = blank_lines();
    let end = lent.min(REPORT);
    write_to(&mut file[..end], words, filling);
}

fn show(text: &[u8], end: usize) {
    if end <= text.len() {
        io::write_all(STDOUT, &text[..end]);
    }
}

fn form_for(lent: usize) -> Form {
    if lent == 0 {
        return Form::Blocks;
    }
    Form::Nodes
}

fn report_case(bytes: &[u8], lent: usize) {
    let mut lines = blank_lines();
    let end = report(&mut lines, form_for(lent), bytes);
    show(&lines, end);
}

fn refusal_case(number: u32, place: usize) {
    let mut lines = blank_lines();
    let end = write_refusal(&mut lines, 0, number, place);
    show(&lines, end);
}

// A number's text and a line feed.
fn say_text(text: &[u8], end: usize) {
    show(text, end);
    io::write_all(STDOUT, b"\n");
}

fn say_none() {
    io::write_all(STDOUT, b"none\n");
}

fn decimal_case(bytes: &[u8]) {
    let mut text = [0u8; DECIMAL];
    let Some(value) = parse_decimal(bytes) else {
        return say_none();
    };
    let end = write_decimal(&mut text, 0, u64::from(value));
    say_text(&text, end);
}

fn hexadecimal_case(bytes: &[u8]) {
    let mut text = [0u8; DECIMAL];
    let Some(natural) = parse_hexadecimal(bytes) else {
        return say_none();
    };
    let end = write_hexadecimal(&mut text, 0, natural);
    say_text(&text, end);
}

fn lowest(a: Natural) -> u64 {
    u64::from(a.words[1]) * 4294967296 + u64::from(a.words[0])
}

// Two lines, of which both are `none` where it is no number.
fn natural_case(bytes: &[u8]) {
    let mut text = [0u8; DECIMAL];
    let Some(natural) = parse_natural(bytes) else {
        say_none();
        return say_none();
    };
    let end = write_natural(&mut text, 0, natural);
    say_text(&text, end);
    let end = write_decimal(&mut text, 0, lowest(natural));
    say_text(&text, end);
}

fn run_bytes(kind: u32, bytes: &[u8], lent: usize, filling: u32) {
    match kind {
        0 => read_case(bytes, lent, filling),
        2 => report_case(bytes, lent),
        3 => decimal_case(bytes),
        4 => hexadecimal_case(bytes),
        5 => natural_case(bytes),
        6 => block_case(bytes, lent, filling),
        7 => refusal_case(filling, lent),
        _ => {}
    }
}

fn blank_bytes() -> [u8; WORDS] {
    [0u8; WORDS]
}

fn run_case(kind: u32, words: &[u32], lent: usize, filling: u32) {
    if kind == 1 {
        write_case(words, lent, filling);
    } else {
        let mut bytes = blank_bytes();
        let end = put_bytes(&mut bytes, words);
        run_bytes(kind, &bytes[..end], lent, filling);
    }
}

// One line of the text; the place after it.
fn one_line(text: &[u8], from: usize, words: &mut [u32]) -> usize
    requires { from < length text.now }
    ensures { (from < result) × (result ≤ length text.now) }
{
    let first = number(text, from);
    let found = words_of(text, first.next, words);
    let count = found.count;
    if count < 2 {
        return found.next;
    }
    let lent = word(words, 0) as usize;
    let filling = word(words, 1);
    run_case(first.value, &words[2..count], lent, filling);
    found.next
}

fn blank_text() -> [u8; TEXT] {
    [0u8; TEXT]
}

fn blank_words() -> [u32; WORDS] {
    [0u32; WORDS]
}

// All lines of the text.
fn run(text: &[u8], words: &mut [u32]) {
    let mut at = 0;
    while at < text.len() {
        at = one_line(text, at, words);
    }
}

fn main() {
    let mut text = blank_text();
    let mut words = blank_words();
    let length = io::read_full(0, &mut text);
    run(&text[..length], &mut words);
}
