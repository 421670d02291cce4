// Runs the cases of standard input over settings blocks and prints the answers. A case is a line of decimal numbers.
//     0  write: the version, direction, kind, flag, the length of the output and its filling, then the target's words; prints the
//        answer and the output
//     1  read by both readers: the length of the block, then places and bytes, all other bytes being zero; prints both answers
// Of bytes and words each that is not as the one before it is printed with its place, from a zero on, and then how many there are.
// Both files are made by tests/settings_cases.py, from a reading of the rules in force that shares nothing with this code.
#![tactic(auto)]

ghost use Rattle.std.specs.Prelude.{◌≤◌, ◌<◌, length};

use blocks::layout::BLOCK;
use cases::{number, words_of};
use diagram::node::word;
use setting_blocks::layout::TARGET_WORDS;
use setting_blocks::read::{read_settings, read_settings_v1};
use setting_blocks::setting::{Setting, SettingRead, SettingWritten};
use setting_blocks::write::write_settings;

// The number of standard output.
const STDOUT: i32 = 1;

const TEXT: usize = 524288;

// More bytes than a block has.
const LENT: usize = BLOCK + 8;

// The numbers of a case: a place and a byte for each byte that there is room for, and what stands before them.
const WORDS: usize = LENT + LENT + 8;

fn say(text: &[u8], value: u64) {
    io::write_all(STDOUT, text);
    io::print_decimal(STDOUT, value);
}

fn say_change(last: u64, at: usize, value: u64) {
    if value != last {
        say(b" ", at as u64);
        say(b":", value);
    }
}

fn say_words(words: &[u32]) {
    let mut last = 0;
    for (i, word) in words.iter().enumerate() {
        let value = u64::from(*word);
        say_change(last, i, value);
        last = value;
    }
    say(b" of ", words.len() as u64);
    io::write_all(STDOUT, b"\n");
}

fn say_bytes(bytes: &[u8]) {
    let mut last = 0;
    for (i, byte) in bytes.iter().enumerate() {
        let value = u64::from(*byte);
        say_change(last, i, value);
        last = value;
    }
    say(b" of ", bytes.len() as u64);
    io::write_all(STDOUT, b"\n");
}

fn say_target(target: [u32; TARGET_WORDS]) {
    say_words(&target);
}

fn say_read(read: SettingRead) {
    let setting = read.setting;
    let target = setting.target;
    say(b"read ", read.number as u64);
    say(b" ", read.place as u64);
    say(b" ", read.version as u64);
    say(b" ", setting.direction as u64);
    say(b" ", setting.kind as u64);
    say(b" ", setting.as_is as u64);
    say_target(target);
}

fn say_written(written: SettingWritten) {
    say(b"written ", written.number as u64);
    say(b" ", written.place as u64);
    say(b" ", written.bytes as u64);
}

// The words from a place on, and zeros where there are none.
fn target_of(words: &[u32], from: usize) -> [u32; TARGET_WORDS]
    requires { from ≤ 128 }
{
    let mut target = [0u32; TARGET_WORDS];
    for i in 0..TARGET_WORDS {
        target[i] = word(words, from + i);
    }
    target
}

fn write_to(output: &mut [u8], version: u32, setting: Setting, filling: u32) {
    output.fill((filling % 256) as u8);
    let written = write_settings(version, setting, output);
    say_written(written);
    say_bytes(output);
}

fn blank_bytes() -> [u8; LENT] {
    [0u8; LENT]
}

// The setting of the words from a place on.
fn setting_of(words: &[u32], from: usize) -> Setting
    requires { from ≤ 64 }
{
    Setting {
        direction: word(words, from),
        kind: word(words, from + 1),
        as_is: word(words, from + 2),
        target: target_of(words, from + 5),
    }
}

fn write_case(words: &[u32]) {
    let mut output = blank_bytes();
    let end = (word(words, 4) as usize).min(LENT);
    write_to(
        &mut output[0..end],
        word(words, 0),
        setting_of(words, 1),
        word(words, 5),
    );
}

fn put_byte(bytes: &mut [u8], at: usize, byte: u32) {
    if at < bytes.len() {
        bytes[at] = (byte % 256) as u8;
    }
}

// Each place gets its byte, where there is such a place.
fn put_bytes(bytes: &mut [u8], pairs: &[u32]) {
    for pair in pairs.chunks(2) {
        put_byte(bytes, word(pair, 0) as usize, word(pair, 1));
    }
}

fn read_from(block: &mut [u8], pairs: &[u32]) {
    put_bytes(block, pairs);
    say_read(read_settings(block));
    say_read(read_settings_v1(block));
}

fn read_case(words: &[u32]) {
    if words.len() < 1 {
        return;
    }
    let mut bytes = blank_bytes();
    let end = (word(words, 0) as usize).min(LENT);
    read_from(&mut bytes[0..end], &words[1..]);
}

fn run_case(kind: u32, words: &[u32]) {
    if kind == 0 {
        write_case(words);
    } else {
        read_case(words);
    }
}

// One line of the text; the place after it.
fn one_line(text: &[u8], from: usize, words: &mut [u32]) -> usize
    requires { from < length text.now }
    ensures { (from < result) × (result ≤ length text.now) }
{
    let first = number(text, from);
    let found = words_of(text, first.next, words);
    let count = found.count;
    run_case(first.value, &words[0..count]);
    found.next
}

fn blank_text() -> [u8; TEXT] {
    [0u8; TEXT]
}

fn blank_words() -> [u32; WORDS] {
    [0u32; WORDS]
}

// All lines of the text.
fn run(text: &[u8], words: &mut [u32]) {
    let mut at = 0;
    while at < text.len() {
        at = one_line(text, at, words);
    }
}

fn main() {
    let mut text = blank_text();
    let mut words = blank_words();
    let length = io::read_full(0, &mut text);
    run(&text[..length], &mut words);
}
