// Runs the cuts over the cases of standard input and prints a line for each. A case is a line: the letter of the operation,
// right after it the length of the working room, and then, with blanks between, the word that the room is filled with beforehand,
// the same two of the output, how many words the list or the target has, these words, and the words of the diagram. Letters: u
// and o cut by a list, s and t to a size, c and d to a count; u, s and c from below, o, t and d from above. S, T, C and D are asked to
// leave words that meet the target as they are.
// The answer is the verdict; how many nodes and trials were answered; of the room afterwards how many words at its front are
// zero and how many after these are as they were; how many words of the output beyond the result are as they were; and the
// result's words. Both files are made by tests/cuts_cases.py, which has the Rust text answer what document 01 does not refuse.
#![tactic(auto)]

ghost use Rattle.std.specs.Prelude.{◌≤◌, ◌<◌, length};

use cases::{fill, least, run_of, words_of};
use count_targets::count::{overapproximate_to_cardinality, underapproximate_to_cardinality};
use diagram::limits::{MAX_NODES, ROOM_PER_NODE};
use diagram::node::word;
use diagram::verdict::{Finding, Refused};
use list_cuts::{overapproximate, underapproximate};
use naturals::{Natural, load, zero};
use targets::Approximated;
use targets::size::{overapproximate_to_size, underapproximate_to_size};
use trials::answers::Answer;

// The number of standard output.
const STDOUT: i32 = 1;

const TEXT: usize = 655360;

// A few nodes more than a diagram may have: some cases offer and lend more than is taken.
const NODES: usize = MAX_NODES + 4;

// With what stands before the words of a diagram, a list among it.
const WORDS: usize = 3 * NODES + 100;

const OUTPUT: usize = 3 * NODES;

const ROOM: usize = ROOM_PER_NODE * NODES;

// What a line has before the list or the target.
const BEFORE: usize = 5;

fn say(text: &[u8], value: u64) {
    io::write_all(STDOUT, text);
    io::print_decimal(STDOUT, value);
}

fn say_refused(number: u32, place: usize) {
    say(b"refused ", number as u64);
    say(b" at ", place as u64);
}

// A letter that no operation has is refused with number 0.
fn say_verdict(asked: Option<Approximated>) {
    match asked {
        Some(Ok(found)) => {
            say(b"accepted nodes ", found.extent.nodes as u64);
            say(b" vars ", found.extent.vars as u64);
        }
        Some(Err(refused)) => say_refused(refused.reason.number(), refused.place),
        None => say_refused(0, 0),
    }
}

// No nodes and no trials where the case is refused.
fn answer_of(asked: Option<Approximated>) -> Answer {
    match asked {
        Some(Ok(found)) => found.value,
        _ => Answer {
            nodes: 0,
            trials: 0,
        },
    }
}

fn say_room(room: &[u32], word: u32) {
    let zeros = run_of(room, 0, 0);
    say(b", room zero ", zeros as u64);
    say(b" kept ", run_of(room, zeros, word) as u64);
}

fn say_words(words: &[u32], count: usize) {
    io::write_all(STDOUT, b", words");
    let end = least(count, words.len());
    for word in &words[..end] {
        say(b" ", *word as u64);
    }
}

// What the output has: the words of that many nodes, and words as they were.
fn say_output(output: &[u32], word: u32, nodes: usize) {
    let count = 3 * least(nodes, MAX_NODES);
    say(b", output kept ", run_of(output, count, word) as u64);
    if 0 < count {
        say_words(output, count);
    }
    io::write_all(STDOUT, b"\n");
}

// A cut by a list makes no trials.
fn by_list(cut: Result<Finding<usize>, Refused>) -> Approximated {
    let found = cut?;
    let value = Answer {
        nodes: found.value,
        trials: 0,
    };
    Ok(Finding {
        extent: found.extent,
        value,
    })
}

// A count target: the words of a count, least first.
fn count_of(list: &[u32]) -> Natural {
    load(list, 0).unwrap_or(zero())
}

// The answer; none where no operation has the letter.
fn ask(
    letter: u8,
    as_is: bool,
    words: &[u32],
    list: &[u32],
    room: &mut [u32],
    output: &mut [u32],
) -> Option<Approximated> {
    match letter {
        b'u' => Some(by_list(underapproximate(words, list, room, output))),
        b'o' => Some(by_list(overapproximate(words, list, room, output))),
        b's' => Some(underapproximate_to_size(words, word(list, 0), as_is, room, output)),
        b't' => Some(overapproximate_to_size(words, word(list, 0), as_is, room, output)),
        b'c' => Some(underapproximate_to_cardinality(words, count_of(list), as_is, room, output)),
        b'd' => Some(overapproximate_to_cardinality(words, count_of(list), as_is, room, output)),
        _ => None,
    }
}

fn run_case(
    letter: u8,
    words: &[u32],
    list: &[u32],
    room: &mut [u32],
    marked: u32,
    output: &mut [u32],
    filled: u32,
) {
    fill(output, filled);
    fill(room, marked);
    let as_is = letter.is_ascii_uppercase();
    let asked = ask(
        letter.to_ascii_lowercase(),
        as_is,
        words,
        list,
        room,
        output,
    );
    say_verdict(asked);
    let answer = answer_of(asked);
    say(b", answer nodes ", answer.nodes as u64);
    say(b" trials ", answer.trials as u64);
    say_room(room, marked);
    say_output(output, filled, answer.nodes);
}

// The numbers of a line, after its letter.
fn run_line(letter: u8, numbers: &[u32], room: &mut [u32], output: &mut [u32]) {
    if numbers.len() < BEFORE {
        return;
    }
    let lent_room = least(word(numbers, 0) as usize, room.len());
    let lent_output = least(word(numbers, 2) as usize, output.len());
    let split = BEFORE + least(word(numbers, 4) as usize, numbers.len() - BEFORE);
    run_case(
        letter,
        &numbers[split..],
        &numbers[BEFORE..split],
        &mut room[..lent_room],
        word(numbers, 1),
        &mut output[..lent_output],
        word(numbers, 3),
    );
}

// One line of the text; the place after it.
fn one_line(
    text: &[u8],
    from: usize,
    words: &mut [u32],
    output: &mut [u32],
    room: &mut [u32],
) -> usize
    requires { from < length text.now }
    ensures { (from < result) × (result ≤ length text.now) }
{
    let letter = text[from];
    let found = words_of(text, from + 1, words);
    run_line(letter, &words[..found.count], room, output);
    found.next
}

fn blank_text() -> [u8; TEXT] {
    [0u8; TEXT]
}

fn blank_words() -> [u32; WORDS] {
    [0u32; WORDS]
}

fn blank_output() -> [u32; OUTPUT] {
    [0u32; OUTPUT]
}

fn blank_room() -> [u32; ROOM] {
    [0u32; ROOM]
}

// All lines of the text.
fn run(text: &[u8], words: &mut [u32], output: &mut [u32], room: &mut [u32]) {
    let mut at = 0;
    while at < text.len() {
        at = one_line(text, at, words, output, room);
    }
}

fn main() {
    let mut text = blank_text();
    let mut words = blank_words();
    let mut output = blank_output();
    let mut room = blank_room();
    let length = io::read_full(0, &mut text);
    run(&text[..length], &mut words, &mut output, &mut room);
}
