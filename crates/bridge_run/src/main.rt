// Asks exported functions, one for each struct that they answer with, of the diagram D of document 01: number, place, nodes and vars
// of the verdict, then the value. Then a cut to a size that is met, x1 under a root with low = high: reduced, and as it is. Then a
// refusal: two nodes of which the second is no terminal. Then D beside x2, in a table for their seven pairs and in one for six; and the
// two words that are no diagram in second place. Then node files: a variable is too wide, and the bytes read as they were; D, there and
// back; and a byte is missing.
#![tactic(auto)]

use diagram::limits::ROOM_PER_NODE;
use diagram::node::word;
use flat::{HouayletanComparison, HouayletanStored, HouayletanVerdict};
use houayletan::asking::houayletan_is_false_3;
use houayletan::comparing::houayletan_compare_3;
use houayletan::cutting::{houayletan_overapproximate_3, houayletan_underapproximate_to_size_3};
use houayletan::storing::{houayletan_read_as_bytes_3, houayletan_write_as_bytes_3};
use houayletan::{houayletan_exact_cardinality_3, houayletan_validate_3};
use pairs::table::PAIR_WORDS;

// The number of standard output.
const STDOUT: i32 = 1;

fn say(text: &[u8], value: u64) {
    io::write_all(STDOUT, text);
    io::print_decimal(STDOUT, value);
}

fn say_verdict(verdict: HouayletanVerdict) {
    say(b"number ", verdict.number as u64);
    say(b" place ", verdict.place as u64);
    say(b" nodes ", verdict.nodes as u64);
    say(b" vars ", verdict.vars as u64);
}

fn end_line() {
    io::write_all(STDOUT, b"\n");
}

fn check(words: &[u32], room: &mut [u32]) {
    say_verdict(houayletan_validate_3(words, room));
    end_line();
}

fn count(words: &[u32], room: &mut [u32]) {
    let answer = houayletan_exact_cardinality_3(words, room);
    let verdict = answer.verdict;
    let count = answer.count;
    say_verdict(verdict);
    say(b", count ", word(&count, 0) as u64);
    end_line();
}

fn ask(words: &[u32], room: &mut [u32]) {
    let answer = houayletan_is_false_3(words, room);
    let verdict = answer.verdict;
    say_verdict(verdict);
    say(b", amount ", answer.amount as u64);
    end_line();
}

fn cut(words: &[u32], room: &mut [u32], output: &mut [u32]) {
    let list = [3u32; 1];
    let answer = houayletan_overapproximate_3(words, &list, room, output);
    let verdict = answer.verdict;
    say_verdict(verdict);
    say(b", nodes ", answer.nodes as u64);
    say(b", last link ", word(output, 11) as u64);
    end_line();
}

fn cut_to_size(words: &[u32], as_is: u32, room: &mut [u32], output: &mut [u32]) {
    let answer = houayletan_underapproximate_to_size_3(words, 4, as_is, room, output);
    let verdict = answer.verdict;
    say_verdict(verdict);
    say(b", nodes ", answer.nodes as u64);
    say(b", trials ", answer.trials as u64);
    say(b", last link ", word(output, 11) as u64);
    end_line();
}

fn say_count(text: &[u8], count: [u32; naturals::WORDS]) {
    say(text, word(&count, 0) as u64);
}

fn say_comparison(answer: HouayletanComparison) {
    let verdict = answer.verdict;
    let first = answer.first;
    let second = answer.second;
    let both = answer.both;
    let smallest = answer.smallest;
    say_verdict(verdict);
    say(b", of ", answer.which as u64);
    say(b", differ ", answer.differ as u64);
    say_count(b", first ", first);
    say_count(b", second ", second);
    say_count(b", both ", both);
    say_count(b", smallest ", smallest);
    end_line();
}

fn compare(first: &[u32], second: &[u32], room: &mut [u32], table: &mut [u32]) {
    let answer = houayletan_compare_3(first, second, room, table);
    say_comparison(answer);
}

fn compare_in(first: &[u32], second: &[u32], room: &mut [u32]) {
    let mut table = [9u32; 7 * PAIR_WORDS];
    compare(first, second, room, &mut table);
    let mut short = [9u32; 6 * PAIR_WORDS];
    compare(first, second, room, &mut short);
}

fn say_stored(stored: HouayletanStored) {
    say(b"number ", stored.number as u64);
    say(b" place ", stored.place as u64);
    say(b" nodes ", stored.nodes as u64);
}

fn fetch(bytes: &[u8], output: &mut [u32]) {
    say_stored(houayletan_read_as_bytes_3(bytes, output));
    say(b", last link ", word(output, 14) as u64);
    end_line();
}

fn store(words: &[u32], bytes: &mut [u8], output: &mut [u32]) {
    say_stored(houayletan_write_as_bytes_3(words, bytes));
    end_line();
    fetch(bytes, output);
}

fn files(words: &[u32]) {
    let mut bytes = [9u8; 50];
    let mut output = [8u32; 15];
    let wide = [0u32, 0, 0, 65536, 0, 0];
    store(&wide, &mut bytes, &mut output);
    store(words, &mut bytes, &mut output);
    let short = [9u8; 49];
    fetch(&short, &mut output);
}

fn main() {
    let words = [3u32, 0, 0, 3, 1, 1, 2, 0, 1, 1, 2, 1, 0, 2, 3];
    let mut room = [7u32; 5 * ROOM_PER_NODE];
    let mut output = [9u32; 15];
    check(&words, &mut room);
    count(&words, &mut room);
    ask(&words, &mut room);
    cut(&words, &mut room, &mut output);
    cut_to_size(&words, 0, &mut room, &mut output);
    let met = [2u32, 0, 0, 2, 1, 1, 1, 0, 1, 0, 2, 2];
    cut_to_size(&met, 0, &mut room, &mut output);
    cut_to_size(&met, 7, &mut room, &mut output);
    let other = [0u32; 6];
    check(&other, &mut room);
    let last = [3u32, 0, 0, 3, 1, 1, 2, 0, 1];
    compare_in(&words, &last, &mut room);
    compare_in(&words, &other, &mut room);
    files(&words);
}
