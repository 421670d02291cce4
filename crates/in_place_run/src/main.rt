// Runs every function of `in_place` and `in_place_more` over fixed cases and writes one line for each, in hex. The expected output was
// computed apart from this code by tests/in_place_cases.py, with whole numbers of any size.
#![tactic(auto)]

ghost use Rattle.std.specs.Prelude.{◌≡◌, ◌*◌, ◌≤◌, ◌<◌, length};
ghost use Rattle.naturals.specs.Natural.{word_count};
ghost use Rattle.in_place_run.specs.Room.{room_length};

use in_place::sum::{Shifted, add_shifted, words_for};
use in_place_more::comparing::compare_at;
use in_place_more::difference::subtract_from_power;
use in_place_more::product::multiply_at;
use naturals::{WORD_BITS, WORDS};
use std::cmp::Ordering;

// The number of standard output.
const STDOUT: i32 = 1;

const SAMPLES: usize = 5;

// The bits of a number, and those of its lower half.
const BITS: u32 = WORD_BITS * WORDS as u32;

const HALF: u32 = BITS / 2;

const SHIFT_PAIRS: usize = 8;

// Two for each sum.
const SHIFTS: [(u32, u32); SHIFT_PAIRS] = [
    (0, 0),
    (31, 31),
    (33, 32),
    (64, 95),
    (HALF - 1, HALF - 1),
    (HALF + 1, HALF),
    (1, HALF + 32),
    (BITS - 1, 4294967295),
];

const USED_COUNT: usize = 3;

const USED: [usize; USED_COUNT] = [WORDS, WORDS / 2 + 1, 0];

// Two numbers, a place for their sum, and words behind it.
const ROOM: usize = 4 * WORDS;

const SECOND: usize = WORDS;

const THIRD: usize = 2 * WORDS;

const PLACE_COUNT: usize = 7;

const TOP: usize = 18446744073709551615;

// The last one inside, and the next; of those near the top, one and the words of a number make TOP, the next ones more than that.
const PLACES: [usize; PLACE_COUNT] = [
    0,
    1,
    ROOM - WORDS,
    ROOM - WORDS + 1,
    TOP - WORDS,
    TOP - WORDS + 1,
    TOP,
];

const BEHIND: u32 = 3735928559;

fn text(s: &[u8]) {
    io::write_all(STDOUT, s);
}

fn number(n: u64) {
    io::print_decimal(STDOUT, n);
    text(b" ");
}

// Word i of a sample.
fn sample(k: usize, i: usize) -> u32 {
    match k {
        0 => 0,
        1 => if i == 0 { 1 } else { 0 },
        2 => if i < WORDS / 2 { 4294967295 } else { 0 },
        3 => 4294967295,
        _ => between(i),
    }
}

// In the lower half, above a zero, words that all differ and are large.
fn between(i: usize) -> u32 {
    if i == 0 {
        return 0;
    }
    if i < WORDS / 2 {
        return 4294967295 - 65537 * i as u32;
    }
    0
}

fn room(a: usize, b: usize) -> [u32; ROOM] {
    let mut s = [BEHIND; ROOM];
    for i in 0..WORDS {
        s[i] = sample(a, i);
        s[SECOND + i] = sample(b, i);
    }
    s
}

// The number at a place, without zeros in front.
fn show(s: &[u32], at: usize) {
    let mut begun = false;
    for i in (0..WORDS).rev() {
        let x = word(s, at, i);
        if begun {
            io::print_hex(STDOUT, x as u64, 8);
        } else if x != 0 {
            io::print_hex(STDOUT, x as u64, 1);
            begun = true;
        }
    }
    if !begun {
        text(b"0");
    }
}

fn word(s: &[u32], at: usize, i: usize) -> u32 {
    if s.len() <= i {
        return 0;
    }
    if s.len() - i <= at {
        return 0;
    }
    s[at + i]
}

// Whether the numbers that are not `but`, and the words behind them, are as they were.
fn is_kept(s: &[u32], a: usize, b: usize, but: usize) -> bool {
    for i in 0..WORDS {
        if but != 0 && word(s, 0, i) != sample(a, i) {
            return false;
        }
        if word(s, SECOND, i) != sample(b, i) {
            return false;
        }
        if but != THIRD && word(s, THIRD, i) != BEHIND {
            return false;
        }
        if word(s, THIRD + WORDS, i) != BEHIND {
            return false;
        }
    }
    true
}

fn show_result(fits: bool, s: &[u32], a: usize, b: usize, at: usize) {
    if fits {
        text(b"= ");
    } else {
        text(b"! ");
    }
    show(s, at);
    if !is_kept(s, a, b, at) {
        text(b" CHANGED");
    }
    text(b"\n");
}

fn label(name: &[u8], a: usize, b: usize) {
    text(name);
    number(a as u64);
    number(b as u64);
}

fn sum_to_third(s: &mut [u32], j: u32, k: u32, used: usize) -> bool
    requires { (length s.old ≡ room_length) × (used ≤ word_count) }
{
    let a = Shifted { at: 0, bits: j };
    let b = Shifted {
        at: SECOND,
        bits: k,
    };
    add_shifted(s, THIRD, a, b, used)
}

fn sum_to_first(s: &mut [u32], k: u32, used: usize) -> bool
    requires { (length s.old ≡ room_length) × (used ≤ word_count) }
{
    let a = Shifted { at: 0, bits: 0 };
    let b = Shifted {
        at: SECOND,
        bits: k,
    };
    add_shifted(s, 0, a, b, used)
}

fn product_to_first(s: &mut [u32], used: usize) -> bool
    requires { (length s.old ≡ room_length) × (used ≤ word_count) }
{
    if used == 0 {
        return multiply_at(s, 0, 0, SECOND, WORDS);
    }
    multiply_at(s, 0, used, SECOND, WORDS + 1 - used)
}

fn sums(a: usize, b: usize, j: u32, k: u32, used: usize)
    requires { used ≤ word_count }
{
    label(b"sum ", a, b);
    number(j as u64);
    number(k as u64);
    number(used as u64);
    let mut s = room(a, b);
    let fits = sum_to_third(&mut s, j, k, used);
    show_result(fits, &s, a, b, THIRD);
    label(b"more ", a, b);
    number(k as u64);
    number(used as u64);
    let mut t = room(a, b);
    let more = sum_to_first(&mut t, k, used);
    show_result(more, &t, a, b, 0);
}

fn show_order(o: Ordering) {
    match o {
        Ordering::Less => text(b"less\n"),
        Ordering::Equal => text(b"equal\n"),
        Ordering::Greater => text(b"greater\n"),
    }
}

fn pair(a: usize, b: usize, used: usize)
    requires { used ≤ word_count }
{
    for (j, k) in SHIFTS {
        sums(a, b, j, k, used);
    }
    label(b"compare ", a, b);
    number(used as u64);
    let mut s = room(a, b);
    show_order(compare_at(&s, 0, SECOND, used));
    label(b"product ", a, b);
    number(used as u64);
    let fits = product_to_first(&mut s, used);
    show_result(fits, &s, a, b, 0);
}

fn pairs(a: usize, b: usize) {
    for used in USED {
        if used <= WORDS {
            pair(a, b, used);
        }
    }
}

// Places that are inside, and such that are not.
fn places() {
    for at in PLACES {
        let mut s = [0u32; ROOM];
        s[0] = 7;
        text(b"compare at ");
        number(at as u64);
        show_order(compare_at(&s, 0, at, WORDS));
        text(b"compare at ");
        number(at as u64);
        show_order(compare_at(&s, at, 0, WORDS));
    }
}

// 2 ^ bits less a word, and 2 ^ bits less that: the word again.
fn power_less(bits: u32, x: u32)
    requires { (32 ≤ bits) × (bits < 32 * word_count) }
{
    text(b"power less ");
    number(bits as u64);
    number(x as u64);
    let mut s = [0u32; ROOM];
    s[0] = x;
    subtract_from_power(&mut s, 0, bits);
    show(&s, 0);
    text(b" ");
    subtract_from_power(&mut s, 0, bits);
    show(&s, 0);
    text(b"\n");
}

fn powers_less(x: u32) {
    power_less(32, x);
    power_less(33, x);
    power_less(95, x);
    power_less(HALF - 1, x);
    power_less(HALF, x);
    power_less(HALF + 1, x);
    power_less(BITS - 1, x);
}

fn words_of(bits: u32) {
    text(b"words for ");
    number(bits as u64);
    io::print_decimal(STDOUT, words_for(bits) as u64);
    text(b"\n");
}

fn all_words_of() {
    words_of(0);
    words_of(31);
    words_of(32);
    words_of(HALF - 1);
    words_of(HALF);
    words_of(BITS - 1);
    words_of(BITS);
    words_of(4294967295);
}

fn main() {
    for a in 0..SAMPLES {
        for b in 0..SAMPLES {
            pairs(a, b);
        }
    }
    places();
    powers_less(0);
    powers_less(1);
    powers_less(4294967295);
    all_words_of();
}
