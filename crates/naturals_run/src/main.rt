// Runs every function of `naturals` over fixed cases and writes one line for each, in hex. The expected output was computed apart from this
// code by tests/naturals_cases.py, with whole numbers of any size.
#![tactic(auto)]

use naturals::{Division, Natural, WORD_BITS, WORDS};
use std::cmp::Ordering;

// The number of standard output.
const STDOUT: i32 = 1;

const SAMPLES: usize = 15;

// The bits of a number, and those of its lower half.
const BITS: u32 = WORD_BITS * WORDS as u32;

const HALF: u32 = BITS / 2;

const SHIFT_COUNT: usize = 17;

const SHIFTS: [u32; SHIFT_COUNT] = [
    0,
    1,
    31,
    32,
    33,
    127,
    128,
    HALF - 32,
    HALF - 1,
    HALF,
    HALF + 1,
    HALF + 32,
    BITS - 32,
    BITS - 1,
    BITS,
    BITS + 1,
    4294967295,
];

const DIVISOR_COUNT: usize = 7;

const DIVISORS: [u32; DIVISOR_COUNT] = [0, 1, 3, 10, 65536, 2147483649, 4294967295];

// The last place of a room that a number can stand at.
const LAST: usize = 12;

const ROOM: usize = LAST + WORDS;

const SHORT: usize = WORDS - 1;

const PLACE_COUNT: usize = 9;

const TOP: usize = 18446744073709551615;

// Of those near the top, one and the words of a number make TOP, the next ones more than that.
const PLACES: [usize; PLACE_COUNT] = [
    0,
    1,
    LAST - 1,
    LAST,
    LAST + 1,
    ROOM,
    TOP - WORDS,
    TOP - WORDS + 1,
    TOP,
];

fn text(s: &[u8]) {
    io::write_all(STDOUT, s);
}

fn hex(x: u32, width: usize) {
    io::print_hex(STDOUT, x as u64, width);
}

// x in the words from `from` up to `to`, and zeros.
fn block(from: usize, to: usize, x: u32) -> Natural {
    let mut words = [0u32; WORDS];
    for i in 0..WORDS {
        if from <= i && i < to {
            words[i] = x;
        }
    }
    Natural { words }
}

// 2 ^ (16 * WORDS) + 1: its product with 2 ^ (16 * WORDS) - 1, which is another sample, is the largest number that fits.
fn half_and_one() -> Natural {
    let mut words = [0u32; WORDS];
    words[0] = 1;
    words[WORDS / 2] = 1;
    Natural { words }
}

// So many words that all differ, each of them large, and zeros.
fn falling(count: usize) -> Natural {
    let mut words = [0u32; WORDS];
    for i in 0..WORDS {
        if i < count {
            words[i] = 4294967295 - 65537 * i as u32;
        }
    }
    Natural { words }
}

fn sample(k: usize) -> Natural {
    match k {
        0 => block(0, 0, 0),
        1 => block(0, 1, 1),
        2 => block(0, 1, 4294967295),
        3 => block(1, 2, 1),
        4 => block(0, WORDS / 2, 4294967295),
        5 => block(WORDS / 2, WORDS / 2 + 1, 1),
        6 => block(0, WORDS, 4294967295),
        7 => block(WORDS - 1, WORDS, 2147483648),
        8 => block(0, WORDS, 2309737967),
        9 => block(0, 1, 3),
        10 => half_and_one(),
        11 => block(2, WORDS - 2, 4275878552),
        12 => falling(WORDS / 2),
        13 => falling(WORDS / 2 + 1),
        _ => falling(WORDS),
    }
}

// Without zeros in front.
fn show(a: Natural) {
    let mut begun = false;
    for i in (0..WORDS).rev() {
        let x = a.words[i];
        if begun {
            hex(x, 8);
        } else if x != 0 {
            hex(x, 1);
            begun = true;
        }
    }
    if !begun {
        text(b"0");
    }
    text(b"\n");
}

// Zero where there is none.
fn show_fit(found: Option<Natural>) {
    match found {
        Some(a) => {
            text(b"= ");
            show(a);
        }
        None => text(b"! 0\n"),
    }
}

fn number(n: u64) {
    io::print_decimal(STDOUT, n);
    text(b" ");
}

fn label(name: &[u8], i: usize, j: u64) {
    text(name);
    number(i as u64);
    number(j);
}

fn show_order(o: Ordering) {
    match o {
        Ordering::Less => text(b"less\n"),
        Ordering::Equal => text(b"equal\n"),
        Ordering::Greater => text(b"greater\n"),
    }
}

fn pair(i: usize, j: usize) {
    let a = sample(i);
    let b = sample(j);
    label(b"add ", i, j as u64);
    show_fit(naturals::add(a, b));
    label(b"subtract ", i, j as u64);
    show_fit(naturals::subtract(a, b));
    label(b"multiply ", i, j as u64);
    show_fit(naturals::multiply(a, b));
    label(b"compare ", i, j as u64);
    show_order(naturals::compare(a, b));
}

fn pairs(i: usize) {
    for j in 0..SAMPLES {
        pair(i, j);
    }
}

fn shift(i: usize, k: u32) {
    label(b"shift ", i, k as u64);
    show_fit(naturals::shift_left(sample(i), k));
}

fn shifts(i: usize) {
    for k in SHIFTS {
        shift(i, k);
    }
}

// The remainder, then the quotient.
fn divide(i: usize, d: u32) {
    label(b"divide ", i, d as u64);
    match naturals::divide_small(sample(i), d) {
        Some(
            Division {
                quotient,
                remainder,
            },
        ) => {
            text(b"= ");
            hex(remainder, 1);
            text(b" ");
            show(quotient);
        }
        None => text(b"! 0 0\n"),
    }
}

fn times(i: usize, m: u32, c: u32) {
    label(b"times ", i, m as u64);
    number(c as u64);
    show_fit(naturals::times_plus(sample(i), m, c));
}

fn by_words(i: usize) {
    for d in DIVISORS {
        divide(i, d);
        times(i, d, 0);
        times(i, d, 4294967295);
    }
}

fn alone(i: usize) {
    text(b"sample ");
    number(i as u64);
    if naturals::is_zero(sample(i)) {
        text(b"zero ");
    }
    show(sample(i));
}

fn power(k: u32) {
    text(b"power ");
    number(k as u64);
    show_fit(naturals::power_of_two(k));
    text(b"word ");
    number(k as u64);
    show(Natural::from(k));
}

fn powers() {
    for k in SHIFTS {
        power(k);
    }
    text(b"zero ");
    show(naturals::zero());
}

// Words that tell their place.
fn room() -> [u32; ROOM] {
    let mut s = [0u32; ROOM];
    for i in 0..ROOM {
        s[i] = 2863311530 + i as u32;
    }
    s
}

fn show_all(s: &[u32]) {
    for x in s {
        hex(*x, 8);
    }
    text(b"\n");
}

fn load_from(s: &[u32], at: usize) {
    label(b"load ", s.len(), at as u64);
    show_fit(naturals::load(s, at));
}

fn store_to(s: &mut [u32], at: usize) {
    label(b"store ", s.len(), at as u64);
    if naturals::store(s, at, sample(8)) {
        text(b"= ");
    } else {
        text(b"! ");
    }
    show_all(s);
}

fn places() {
    for at in PLACES {
        let mut s = room();
        load_from(&s, at);
        store_to(&mut s, at);
    }
}

fn too_short() {
    let mut s = [5u32; SHORT];
    load_from(&s, 0);
    store_to(&mut s, 0);
}

fn just_enough() {
    let mut s = [6u32; WORDS];
    load_from(&s, 0);
    load_from(&s, 1);
    store_to(&mut s, 1);
    store_to(&mut s, 0);
}

fn main() {
    for i in 0..SAMPLES {
        alone(i);
        pairs(i);
        shifts(i);
        by_words(i);
    }
    powers();
    places();
    too_short();
    just_enough();
}
