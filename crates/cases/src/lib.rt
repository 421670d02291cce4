// Cases of a test program as lines of decimal numbers, and what a test looks at in a lent room.
#![tactic(auto)]

ghost use Rattle.std.specs.Prelude.{◌≡◌, ◌≤◌, ◌<◌, min, length, drop, replicate};
ghost use Rattle.cases.specs.Lines.{with_digit, number_at, after, line_ends, Reads, run_of};

// A number of the text and where the next one begins.
#[derive(Clone, Copy)]
pub struct Token {
    pub value: u32,
    pub next: usize,
}

// How many words a line had, and where the next line begins.
#[derive(Clone, Copy)]
pub struct Line {
    pub count: usize,
    pub next: usize,
}

// A value with one decimal digit more, within 32 bits.
fn with_digit(value: u64, byte: u8) -> u64
    requires { value < 4294967296 }
    ensures { (result < 4294967296) × (result ≡ with_digit value byte) }
{
    (value * 10 + byte as u64) % 4294967296
}

// The digits from a place on, and the one byte after them.
pub fn number(text: &[u8], from: usize) -> Token
    requires { from < length text.now }
    ensures { (from < result.next) × (result.next ≤ length text.now) × (result.value ≡ number_at text.now from) × (result.next ≡ after text.now from) }
{
    let mut value: u64 = 0;
    for at in from..text.len() {
        let byte = text[at];
        if !byte.is_ascii_digit() {
            return Token {
                value: value as u32,
                next: at + 1,
            };
        }
        value = with_digit(value, byte % 16);
    }
    Token {
        value: value as u32,
        next: text.len(),
    }
}

// Whether a line ends right before a place.
pub fn line_ends(text: &[u8], at: usize) -> bool
    ensures { result ≡ line_ends text.now at }
{
    if at == 0 {
        return true;
    }
    if text.len() < at {
        return true;
    }
    text[at - 1] == b'\n'
}

// The numbers up to the line's end, as words.
pub fn words_of(text: &[u8], from: usize, words: &mut [u32]) -> Line
    requires { from ≤ length text.now }
    ensures { (result.count ≤ length words.new) × (from ≤ result.next) × (result.next ≤ length text.now) × Reads text.now from words.old words.new result.count result.next }
{
    let mut count = 0;
    let mut at = from;
    while at < text.len() {
        if words.len() <= count {
            return Line { count, next: at };
        }
        let token = number(text, at);
        words[count] = token.value;
        count += 1;
        at = token.next;
        if line_ends(text, at) {
            return Line { count, next: at };
        }
    }
    Line { count, next: at }
}

pub fn fill(room: &mut [u32], word: u32)
    ensures { room.new ≡ replicate (length room.old) word }
{
    room.fill(word);
}

// How many words from a place on equal a word.
pub fn run_of(room: &[u32], from: usize, word: u32) -> usize
    ensures { result ≡ run_of (drop from room.now) word }
{
    for i in from..room.len() {
        if room[i] != word {
            return i - from;
        }
    }
    room.len().saturating_sub(from)
}

pub fn least(a: usize, b: usize) -> usize
    ensures { (result ≤ a) × (result ≤ b) × (result ≡ min a b) }
{
    a.min(b)
}
