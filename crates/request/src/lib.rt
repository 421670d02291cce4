// The words of a request to shrink: `nodes` where it is a node file; `keep` or `suppress`; `size`, `cases` or `hex`; a number; and where
// it is wanted `as-is`.
#![tactic(auto)]

pub mod form;
pub mod words;

ghost use Rattle.std.specs.Prelude.{◌≡◌};
ghost use Rattle.request.specs.Request.{nodes, counts, if_some, meant, aimed, directed, request_of};

use naturals::Natural;
use text::parse::{parse_decimal, parse_hexadecimal, parse_natural};
use text::print::DECIMAL;
use words::same;

// No word that is taken is longer, so a longer one may be read as an empty one (`word_buffer` and `Buffered` of specs/Request.antt).
pub const WORD: usize = DECIMAL;

// How much is to be left: at most so many nodes, or so many cases.
#[derive(Clone, Copy, Debug, PartialEq, Eq)]
pub enum Amount {
    Nodes(u32),
    Cases(Natural),
}

// What to cut to. There is no field that says to underapproximate or to overapproximate: `keep` decides it. Where `as_is`, a diagram that
// meets the target already keeps its words.
#[derive(Clone, Copy, Debug, PartialEq, Eq)]
pub struct Target {
    pub keep: bool,
    pub as_is: bool,
    pub amount: Amount,
}

// What the words come to. `Which` is for the word `count`, which does not say whether its number is decimal.
#[derive(Clone, Copy, Debug, PartialEq, Eq)]
pub enum Request {
    Help,
    Unknown,
    Which,
    Cut(Target),
}

fn by_size(keep: bool, as_is: bool, read: Option<u32>) -> Request
    ensures { meant result ≡ if_some keep as_is nodes read }
{
    match read {
        Some(size) => Request::Cut(Target {
            keep,
            as_is,
            amount: Amount::Nodes(size),
        }),
        None => Request::Unknown,
    }
}

fn by_count(keep: bool, as_is: bool, read: Option<Natural>) -> Request
    ensures { meant result ≡ if_some keep as_is counts read }
{
    let Some(count) = read else {
        return Request::Unknown;
    };
    Request::Cut(Target {
        keep,
        as_is,
        amount: Amount::Cases(count),
    })
}

// The second word says what the third counts, and in which base.
fn aim(keep: bool, as_is: bool, kind: &[u8], number: &[u8]) -> Request
    ensures { meant result ≡ aimed keep as_is kind.now number.now }
{
    if same(kind, b"size") {
        return by_size(keep, as_is, parse_decimal(number));
    }
    if same(kind, b"cases") {
        return by_count(keep, as_is, parse_natural(number));
    }
    if same(kind, b"hex") {
        return by_count(keep, as_is, parse_hexadecimal(number));
    }
    if same(kind, b"count") {
        return Request::Which;
    }
    Request::Unknown
}

// The first word says which way to cut.
fn direct(as_is: bool, direction: &[u8], kind: &[u8], number: &[u8]) -> Request
    ensures { meant result ≡ directed as_is direction.now kind.now number.now }
{
    if same(direction, b"keep") {
        return aim(true, as_is, kind, number);
    }
    if same(direction, b"suppress") {
        return aim(false, as_is, kind, number);
    }
    Request::Unknown
}

// The words but for `nodes`; `count` is how many there are.
pub fn ask(count: usize, direction: &[u8], kind: &[u8], number: &[u8], flag: &[u8]) -> Request
    ensures { meant result ≡ request_of count direction.now kind.now number.now flag.now }
{
    if count == 0 {
        return Request::Help;
    }
    if count == 3 {
        return direct(false, direction, kind, number);
    }
    if count != 4 {
        return Request::Unknown;
    }
    if same(flag, b"as-is") {
        return direct(true, direction, kind, number);
    }
    Request::Unknown
}
