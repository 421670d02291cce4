// Which conversion the words ask for: `blocks to nodes` or `nodes to blocks`.
ghost use Rattle.std.specs.Prelude.{◌≡◌};
ghost use Rattle.converting.specs.Converting.{are_words, conversion_of};

use forms::Form;
use request::words::same;

// No word that is taken is longer, so a longer one may be read as an empty one (`word_buffer` of specs/Converting.antt).
pub const WORD: usize = 6;

// `Convert` has the form of the input; the output is in the other one.
#[derive(Clone, Copy)]
pub enum Conversion {
    Help,
    Unknown,
    Convert(Form),
}

// Whether the first word and the last are these two.
fn are_words(first: &[u8], from: &[u8], last: &[u8], to: &[u8]) -> bool
    ensures { result ≡ are_words first.now from.now last.now to.now }
{
    if same(first, from) {
        return same(last, to);
    }
    false
}

// `count` is how many words there are.
pub fn conversion_of(count: usize, first: &[u8], second: &[u8], third: &[u8]) -> Conversion
    ensures { result ≡ conversion_of count first.now second.now third.now }
{
    if count == 0 {
        return Conversion::Help;
    }
    if count != 3 {
        return Conversion::Unknown;
    }
    if !same(second, b"to") {
        return Conversion::Unknown;
    }
    if are_words(first, b"blocks", third, b"nodes") {
        return Conversion::Convert(Form::Blocks);
    }
    if are_words(first, b"nodes", third, b"blocks") {
        return Conversion::Convert(Form::Nodes);
    }
    Conversion::Unknown
}
