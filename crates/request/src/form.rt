// The form of the file that a request is about: `nodes` before the other words says a node file, and nothing else does.
ghost use Rattle.std.specs.Prelude.{◌≡◌};
ghost use Rattle.request.specs.Request.{meant, form_of, words_of, weighable};

use crate::words::same;
use crate::{Request, ask};
use forms::Form;

pub fn form_of(first: &[u8]) -> Form
    ensures { result ≡ form_of first.now }
{
    if same(first, b"nodes") {
        return Form::Nodes;
    }
    Form::Blocks
}

// All words of a request to shrink; `count` is how many there are. Behind `nodes` they mean what they mean without it.
pub fn ask_words(
    count: usize,
    first: &[u8],
    second: &[u8],
    third: &[u8],
    fourth: &[u8],
    fifth: &[u8],
) -> Request
    ensures { meant result ≡ words_of count first.now second.now third.now fourth.now fifth.now }
{
    if same(first, b"nodes") {
        return ask(count.saturating_sub(1), second, third, fourth, fifth);
    }
    ask(count, first, second, third, fourth)
}

// Whether these are words of `weigh`: none, or `nodes`.
pub fn may_weigh(count: usize, first: &[u8]) -> bool
    ensures { result ≡ weighable count first.now }
{
    if count == 0 {
        return true;
    }
    if count != 1 {
        return false;
    }
    same(first, b"nodes")
}
