// From the words and the input of the program to the bytes of both its channels.
ghost use Rattle.std.specs.Prelude.{◌≡◌, length};
ghost use Rattle.request.specs.Request.{meant, form_of, words_of};
ghost use Rattle.shrinking.specs.Shrinking.{looks, done, Shrinks};

use crate::Ends;
use crate::job::shrink;
use forms::Form;
use messages::words::{write_help, write_unknown, write_which};
use request::Request;
use request::form::{ask_words, form_of};

// Only a cut writes bytes of a file.
fn obey(form: Form, request: Request, bytes: &[u8], file: &mut [u8], text: &mut [u8]) -> Ends
    ensures { Shrinks (done form (meant request) bytes.now (length file.old)) file.old file.new text.old text.new result.file result.text }
{
    match request {
        Request::Help => {
            let end = write_help(text);
            Ends { file: 0, text: end }
        }
        Request::Unknown => {
            let end = write_unknown(text);
            Ends { file: 0, text: end }
        }
        Request::Which => {
            let end = write_which(text);
            Ends { file: 0, text: end }
        }
        Request::Cut(target) => shrink(form, bytes, target, file, text),
    }
}

// Whether the words ask for a cut: else the input is not looked at.
pub fn wants_input(
    count: usize,
    first: &[u8],
    second: &[u8],
    third: &[u8],
    fourth: &[u8],
    fifth: &[u8],
) -> bool
    ensures { result ≡ looks (words_of count first.now second.now third.now fourth.now fifth.now) }
{
    match ask_words(count, first, second, third, fourth, fifth) {
        Request::Cut(_) => true,
        Request::Help => false,
        Request::Unknown => false,
        Request::Which => false,
    }
}

// `count` is how many words there are, `bytes` the input. The file is for standard output, the text for standard error.
pub fn answer(
    count: usize,
    first: &[u8],
    second: &[u8],
    third: &[u8],
    fourth: &[u8],
    fifth: &[u8],
    bytes: &[u8],
    file: &mut [u8],
    text: &mut [u8],
) -> Ends
    ensures { Shrinks (done (form_of first.now) (words_of count first.now second.now third.now fourth.now fifth.now) bytes.now (length file.old)) file.old file.new text.old text.new result.file result.text }
{
    let form = form_of(first);
    let request = ask_words(count, first, second, third, fourth, fifth);
    obey(form, request, bytes, file, text)
}
