// From the words and the two files of the program to the bytes of both its channels.
ghost use Rattle.std.specs.Prelude.{option_copied};
ghost use Rattle.differing.specs.Differing.{old_name, new_name, asked_of, files_done, done, Differs};

use crate::Ends;
use crate::job::differ;
use crate::words::{Asked, asked_of};
use differ_texts::texts::{write_help, write_unknown};
use forms::Form;

// Which of the words are the two names.
fn differ_named(
    form: Form,
    first: &[u8],
    second: &[u8],
    third: &[u8],
    old: Option<&[u8]>,
    new: Option<&[u8]>,
    lines: &mut [u8],
    text: &mut [u8],
) -> Ends
    ensures { Differs (files_done form (old_name form first.now second.now) (new_name form second.now third.now) (option_copied old.entry) (option_copied new.entry)) lines.old lines.new text.old text.new result.lines result.text }
{
    match form {
        Form::Blocks => differ(form, first, second, old, new, lines, text),
        Form::Nodes => differ(form, second, third, old, new, lines, text),
    }
}

// `count` is how many words there are; a file that could not be read is `None`. The lines are for standard output, the text is
// for standard error.
pub fn answer(
    count: usize,
    first: &[u8],
    second: &[u8],
    third: &[u8],
    old: Option<&[u8]>,
    new: Option<&[u8]>,
    lines: &mut [u8],
    text: &mut [u8],
) -> Ends
    ensures { Differs (done (asked_of count first.now) first.now second.now third.now (option_copied old.entry) (option_copied new.entry)) lines.old lines.new text.old text.new result.lines result.text }
{
    let asked = asked_of(count, first);
    match asked {
        Asked::Help => {
            let end = write_help(text);
            Ends {
                lines: 0,
                text: end,
            }
        }
        Asked::Unknown => {
            let end = write_unknown(text);
            Ends {
                lines: 0,
                text: end,
            }
        }
        Asked::Compare(form) => differ_named(form, first, second, third, old, new, lines, text),
    }
}
