// All words of `shrink_stored`: a settings file, or the words themselves.
ghost use Rattle.std.specs.Prelude.{◌≡◌, ◌&&◌, eqb, length, option_copied};
ghost use Rattle.diagram.specs.Refusal.{number_of};
ghost use Rattle.writing.specs.Writing.{Wrote};
ghost use Rattle.setting_blocks.specs.Settings.{newest, read_by};
ghost use Rattle.shrinking.specs.Shrinking.{Shrinks};
ghost use Rattle.evening.specs.Evening.{is_settings, names_settings, blamed_text, missing_text, if_kept, settled, evening_done, is_kept, settles, evening_looks};

use crate::words::target_of;
use diagram::verdict::Refused;
use forms::Form;
use messages::refusal::write_settings_refusal;
use request::form::form_of;
use request::words::same;
use setting_blocks::read::kept_in;
use shrinking::Ends;
use shrinking::answer::{answer, wants_input};
use shrinking::job::shrink;
use writing::write;

fn is_settings(count: usize, due: usize, word: &[u8]) -> bool
    ensures { result ≡ (eqb count due && is_settings word.now) }
{
    if count != due {
        return false;
    }
    same(word, b"settings")
}

// Whether the words are `settings FILE`, or these behind `nodes`; `count` is how many there are.
pub fn names_settings(count: usize, first: &[u8], second: &[u8]) -> bool
    ensures { result ≡ names_settings count first.now second.now }
{
    if same(first, b"nodes") {
        return is_settings(count, 3, second);
    }
    is_settings(count, 2, first)
}

fn blame(text: &mut [u8], refused: Refused) -> Ends
    ensures { (result.file ≡ 0) × Wrote (blamed_text (number_of refused.reason) refused.place) text.old 0 text.new result.text }
{
    let named = write(text, 0, b"settings file: ");
    let end = write_settings_refusal(text, named, refused);
    Ends { file: 0, text: end }
}

fn miss(text: &mut [u8]) -> Ends
    ensures { (result.file ≡ 0) × Wrote missing_text text.old 0 text.new result.text }
{
    let end = write(text, 0, b"settings file: can't be opened\n");
    Ends { file: 0, text: end }
}

// Only a setting that is read cuts.
fn obey(form: Form, settings: &[u8], bytes: &[u8], file: &mut [u8], text: &mut [u8]) -> Ends
    ensures { Shrinks (if_kept form bytes.now (length file.old) (read_by newest settings.now)) file.old file.new text.old text.new result.file result.text }
{
    match kept_in(settings) {
        Ok(kept) => shrink(form, bytes, target_of(kept.setting), file, text),
        Err(refused) => blame(text, refused),
    }
}

fn settle(
    form: Form,
    settings: Option<&[u8]>,
    bytes: &[u8],
    file: &mut [u8],
    text: &mut [u8],
) -> Ends
    ensures { Shrinks (settled form (option_copied settings.entry) bytes.now (length file.old)) file.old file.new text.old text.new result.file result.text }
{
    match settings {
        Some(stored) => obey(form, stored, bytes, file, text),
        None => miss(text),
    }
}

fn is_kept(settings: &[u8]) -> bool
    ensures { result ≡ is_kept (read_by newest settings.now) }
{
    kept_in(settings).is_ok()
}

fn settles(settings: Option<&[u8]>) -> bool
    ensures { result ≡ settles (option_copied settings.entry) }
{
    match settings {
        Some(stored) => is_kept(stored),
        None => false,
    }
}

// Whether a cut is asked for, by words or by a setting: else the input is not looked at.
pub fn wants_evening_input(
    count: usize,
    first: &[u8],
    second: &[u8],
    third: &[u8],
    fourth: &[u8],
    fifth: &[u8],
    settings: Option<&[u8]>,
) -> bool
    ensures { result ≡ evening_looks count first.now second.now third.now fourth.now fifth.now (option_copied settings.entry) }
{
    if names_settings(count, first, second) {
        return settles(settings);
    }
    wants_input(count, first, second, third, fourth, fifth)
}

// `settings` are the bytes of the settings file, where the words name one and it could be read; `bytes` is the input. The file is for standard output, the
// text for standard error.
pub fn answer_evening(
    count: usize,
    first: &[u8],
    second: &[u8],
    third: &[u8],
    fourth: &[u8],
    fifth: &[u8],
    settings: Option<&[u8]>,
    bytes: &[u8],
    file: &mut [u8],
    text: &mut [u8],
) -> Ends
    ensures { Shrinks (evening_done count first.now second.now third.now fourth.now fifth.now (option_copied settings.entry) bytes.now (length file.old)) file.old file.new text.old text.new result.file result.text }
{
    if names_settings(count, first, second) {
        return settle(form_of(first), settings, bytes, file, text);
    }
    answer(
        count, first, second, third, fourth, fifth, bytes, file, text,
    )
}
