// The program `settings`: words of `shrink` stored as a block, and a block shown.
ghost use Rattle.std.specs.Prelude.{◌≡◌};
ghost use Rattle.writing.specs.Writing.{Wrote};
ghost use Rattle.request.specs.Request.{request_of, aim_of, cut};
ghost use Rattle.evening.specs.Storing.{help_text, unknown_text, which_text, saying, is_show, stored, filed, Files};

use crate::show::{show, write_cut};
use crate::words::{setting_of, version_of};
use blocks::layout::BLOCK;
use request::words::same;
use request::{Request, Target, ask};
use setting_blocks::write::write_settings;
use shrinking::Ends;
use writing::write;

fn say_help(text: &mut [u8]) -> Ends
    ensures { (result.file ≡ 0) × Wrote help_text text.old 0 text.new result.text }
{
    let end = write(
        text,
        0,
        b"settings keep size N > FILE   stores what shrink keep size N would do; shrink_stored settings FILE does it\nsettings show < FILE          shows the words that are stored\nThe words are those of shrink: keep or suppress, size or cases or hex, a number, and as-is where it is wanted. A block of 512 bytes is written to standard output; version 1 unless it has as-is, which is in version 2 only.\n",
    );
    Ends { file: 0, text: end }
}

fn say_unknown(text: &mut [u8]) -> Ends
    ensures { (result.file ≡ 0) × Wrote unknown_text text.old 0 text.new result.text }
{
    let end = write(
        text,
        0,
        b"settings: the words are keep or suppress, size or cases or hex, a number, and as-is where it is wanted; or show; settings alone prints its help\n",
    );
    Ends { file: 0, text: end }
}

fn say_which(text: &mut [u8]) -> Ends
    ensures { (result.file ≡ 0) × Wrote which_text text.old 0 text.new result.text }
{
    let end = write(
        text,
        0,
        b"settings: count does not say which base its number is in: write cases for decimal, hex for hexadecimal\n",
    );
    Ends { file: 0, text: end }
}

fn store_cut(target: Target, file: &mut [u8], text: &mut [u8]) -> Ends
    ensures { Files (stored (cut target.keep target.as_is (aim_of target))) file.old file.new text.old text.new result.file result.text }
{
    let mut block = [0u8; BLOCK];
    write_settings(version_of(target.as_is), setting_of(target), &mut block);
    Ends {
        file: write(file, 0, &block),
        text: write_cut(text, target),
    }
}

// Whether the words are `show`: only then the input is looked at.
pub fn is_show(count: usize, first: &[u8]) -> bool
    ensures { result ≡ is_show count first.now }
{
    if count != 1 {
        return false;
    }
    same(first, b"show")
}

fn store_words(
    count: usize,
    first: &[u8],
    second: &[u8],
    third: &[u8],
    fourth: &[u8],
    file: &mut [u8],
    text: &mut [u8],
) -> Ends
    ensures { Files (stored (request_of count first.now second.now third.now fourth.now)) file.old file.new text.old text.new result.file result.text }
{
    match ask(count, first, second, third, fourth) {
        Request::Help => say_help(text),
        Request::Unknown => say_unknown(text),
        Request::Which => say_which(text),
        Request::Cut(target) => store_cut(target, file, text),
    }
}

// `count` is how many words there are, `bytes` the input, which only `show` looks at. The file is for standard output, the text for
// standard error.
pub fn store(
    count: usize,
    first: &[u8],
    second: &[u8],
    third: &[u8],
    fourth: &[u8],
    bytes: &[u8],
    file: &mut [u8],
    text: &mut [u8],
) -> Ends
    ensures { Files (filed count first.now second.now third.now fourth.now bytes.now) file.old file.new text.old text.new result.file result.text }
{
    if is_show(count, first) {
        return show(bytes, file, text);
    }
    store_words(count, first, second, third, fourth, file, text)
}
