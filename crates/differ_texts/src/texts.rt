// What is said on standard error.
ghost use Rattle.std.specs.Prelude.{◌≡◌};
ghost use Rattle.diagram.specs.Refusal.{number_of};
ghost use Rattle.writing.specs.Writing.{Wrote};
ghost use Rattle.differ_texts.specs.Texts.{help_text, unknown_text, missing_text, named_text, of_both, blamed};

use diagram::refusal::Refusal;
use diagram::verdict::Refused;
use messages::refusal::write_refusal_of;
use text::print::DECIMAL;
use writing::write;

// A longer name is read as an empty one: neither names a file (`name_buffer` of specs/Texts.antt).
pub const NAME: usize = 4096;

// The longest text is a refusal behind a name (`text_buffer`): its words, and four numbers.
const REFUSAL_WORDS: usize = 103;

pub const TEXT: usize = NAME + REFUSAL_WORDS + 4 * DECIMAL;

pub fn write_help(out: &mut [u8]) -> usize
    ensures { Wrote help_text out.old 0 out.new result }
{
    write(
        out,
        0,
        b"differ OLD NEW         compares two block files, by their names\ndiffer nodes OLD NEW   compares two node files\nSays how many cases hold in the old condition only, in the new one only and in both, and shows the smallest case in which they differ: a bit for each signal, x0 first, and the signals that are on.\nTwo node files that reach more than 16384 pairs of nodes together are refused; two block files never do.\n",
    )
}

pub fn write_unknown(out: &mut [u8]) -> usize
    ensures { Wrote unknown_text out.old 0 out.new result }
{
    write(
        out,
        0,
        b"differ: the words are the names of two files, with nodes before them where they are node files; differ alone prints its help\n",
    )
}

// `old.block: can't be opened`
pub fn write_missing(out: &mut [u8], name: &[u8]) -> usize
    ensures { Wrote (missing_text name.now) out.old 0 out.new result }
{
    let next = write(out, 0, name);
    write(out, next, b": can't be opened\n")
}

// `old.block: refused 22 at 0: a check sum is wrong`
pub fn write_named(out: &mut [u8], name: &[u8], refused: Refused) -> usize
    ensures { Wrote (named_text name.now (number_of refused.reason) refused.place) out.old 0 out.new result }
{
    let named = write(out, 0, name);
    let colon = write(out, named, b": ");
    write_refusal_of(out, colon, refused)
}

fn of_both(reason: Refusal) -> bool
    ensures { result ≡ of_both (number_of reason) }
{
    match reason {
        Refusal::OtherVariables => true,
        Refusal::TooManyPairs => true,
        _ => false,
    }
}

// A refusal of two diagrams, behind the name of what it is about: `which` is 0 for the old one, as `blamed` has it and the comparison gives it.
pub fn write_blamed(out: &mut [u8], old: &[u8], new: &[u8], refused: Refused, which: u32) -> usize
    ensures { Wrote (named_text (blamed old.now new.now (number_of refused.reason) which) (number_of refused.reason) refused.place) out.old 0 out.new result }
{
    if of_both(refused.reason) {
        return write_named(out, b"differ", refused);
    }
    if which == 0 {
        return write_named(out, old, refused);
    }
    write_named(out, new, refused)
}
