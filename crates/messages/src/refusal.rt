// The line of a refusal: `refused 22 at 0: a check sum is wrong`.
ghost use Rattle.std.specs.Prelude.{◌≡◌};
ghost use Rattle.diagram.specs.Refusal.{number_of};
ghost use Rattle.writing.specs.Writing.{Wrote};
ghost use Rattle.messages.specs.Texts.{of_node, subject, more_than, pairs_phrase, phrase, refusal_text, settings_phrase, settings_refusal_text};

use crate::number::numbered;
use blocks::layout::MOST;
use diagram::limits::{MAX_NODES, MAX_VARIABLES};
use diagram::refusal::Refusal;
use diagram::verdict::Refused;
use report::lines::{write_number, write_refused};
use writing::{put, write};

// The pairs for which `differ` lends a table: all that two block files can have.
pub const LENT_PAIRS: usize = 16384;

// Whether the place of a refusal is a node.
fn of_node(reason: Refusal) -> bool
    ensures { result ≡ of_node (number_of reason) }
{
    matches!(
        reason,
        Refusal::NoTerminal
            | Refusal::BadVariable
            | Refusal::BadLowLink
            | Refusal::BadHighLink
            | Refusal::BrokenLowOrder
            | Refusal::BrokenHighOrder
            | Refusal::Unreachable
    )
}

fn write_subject(out: &mut [u8], at: usize, refused: Refused) -> usize
    ensures { Wrote (subject (number_of refused.reason) refused.place) out.old at out.new result }
{
    if of_node(refused.reason) {
        let next = write_number(out, at, b"node ", refused.place as u64);
        return write(out, next, b" ");
    }
    at
}

// `there are more than 120 nodes`
fn write_limit(out: &mut [u8], at: usize, most: usize, what: &[u8]) -> usize
    ensures { Wrote (more_than most what.now) out.old at out.new result }
{
    let next = write_number(out, at, b"there are more than ", most as u64);
    write(out, next, what)
}

// `more than 16384 pairs of nodes are reached`
fn write_pairs(out: &mut [u8], at: usize) -> usize
    ensures { Wrote pairs_phrase out.old at out.new result }
{
    let next = write_number(out, at, b"more than ", LENT_PAIRS as u64);
    write(out, next, b" pairs of nodes are reached")
}

fn write_phrase(out: &mut [u8], at: usize, reason: Refusal) -> usize
    ensures { Wrote (phrase (number_of reason)) out.old at out.new result }
{
    match reason {
        Refusal::ShortOutput => write(out, at, b"the output is too short"),
        Refusal::NoTerminal => write(
            out,
            at,
            b"is not the terminal that stands there in a diagram, with node 0's variable count",
        ),
        Refusal::TooManyVariables => write_limit(out, at, MAX_VARIABLES, b" variables"),
        Refusal::BadVariable => write(
            out,
            at,
            b"has a variable that is not below the variable count",
        ),
        Refusal::BadLowLink => write(out, at, b"has a low link past the nodes"),
        Refusal::BadHighLink => write(out, at, b"has a high link past the nodes"),
        Refusal::BrokenLowOrder => write(
            out,
            at,
            b"has a low child that is not at a larger variable",
        ),
        Refusal::BrokenHighOrder => write(
            out,
            at,
            b"has a high child that is not at a larger variable",
        ),
        Refusal::Unreachable => write(out, at, b"can't be reached from the root"),
        Refusal::CountTooLarge => write(
            out,
            at,
            b"the count to reach is above the number of all valuations",
        ),
        Refusal::SizeTooSmall => write(out, at, b"no answer has so few nodes; 2 are always enough"),
        Refusal::NothingToCut => write(
            out,
            at,
            b"a constant can't be cut to a count between 0 and the number of all valuations",
        ),
        Refusal::ShortBlock => write(
            out,
            at,
            b"a block is short or missing, or bytes stand after the last one",
        ),
        Refusal::WrongSum => write(out, at, b"a check sum is wrong"),
        Refusal::WrongCount => write(
            out,
            at,
            b"a block number, a node count or the order of blocks is wrong",
        ),
        Refusal::UnusedBytes => write(out, at, b"unused bytes are not zero"),
        Refusal::TooManyStored => write_limit(out, at, MOST, b" nodes"),
        Refusal::OtherVariables => write(
            out,
            at,
            b"the two conditions don't have the same number of variables",
        ),
        Refusal::TooManyPairs => write_pairs(out, at),
        Refusal::EmptyFile => write(out, at, b"the file is empty"),
        Refusal::BrokenNode => write(
            out,
            at,
            b"the length of the file is not a multiple of ten bytes",
        ),
        Refusal::TooManyInFile => write_limit(out, at, MAX_NODES, b" nodes"),
        _ => write(out, at, b"the input is refused"),
    }
}

// Of a refusal that the code gives.
pub fn write_refusal_of(out: &mut [u8], at: usize, refused: Refused) -> usize
    ensures { Wrote (refusal_text (number_of refused.reason) refused.place) out.old at out.new result }
{
    let begun = write_refused(out, at, refused.reason.number(), refused.place);
    let colon = write(out, begun, b": ");
    let of = write_subject(out, colon, refused);
    let said = write_phrase(out, of, refused.reason);
    put(out, said, b'\n')
}

// By a number, of which there may be one that no refusal has.
pub fn write_refusal(out: &mut [u8], at: usize, number: u32, place: usize) -> usize
    ensures { Wrote (refusal_text number place) out.old at out.new result }
{
    if let Some(reason) = numbered(number) {
        return write_refusal_of(out, at, Refused { reason, place });
    }
    let begun = write_refused(out, at, number, place);
    let colon = write(out, begun, b": ");
    let said = write(out, colon, b"the input is refused");
    put(out, said, b'\n')
}

// What a settings file is refused for: two refusals are its own.
fn write_settings_phrase(out: &mut [u8], at: usize, reason: Refusal) -> usize
    ensures { Wrote (settings_phrase (number_of reason)) out.old at out.new result }
{
    match reason {
        Refusal::UnknownVersion => write(out, at, b"the version is not known"),
        Refusal::OutOfRange => write(out, at, b"a field is out of its range"),
        _ => write_phrase(out, at, reason),
    }
}

// The line of a refusal of a settings file.
pub fn write_settings_refusal(out: &mut [u8], at: usize, refused: Refused) -> usize
    ensures { Wrote (settings_refusal_text (number_of refused.reason) refused.place) out.old at out.new result }
{
    let begun = write_refused(out, at, refused.reason.number(), refused.place);
    let colon = write(out, begun, b": ");
    let of = write_subject(out, colon, refused);
    let said = write_settings_phrase(out, of, refused.reason);
    put(out, said, b'\n')
}
