// From the bytes of two files to the lines that tell how their conditions differ.
ghost use Rattle.std.specs.Prelude.{◌≡◌, ◌≤◌, option_copied};
ghost use Rattle.diagram.specs.Limits.{max_variables};
ghost use Rattle.diagram.specs.Refusal.{number_of};
ghost use Rattle.comparison.specs.Comparison.{which_number};
ghost use Rattle.writing.specs.Writing.{Wrote};
ghost use Rattle.report.specs.Report.{blank};
ghost use Rattle.differ_texts.specs.Texts.{missing_text, named_text, blamed};
ghost use Rattle.differing.specs.Differing.{unloaded_text, file_of, words_done, if_new, files_done, Loads, Says, compared_text, Differs};

use crate::Ends;
use comparison::compare::{Compared, Comparison, ComparisonRefused, compare};
use diagram::limits::{MAX_NODES, MAX_WORDS, ROOM_PER_NODE};
use diagram::verdict::Refused;
use differ_texts::lines::write_answer;
use differ_texts::texts::{write_blamed, write_missing, write_named};
use forms::{Form, read_form};
use messages::refusal::LENT_PAIRS;
use pairs::table::PAIR_WORDS;

// Words of the room to check the most nodes, and of the table.
const ROOM: usize = ROOM_PER_NODE * MAX_NODES;

const TABLE: usize = PAIR_WORDS * LENT_PAIRS;

// Why no nodes come of a file: it was not found, or it is refused.
#[derive(Clone, Copy, Debug, PartialEq, Eq)]
pub enum Unloaded {
    Missing,
    Refused(Refused),
}

impl From<Refused> for Unloaded {
    ghost use Rattle.differing.specs.declared.job.Unloaded.TheVariants.{Refused as Unread};

    ghost from_gives = { λ refused unloaded. unloaded ≡ Unread refused };

    fn from(refused: Refused) -> Unloaded {
        Unloaded::Refused(refused)
    }
}

// Reads the nodes of a file that was found, and says how many there are.
fn load(form: Form, file: Option<&[u8]>, words: &mut [u32]) -> Result<usize, Unloaded>
    requires { words.old ≡ blank }
    ensures { Loads form (option_copied file.entry) words.new result }
{
    match file {
        None => Err(Unloaded::Missing),
        Some(bytes) => {
            let nodes = read_form(form, bytes, words)?;
            Ok(nodes)
        }
    }
}

// In a function of its own: room and table are given back before anything is written.
fn compare_words(first: &[u32], second: &[u32]) -> Compared
    ensures { Says first.now second.now result }
{
    let mut room = [0u32; ROOM];
    let mut table = [0u32; TABLE];
    compare(first, second, &mut room, &mut table)
}

fn miss(name: &[u8], text: &mut [u8]) -> Ends
    ensures { (result.lines ≡ 0) × Wrote (missing_text name.now) text.old 0 text.new result.text }
{
    let end = write_missing(text, name);
    Ends {
        lines: 0,
        text: end,
    }
}

fn refuse(name: &[u8], refused: Refused, text: &mut [u8]) -> Ends
    ensures { (result.lines ≡ 0) × Wrote (named_text name.now (number_of refused.reason) refused.place) text.old 0 text.new result.text }
{
    let end = write_named(text, name, refused);
    Ends {
        lines: 0,
        text: end,
    }
}

// Why a file gives no nodes, behind its name.
fn say_unloaded(name: &[u8], unloaded: Unloaded, text: &mut [u8]) -> Ends
    ensures { (result.lines ≡ 0) × Wrote (unloaded_text name.now unloaded) text.old 0 text.new result.text }
{
    match unloaded {
        Unloaded::Missing => miss(name, text),
        Unloaded::Refused(refused) => refuse(name, refused, text),
    }
}

fn blame(old: &[u8], new: &[u8], refusal: ComparisonRefused, text: &mut [u8]) -> Ends
    ensures { (result.lines ≡ 0) × Wrote (named_text (blamed old.now new.now (number_of refusal.refused.reason) (which_number refusal.which)) (number_of refusal.refused.reason) refusal.refused.place) text.old 0 text.new result.text }
{
    let end = write_blamed(text, old, new, refusal.refused, refusal.which.number());
    Ends {
        lines: 0,
        text: end,
    }
}

// What is told of two diagrams.
fn show(told: Comparison, vars: u32, lines: &mut [u8]) -> Ends
    requires { vars ≤ max_variables }
    ensures { (result.text ≡ 0) × Wrote (compared_text told vars) lines.old 0 lines.new result.lines }
{
    let end = write_answer(
        lines,
        vars,
        told.first,
        told.second,
        told.both,
        told.smallest,
    );
    Ends {
        lines: end,
        text: 0,
    }
}

// The words of both files: refused, or compared.
fn tell(
    old: &[u8],
    new: &[u8],
    first: &[u32],
    second: &[u32],
    lines: &mut [u8],
    text: &mut [u8],
) -> Ends
    ensures { Differs (words_done old.now new.now first.now second.now) lines.old lines.new text.old text.new result.lines result.text }
{
    match compare_words(first, second) {
        Ok(found) => show(found.value, found.extent.vars, lines),
        Err(refusal) => blame(old, new, refusal, text),
    }
}

// The words of the old file are there, and the new one is looked at.
fn differ_from(
    form: Form,
    old: &[u8],
    new: &[u8],
    first: &[u32],
    file: Option<&[u8]>,
    lines: &mut [u8],
    text: &mut [u8],
) -> Ends
    ensures { Differs (if_new old.now new.now first.now (file_of form (option_copied file.entry))) lines.old lines.new text.old text.new result.lines result.text }
{
    let mut words = [0u32; MAX_WORDS];
    match load(form, file, &mut words) {
        Err(unloaded) => say_unloaded(new, unloaded, text),
        Ok(nodes) => tell(old, new, first, &words[..3 * nodes], lines, text),
    }
}

// Two files of one form, each with its name.
pub(crate) fn differ(
    form: Form,
    old: &[u8],
    new: &[u8],
    old_file: Option<&[u8]>,
    new_file: Option<&[u8]>,
    lines: &mut [u8],
    text: &mut [u8],
) -> Ends
    ensures { Differs (files_done form old.now new.now (option_copied old_file.entry) (option_copied new_file.entry)) lines.old lines.new text.old text.new result.lines result.text }
{
    let mut words = [0u32; MAX_WORDS];
    match load(form, old_file, &mut words) {
        Err(unloaded) => say_unloaded(old, unloaded, text),
        Ok(nodes) => differ_from(form, old, new, &words[..3 * nodes], new_file, lines, text),
    }
}
