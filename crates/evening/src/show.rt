// A settings block in the words that ask for the same.
ghost use Rattle.writing.specs.Writing.{Wrote};
ghost use Rattle.request.specs.Request.{aim_at, aim_of};
ghost use Rattle.setting_blocks.specs.Settings.{newest, read_by};
ghost use Rattle.evening.specs.Storing.{direction_word, aim_text, flag_word, cut_text, version_text, if_shown, Files};

use crate::words::target_of;
use messages::refusal::write_settings_refusal;
use report::lines::write_number;
use request::{Amount, Target};
use setting_blocks::read::kept_in;
use shrinking::Ends;
use text::print::write_natural;
use writing::{put, write};

fn write_direction(out: &mut [u8], keep: bool) -> usize
    ensures { Wrote (direction_word keep) out.old 0 out.new result }
{
    if keep {
        return write(out, 0, b"keep");
    }
    write(out, 0, b"suppress")
}

// ` size 40`
fn write_aim(out: &mut [u8], at: usize, amount: Amount) -> usize
    ensures { Wrote (aim_text (aim_at amount)) out.old at out.new result }
{
    match amount {
        Amount::Nodes(size) => write_number(out, at, b" size ", size as u64),
        Amount::Cases(count) => {
            let named = write(out, at, b" cases ");
            write_natural(out, named, count)
        }
    }
}

fn write_flag(out: &mut [u8], at: usize, as_is: bool) -> usize
    ensures { Wrote (flag_word as_is) out.old at out.new result }
{
    if as_is {
        return write(out, at, b" as-is");
    }
    at
}

// `keep size 40 as-is`
pub(crate) fn write_cut(out: &mut [u8], target: Target) -> usize
    ensures { Wrote (cut_text target.keep target.as_is (aim_of target)) out.old 0 out.new result }
{
    let directed = write_direction(out, target.keep);
    let aimed = write_aim(out, directed, target.amount);
    let flagged = write_flag(out, aimed, target.as_is);
    put(out, flagged, 10)
}

// `version 1`
fn write_version(out: &mut [u8], version: u32) -> usize
    ensures { Wrote (version_text version) out.old 0 out.new result }
{
    let next = write_number(out, 0, b"version ", version as u64);
    put(out, next, 10)
}

pub(crate) fn show(settings: &[u8], file: &mut [u8], text: &mut [u8]) -> Ends
    ensures { Files (if_shown (read_by newest settings.now)) file.old file.new text.old text.new result.file result.text }
{
    match kept_in(settings) {
        Ok(kept) => Ends {
            file: write_cut(file, target_of(kept.setting)),
            text: write_version(text, kept.version),
        },
        Err(refused) => {
            let end = write_settings_refusal(text, 0, refused);
            Ends { file: 0, text: end }
        }
    }
}
