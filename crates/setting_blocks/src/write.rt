// The writer, of both versions.
ghost use Rattle.std.specs.Prelude.{◌≡◌, true};
ghost use Rattle.diagram.specs.Refusal.{number_of};
ghost use Rattle.writing.specs.Writing.{Wrote};
ghost use Rattle.setting_blocks.specs.Settings.{newest, known, right, front, laid, told, Writes};

use crate::layout::{NEWEST, UNUSED};
use crate::number::put_words;
use crate::range::{is_known, is_right};
use crate::setting::{Setting, SettingWritten};
use blocks::layout::{BLOCK, SUMMED};
use blocks::write::write_sealed;
use diagram::refusal::Refusal;
use diagram::verdict::Refused;
use writing::{put, write_zeros};

// All of a block but its sums.
fn put_front(out: &mut [u8], version: u32, setting: Setting) -> usize
    requires { (known newest version ≡ true) × (right version setting ≡ true) }
    ensures { Wrote (front version setting) out.old 0 out.new result }
{
    let direction = put(out, 0, version as u8);
    let kind = put(out, direction, setting.direction as u8);
    let flag = put(out, kind, setting.kind as u8);
    let begun = put(out, flag, setting.as_is as u8);
    let target = setting.target;
    let used = put_words(out, begun, &target);
    write_zeros(out, used, UNUSED)
}

fn refused(reason: Refusal) -> Result<usize, Refused>
    ensures { laid result ≡ told (Rattle.setting_blocks.specs.Settings.refused (number_of reason) 0) }
{
    Err(Refused { reason, place: 0 })
}

// How many bytes the block takes.
fn store(version: u32, setting: Setting, output: &mut [u8]) -> Result<usize, Refused>
    ensures { Writes version setting output.old output.new (laid result) }
{
    if !is_known(NEWEST, version) {
        return refused(Refusal::UnknownVersion);
    }
    if !is_right(version, setting) {
        return refused(Refusal::OutOfRange);
    }
    if output.len() < BLOCK {
        return refused(Refusal::ShortOutput);
    }
    let mut front = [0u8; SUMMED];
    put_front(&mut front, version, setting);
    write_sealed(output, 0, &front);
    Ok(BLOCK)
}

// The block of a setting, in the first of the bytes.
pub fn write_settings(version: u32, setting: Setting, output: &mut [u8]) -> SettingWritten
    ensures { Writes version setting output.old output.new result }
{
    SettingWritten::from(store(version, setting, output))
}
