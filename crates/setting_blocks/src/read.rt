// The readers: today's, and that of version 1, which refuses what came later.
ghost use Rattle.std.specs.Prelude.{◌≡◌, ◌≤◌, eqb, length};
ghost use Rattle.diagram.specs.Refusal.{number_of};
ghost use Rattle.blocks.specs.Block.{block_bytes, total};
ghost use Rattle.setting_blocks.specs.Settings.{version_in, flag_in, setting_in, unused_flag, unused_in, read_by, said, shown, newest};

use crate::layout::{DIRECTION, FIELDS_END, FLAG, KIND, NEWEST};
use crate::number::target_in;
use crate::range::{is_known, is_right};
use crate::setting::{Kept, Setting, SettingRead};
use blocks::layout::{BLOCK, SUMMED};
use blocks::sums::{sum, sums_right};
use diagram::refusal::Refusal;
use diagram::verdict::Refused;

// In version 1 the flag is off, and its byte is unused.
fn flag_in(block: &[u8]) -> u32
    requires { length block.now ≡ block_bytes }
    ensures { result ≡ flag_in block.now }
{
    if block[0] == 1 {
        return 0;
    }
    block[FLAG] as u32
}

fn unused_flag(block: &[u8]) -> u32
    requires { length block.now ≡ block_bytes }
    ensures { result ≡ unused_flag block.now }
{
    if block[0] != 1 {
        return 0;
    }
    block[FLAG] as u32
}

fn setting_in(block: &[u8]) -> Setting
    requires { length block.now ≡ block_bytes }
    ensures { result ≡ setting_in block.now }
{
    let target = target_in(block);
    Setting {
        direction: block[DIRECTION] as u32,
        kind: block[KIND] as u32,
        as_is: flag_in(block),
        target,
    }
}

fn unused_zero(block: &[u8]) -> bool
    requires { length block.now ≡ block_bytes }
    ensures { result ≡ eqb (total (unused_in block.now)) 0 }
{
    if unused_flag(block) != 0 {
        return false;
    }
    sum(&block[FIELDS_END..SUMMED]) == 0
}

fn refused(reason: Refusal) -> Result<Kept, Refused>
    ensures { said result ≡ Rattle.setting_blocks.specs.Settings.refused (number_of reason) 0 }
{
    Err(Refused { reason, place: 0 })
}

// The tests in their order; `reader` is the newest version that is taken.
fn read_by(reader: u32, block: &[u8]) -> Result<Kept, Refused>
    ensures { said result ≡ read_by reader block.now }
{
    if block.len() != BLOCK {
        return refused(Refusal::ShortBlock);
    }
    if !sums_right(block) {
        return refused(Refusal::WrongSum);
    }
    let version = block[0] as u32;
    if !is_known(reader, version) {
        return refused(Refusal::UnknownVersion);
    }
    let setting = setting_in(block);
    let right = is_right(version, setting);
    let clean = unused_zero(block);
    if !right {
        return refused(Refusal::OutOfRange);
    }
    if !clean {
        return refused(Refusal::UnusedBytes);
    }
    Ok(Kept { version, setting })
}

// What a block of any version keeps; version 1 has the flag off.
pub fn kept_in(block: &[u8]) -> Result<Kept, Refused>
    ensures { said result ≡ read_by newest block.now }
{
    read_by(NEWEST, block)
}

// The same as C has it; not by way of `kept_in`, whose answer would be copied once more.
pub fn read_settings(block: &[u8]) -> SettingRead
    ensures { result ≡ shown (read_by newest block.now) }
{
    SettingRead::from(read_by(NEWEST, block))
}

// For what knows of no flag: a setting of a later version is never shown.
pub fn read_settings_v1(block: &[u8]) -> SettingRead
    ensures { result ≡ shown (read_by 1 block.now) }
{
    SettingRead::from(read_by(1, block))
}
