// Which versions are known, and which fields are in their range.
ghost use Rattle.std.specs.Prelude.{◌≡◌, ◌^◌, ltb};
ghost use Rattle.naturals.specs.Natural.{value};
ghost use Rattle.setting_blocks.specs.Settings.{known, flag_span, fits, right};

use crate::layout::{LARGEST_SIZE, TARGET_WORDS};
use crate::setting::Setting;
use naturals::{Natural, at_most};

// `reader` is the newest version that is known.
pub(crate) fn is_known(reader: u32, version: u32) -> bool
    ensures { result ≡ known reader version }
{
    if version == 0 {
        return false;
    }
    version <= reader
}

// Version 1 has no flag, so it is off.
fn flag_fits(version: u32, as_is: u32) -> bool
    ensures { result ≡ ltb as_is (flag_span version) }
{
    if version == 1 {
        return as_is == 0;
    }
    as_is <= 1
}

// A size has 32 bits; no count of the target's words is too large.
fn target_fits(kind: u32, target: [u32; TARGET_WORDS]) -> bool
    ensures { result ≡ fits kind (value target) }
{
    if kind != 0 {
        return true;
    }
    at_most(Natural { words: target }, Natural::from(LARGEST_SIZE))
}

pub(crate) fn is_right(version: u32, setting: Setting) -> bool
    ensures { result ≡ right version setting }
{
    if 1 < setting.direction {
        return false;
    }
    if 1 < setting.kind {
        return false;
    }
    if !flag_fits(version, setting.as_is) {
        return false;
    }
    let target = setting.target;
    target_fits(setting.kind, target)
}
