// What is stored, and what the readers and the writer say.
ghost use Rattle.std.specs.Prelude.{◌≡◌};
ghost use Rattle.setting_blocks.specs.Settings.{laid, said, shown};

use crate::layout::TARGET_WORDS;
use diagram::verdict::Refused;

// Any numbers may be offered. In range are direction 0, under, and 1, over; kind 0, a size, and 1, a count; as_is 0 and 1. The target's
// words have the least first. No enums: C passes these numbers (crates/houayletan_c), and may pass any.
#[repr(C)]
#[derive(Clone, Copy)]
pub struct Setting {
    pub direction: u32,
    pub kind: u32,
    pub as_is: u32,
    pub target: [u32; TARGET_WORDS],
}

// What a block keeps.
#[derive(Clone, Copy)]
pub struct Kept {
    pub version: u32,
    pub setting: Setting,
}

// Number 0 with the block's version and its setting; or a refusal, with which both are zero. No Result: C gets it.
#[repr(C)]
#[derive(Clone, Copy)]
pub struct SettingRead {
    pub number: u32,
    pub place: usize,
    pub version: u32,
    pub setting: Setting,
}

// Number 0 with the bytes of a block; or a refusal, with none. No Result: C gets it.
#[repr(C)]
#[derive(Clone, Copy)]
pub struct SettingWritten {
    pub number: u32,
    pub place: usize,
    pub bytes: usize,
}

// Nothing of a block is shown with a refusal.
impl From<Result<Kept, Refused>> for SettingRead {
    ghost from_gives = { λ read flat. flat ≡ shown (said read) };

    fn from(read: Result<Kept, Refused>) -> SettingRead {
        match read {
            Ok(kept) => SettingRead {
                number: 0,
                place: 0,
                version: kept.version,
                setting: kept.setting,
            },
            Err(refused) => SettingRead {
                number: refused.reason.number(),
                place: refused.place,
                version: 0,
                setting: Setting {
                    direction: 0,
                    kind: 0,
                    as_is: 0,
                    target: [0; TARGET_WORDS],
                },
            },
        }
    }
}

impl From<Result<usize, Refused>> for SettingWritten {
    ghost from_gives = { λ written flat. flat ≡ laid written };

    fn from(written: Result<usize, Refused>) -> SettingWritten {
        match written {
            Ok(bytes) => SettingWritten {
                number: 0,
                place: 0,
                bytes,
            },
            Err(refused) => SettingWritten {
                number: refused.reason.number(),
                place: refused.place,
                bytes: 0,
            },
        }
    }
}
