// Evening settings, read and written.
ghost use Rattle.std.specs.Prelude.{◌≡◌};
ghost use Rattle.setting_blocks.specs.Settings.{newest, read_by, shown, Writes};

use houayletan::settling as called;
use setting_blocks::setting::{Setting, SettingRead, SettingWritten};

// What is stored in a block of any version.
#[unsafe(no_mangle)]
pub extern "C" fn houayletan_read_settings_3(block: &[u8]) -> SettingRead
    ensures { result ≡ shown (read_by newest block.now) }
{
    called::houayletan_read_settings_3(block)
}

// What is stored in a block of version 1, and nothing of a later one.
#[unsafe(no_mangle)]
pub extern "C" fn houayletan_read_settings_v1_3(block: &[u8]) -> SettingRead
    ensures { result ≡ shown (read_by 1 block.now) }
{
    called::houayletan_read_settings_v1_3(block)
}

// The block of a setting, in the first of the bytes.
#[unsafe(no_mangle)]
pub extern "C" fn houayletan_write_settings_3(
    version: u32,
    setting: Setting,
    output: &mut [u8],
) -> SettingWritten
    ensures { Writes version setting output.old output.new result }
{
    called::houayletan_write_settings_3(version, setting, output)
}
