// Asks the exported functions of settings: settings of version 2, read by both readers; in version 1 their flag is refused, and the block reads
// as it was; without it they are written; and there are no bytes at all.
#![tactic(auto)]

use blocks::layout::BLOCK;
use diagram::node::word;
use houayletan::settling::{
    houayletan_read_settings_3, houayletan_read_settings_v1_3, houayletan_write_settings_3,
};
use setting_blocks::layout::TARGET_WORDS;
use setting_blocks::setting::{Setting, SettingRead};

// The number of standard output.
const STDOUT: i32 = 1;

fn say(text: &[u8], value: u64) {
    io::write_all(STDOUT, text);
    io::print_decimal(STDOUT, value);
}

fn end_line() {
    io::write_all(STDOUT, b"\n");
}

fn say_count(text: &[u8], count: [u32; naturals::WORDS]) {
    say(text, word(&count, 0) as u64);
}

fn say_read(read: SettingRead) {
    let setting = read.setting;
    let target = setting.target;
    say(b"number ", read.number as u64);
    say(b" place ", read.place as u64);
    say(b" version ", read.version as u64);
    say(b", direction ", setting.direction as u64);
    say(b", kind ", setting.kind as u64);
    say(b", as_is ", setting.as_is as u64);
    say_count(b", target ", target);
    end_line();
}

fn recall(block: &[u8]) {
    say_read(houayletan_read_settings_3(block));
    say_read(houayletan_read_settings_v1_3(block));
}

fn settle(version: u32, as_is: u32, block: &mut [u8]) {
    let setting = Setting {
        direction: 1,
        kind: 1,
        as_is,
        target: [5; TARGET_WORDS],
    };
    let written = houayletan_write_settings_3(version, setting, block);
    say(b"number ", written.number as u64);
    say(b" place ", written.place as u64);
    say(b" bytes ", written.bytes as u64);
    end_line();
    recall(block);
}

fn main() {
    let mut block = [9u8; BLOCK];
    settle(2, 1, &mut block);
    settle(1, 1, &mut block);
    settle(1, 0, &mut block);
    let none = [9u8; 0];
    recall(&none);
}
