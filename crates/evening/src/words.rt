// From a setting to what words ask for, and back.
ghost use Rattle.std.specs.Prelude.{◌≡◌, true, cond, ◌<◌};
ghost use Rattle.naturals.specs.Natural.{value};
ghost use Rattle.naturals.specs.Spelling.{words_of};
ghost use Rattle.request.specs.Request.{cut, aim_at, aim_of};
ghost use Rattle.setting_blocks.specs.Settings.{fits, target_words};
ghost use Rattle.evening.specs.Words.{aim_in, kind_of, number_of, meaning_of, setting_of, version_of};

use naturals::Natural;
use request::{Amount, Target};
use setting_blocks::layout::TARGET_WORDS;
use setting_blocks::setting::Setting;

// One word is enough for a number of nodes.
fn amount_of(setting: Setting) -> Amount
    requires { (setting.kind < 2) × (fits setting.kind (value setting.target) ≡ true) }
    ensures { aim_at result ≡ aim_in setting }
{
    let words = setting.target;
    if setting.kind == 1 {
        return Amount::Cases(Natural { words });
    }
    Amount::Nodes(words[0])
}

pub(crate) fn target_of(setting: Setting) -> Target
    requires { (setting.kind < 2) × (fits setting.kind (value setting.target) ≡ true) }
    ensures { cut result.keep result.as_is (aim_of result) ≡ meaning_of setting }
{
    Target {
        keep: setting.direction == 1,
        as_is: setting.as_is == 1,
        amount: amount_of(setting),
    }
}

// A number of nodes as a setting has it.
fn words_of_nodes(size: u32) -> [u32; TARGET_WORDS]
    ensures { (result ≡ words_of target_words size) × (fits 0 size ≡ true) }
{
    let number = Natural::from(size);
    number.words
}

// A number of cases.
fn words_of_cases(count: Natural) -> [u32; TARGET_WORDS]
    ensures { (result ≡ words_of target_words (value count.words)) × (fits 1 (value count.words) ≡ true) }
{
    count.words
}

fn target_words(amount: Amount) -> [u32; TARGET_WORDS]
    ensures { (result ≡ words_of target_words (number_of (aim_at amount))) × (fits (kind_of (aim_at amount)) (number_of (aim_at amount)) ≡ true) }
{
    match amount {
        Amount::Nodes(size) => words_of_nodes(size),
        Amount::Cases(count) => words_of_cases(count),
    }
}

fn kind_of(amount: Amount) -> u32
    ensures { result ≡ kind_of (aim_at amount) }
{
    match amount {
        Amount::Nodes(_) => 0,
        Amount::Cases(_) => 1,
    }
}

fn bit(b: bool) -> u32
    ensures { result ≡ cond b 1 0 }
{
    if b { 1 } else { 0 }
}

// It can be stored: its number is in range.
pub(crate) fn setting_of(target: Target) -> Setting
    ensures { (result ≡ setting_of target.keep target.as_is (aim_of target)) × (fits (kind_of (aim_of target)) (number_of (aim_of target)) ≡ true) }
{
    let words = target_words(target.amount);
    Setting {
        direction: bit(target.keep),
        kind: kind_of(target.amount),
        as_is: bit(target.as_is),
        target: words,
    }
}

// The oldest version that has it.
pub(crate) fn version_of(as_is: bool) -> u32
    ensures { result ≡ version_of as_is }
{
    if as_is { 2 } else { 1 }
}
