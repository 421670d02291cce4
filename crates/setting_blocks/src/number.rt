// The target: words as four bytes each, one after another.
ghost use Rattle.std.specs.Prelude.{◌≡◌, ◌+◌, ◌*◌, ◌<◌, length};
ghost use Rattle.writing.specs.Writing.{Wrote};
ghost use Rattle.blocks.specs.Block.{pair_span};
ghost use Rattle.setting_blocks.specs.Settings.{target_at, target_words, words_at, words_bytes};

use crate::layout::{TARGET, TARGET_WORDS};
use blocks::fields::{get_four, put_four};
use writing::put;

// So many words, from a place on.
fn get_words(bytes: &[u8], first: usize, count: usize, output: &mut [u32]) -> usize
    requires { first + 4 * count < pair_span }
    ensures { Wrote (words_at bytes.now first count) output.old 0 output.new result }
{
    let mut place = 0;
    for i in 0..count {
        place = put(output, place, get_four(bytes, first + 4 * i));
    }
    place
}

pub(crate) fn target_in(block: &[u8]) -> [u32; TARGET_WORDS]
    ensures { result ≡ words_at block.now target_at target_words }
{
    let mut words = [0u32; TARGET_WORDS];
    get_words(block, TARGET, TARGET_WORDS, &mut words);
    words
}

pub(crate) fn put_words(out: &mut [u8], at: usize, words: &[u32]) -> usize
    ensures { Wrote (words_bytes words.now) out.old at out.new result }
{
    let mut place = at;
    for word in words {
        place = put_four(out, place, *word);
    }
    place
}
