// Numbers of two and four bytes, the least byte first.
ghost use Rattle.std.specs.Prelude.{◌≡◌, ◌+◌, ◌*◌, ◌<◌, get_or, length};
ghost use Rattle.writing.specs.Writing.{Wrote};
ghost use Rattle.blocks.specs.Block.{byte_span, pair_span, two_bytes, four_bytes, two, four};

use crate::layout::{BYTE_SPAN, PAIR_SPAN};
use writing::put;

// The byte at a place, and 0 past the end.
fn byte(bytes: &[u8], at: usize) -> u32
    ensures { (result ≡ get_or bytes.now at 0) × (result < byte_span) }
{
    if at < bytes.len() {
        bytes[at] as u32
    } else {
        0
    }
}

// The number in two bytes.
pub fn get_two(bytes: &[u8], at: usize) -> u32
    requires { at < pair_span * pair_span }
    ensures { (result ≡ two bytes.now at) × (result < pair_span) }
{
    byte(bytes, at) + BYTE_SPAN * byte(bytes, at + 1)
}

// The number in four bytes.
pub fn get_four(bytes: &[u8], at: usize) -> u32
    requires { at < pair_span }
    ensures { result ≡ four bytes.now at }
{
    get_two(bytes, at) + PAIR_SPAN * get_two(bytes, at + 2)
}

// The same in bytes that are there: no test for each, so that the compiler loads them together.
pub(crate) fn two_at(bytes: &[u8], at: usize) -> u32
    requires { at + 1 < length bytes.now }
    ensures { (result ≡ two bytes.now at) × (result < pair_span) }
{
    bytes[at] as u32 + BYTE_SPAN * (bytes[at + 1] as u32)
}

pub(crate) fn four_at(bytes: &[u8], at: usize) -> u32
    requires { at + 3 < length bytes.now }
    ensures { result ≡ four bytes.now at }
{
    two_at(bytes, at) + PAIR_SPAN * two_at(bytes, at + 2)
}

// The two low bytes of a number.
pub(crate) fn put_two(out: &mut [u8], at: usize, x: u32) -> usize
    ensures { Wrote (two_bytes x) out.old at out.new result }
{
    let next = put(out, at, (x % BYTE_SPAN) as u8);
    put(out, next, (x / BYTE_SPAN % BYTE_SPAN) as u8)
}

pub fn put_four(out: &mut [u8], at: usize, x: u32) -> usize
    ensures { Wrote (four_bytes x) out.old at out.new result }
{
    let next = put_two(out, at, x);
    put_two(out, next, x / PAIR_SPAN)
}

// The same where the bytes are there: no test for each, so that the compiler stores them together.
pub(crate) fn store_two(out: &mut [u8], at: usize, x: u32) -> usize
    requires { at + 1 < length out.old }
    ensures { (result ≡ at + 2) × Wrote (two_bytes x) out.old at out.new result }
{
    out[at] = (x % BYTE_SPAN) as u8;
    out[at + 1] = (x / BYTE_SPAN % BYTE_SPAN) as u8;
    at + 2
}

pub(crate) fn store_four(out: &mut [u8], at: usize, x: u32) -> usize
    requires { at + 3 < length out.old }
    ensures { (result ≡ at + 4) × Wrote (four_bytes x) out.old at out.new result }
{
    let next = store_two(out, at, x);
    store_two(out, next, x / PAIR_SPAN)
}
