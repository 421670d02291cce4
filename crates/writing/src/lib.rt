// Bytes and words written one after another into a lent slice: as much as fits, and nothing else is touched.
#![tactic(auto)]

ghost use Rattle.std.specs.Prelude.{[], ◌∷◌, ◌+◌, replicate};
ghost use Rattle.writing.specs.Writing.{Wrote};

// One byte, word or other value at a place; the place after it. Past the end nothing is written and the place stays.
pub fn put<T: Copy>(out: &mut [T], at: usize, value: T) -> usize
    ensures { Wrote (value ∷ []) out.old at out.new result }
{
    if at < out.len() {
        out[at] = value;
        return at + 1;
    }
    at
}

// All bytes of a text.
pub fn write(out: &mut [u8], at: usize, text: &[u8]) -> usize
    ensures { Wrote text.now out.old at out.new result }
{
    let mut place = at;
    for byte in text {
        place = put(out, place, *byte);
    }
    place
}

// A number of zeros.
pub fn write_zeros(out: &mut [u8], at: usize, count: usize) -> usize
    ensures { Wrote (replicate count 0) out.old at out.new result }
{
    let mut place = at;
    for _ in 0..count {
        place = put(out, place, 0);
    }
    place
}
