// The summary as a lent row of small structures, one for each signal, and its way to and from the plain words that the other code works on.
#![tactic(auto)]

ghost use Rattle.std.specs.Prelude.{◌≡◌, ◌*◌, ◌≤◌, ◌++◌, length, take as taking, drop as dropping};
ghost use Rattle.summary_row.specs.Row.{words_of};

// What the day shift asks of a signal: how many live nodes test it, and how many live slots depend on it.
#[repr(C)]
#[derive(Clone, Copy)]
pub struct Signal {
    pub nodes: u32,
    pub slots: u32,
}

// Copies the first records to words.
pub fn take(row: &[Signal], words: &mut [u32], count: usize)
    requires { (count ≤ length row.now) × (2 * count ≤ length words.old) }
    ensures { words.new ≡ taking (2 * count) (words_of row.now) ++ dropping (2 * count) words.old }
{
    for i in 0..count {
        words[2 * i] = row[i].nodes;
        words[2 * i + 1] = row[i].slots;
    }
}

// Copies words to the first records.
pub fn give(row: &mut [Signal], words: &[u32], count: usize)
    requires { (count ≤ length row.old) × (2 * count ≤ length words.now) }
    ensures { words_of row.new ≡ taking (2 * count) words.now ++ dropping (2 * count) (words_of row.old) }
{
    for i in 0..count {
        row[i] = Signal {
            nodes: words[2 * i],
            slots: words[2 * i + 1],
        };
    }
}
