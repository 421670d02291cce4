// The table of the pairs met, in lent words. With places for `capacity` pairs it has
//     a word for each bucket: the successor of the last place whose pair is in it, or 0
//     four words for each place: the pair, the place before it in its bucket, as above, and its two children's places
//     from COUNTS capacities on, a count for each place
//     from FLAGS capacities on, a word for each place
// So what the walk looks at lies close together.
ghost use Rattle.std.specs.Prelude.{◌≡◌, ◌/◌, ◌%◌, ◌<◌, ◌≤◌, min};
ghost use Rattle.diagram.specs.Limits.{max_nodes};
ghost use Rattle.pairs.specs.Pairs.{pair_words, max_pairs, pair};
ghost use Rattle.pairs.specs.Table.{key_in, low_in, high_in, key_of, bucket_of, entered, Space, Linked, Sought};

use diagram::limits::MAX_NODES;
use diagram::node::{BddPointer, word};

// The words that are lent for a pair.
pub const PAIR_WORDS: usize = 64;

// As many pairs as two diagrams can have.
pub const MAX_PAIRS: usize = MAX_NODES * MAX_NODES;

// Words of a place: the pair, the place before it, and two children's.
const RECORD: usize = 4;

pub const COUNTS: usize = 5;

pub const FLAGS: usize = 21;

// How many pairs there are places for in so many words: more than two diagrams can have are not used.
pub fn capacity_of(words: usize) -> usize
    ensures { result ≡ min (words / pair_words) max_pairs }
{
    (words / PAIR_WORDS).min(MAX_PAIRS)
}

// A pair as one word.
pub(crate) fn key(p: BddPointer, q: BddPointer) -> u32
    requires { (p.0 < max_nodes) × (q.0 < max_nodes) }
    ensures { result ≡ key_of (pair p.0 q.0) }
{
    p.0 * (MAX_NODES as u32) + q.0
}

// The bucket of a pair's word: the word mixed to 32 bits, and these scaled.
fn bucket(capacity: usize, key: u32) -> usize
    requires { capacity ≤ max_pairs }
    ensures { result ≡ bucket_of capacity key }
{
    (key as usize) * 2654435761 % 4294967296 * capacity / 4294967296
}

// The pair at a place, and where its children stand.
pub fn first_at(table: &[u32], capacity: usize, place: usize) -> BddPointer
    requires { (capacity ≤ max_pairs) × (place < max_pairs) }
    ensures { result.0 ≡ key_in capacity table.now place / max_nodes }
{
    BddPointer(word(table, capacity + RECORD * place) / (MAX_NODES as u32))
}

pub fn second_at(table: &[u32], capacity: usize, place: usize) -> BddPointer
    requires { (capacity ≤ max_pairs) × (place < max_pairs) }
    ensures { result.0 ≡ key_in capacity table.now place % max_nodes }
{
    BddPointer(word(table, capacity + RECORD * place) % (MAX_NODES as u32))
}

pub fn low_at(table: &[u32], capacity: usize, place: usize) -> usize
    requires { (capacity ≤ max_pairs) × (place < max_pairs) }
    ensures { result ≡ low_in capacity table.now place }
{
    word(table, capacity + RECORD * place + 2) as usize
}

pub fn high_at(table: &[u32], capacity: usize, place: usize) -> usize
    requires { (capacity ≤ max_pairs) × (place < max_pairs) }
    ensures { result ≡ high_in capacity table.now place }
{
    word(table, capacity + RECORD * place + 3) as usize
}

// The place of a pair's word among the first `count`, from the last place in its bucket on.
pub(crate) fn seek(table: &[u32], capacity: usize, count: usize, key: u32) -> Option<usize>
    requires { Linked capacity table.now count }
    ensures { Sought capacity table.now count key result }
{
    let mut x = word(table, bucket(capacity, key)) as usize;
    while x != 0 {
        let at = x - 1;
        if word(table, capacity + RECORD * at) == key {
            return Some(at);
        }
        x = word(table, capacity + RECORD * at + 1) as usize;
    }
    None
}

// Writes a pair at the first free place, and makes it the last in its bucket.
pub(crate) fn enter(
    table: &mut [u32],
    capacity: usize,
    count: usize,
    key: u32,
    low: usize,
    high: usize,
)
    requires { Space capacity table.old × (count < capacity) × (low < max_pairs) × (high < max_pairs) }
    ensures { table.new ≡ entered capacity table.old count key low high }
{
    let head = bucket(capacity, key);
    let at = capacity + RECORD * count;
    let before = table[head];
    table[at] = key;
    table[at + 1] = before;
    table[at + 2] = low as u32;
    table[at + 3] = high as u32;
    table[head] = (count + 1) as u32;
}
