// The count of an ordered diagram and the weights of its nodes, in the working room: behind the chains' links and the counts.
ghost use Rattle.std.specs.Prelude.{◌*◌, ◌≤◌, length};
ghost use Rattle.naturals.specs.Natural.{word_count, Holds};
ghost use Rattle.diagram.specs.Limits.{max_nodes};
ghost use Rattle.diagram.specs.Valuations.{count_of};
ghost use Rattle.weights.specs.Passes.{weights_from, weights_to, Rising, Tables, Weighable, Both, Standing, Handed};

use crate::up::pass_all;
use counts::table::note;
use diagram::node::BddPointer;
use exact_counts::total::total;
use levels::CHAINS;
use naturals::{Natural, zero};

// Words of the room for each node: a link and a count, and behind all of these a weight.
const BEFORE: usize = 1 + naturals::WORDS;

pub const USED: usize = 1 + 2 * naturals::WORDS;

// The second pass, over chains and counts that stand in the part already: they stay, and the weights come behind them.
pub fn weigh_counted(words: &[u32], heads: &[u32], part: &mut [u32], nodes: usize, vars: u32)
    requires { Rising words.now heads.now (weights_from nodes) part.old nodes vars }
    ensures { Tables words.now nodes part.new }
{
    let base = BEFORE * nodes;
    pass_all(words, heads, part, nodes, base, vars);
    note(part, base, BddPointer(0), zero());
}

// The chains, and the two passes along them. One node is false, and no path that is held visits it.
fn passes(words: &[u32], part: &mut [u32], nodes: usize, vars: u32) -> Natural
    requires { Weighable words.now part.old nodes vars }
    ensures { Both words.now nodes part.new result.words }
{
    let mut heads = [0u32; CHAINS];
    let count = total(words, &mut heads, part, nodes, vars, true);
    if nodes == 1 {
        note(part, BEFORE * nodes, BddPointer(0), zero());
        return count;
    }
    weigh_counted(words, &heads, part, nodes, vars);
    count
}

// Whatever the room has before. Gives the count.
pub fn count_and_weigh(words: &[u32], room: &mut [u32], nodes: usize, vars: u32) -> Natural
    requires { Weighable words.now room.old nodes vars }
    ensures { Standing words.now room.old nodes room.new × Holds (count_of words.now) result.words }
{
    let used = USED * nodes;
    passes(words, &mut room[..used], nodes, vars)
}

// Copies the weights from the room to the output: all words as they stand.
pub fn hand_over(room: &[u32], output: &mut [u32], nodes: usize)
    requires { (nodes ≤ max_nodes) × (weights_to nodes ≤ length room.now) × (word_count * nodes ≤ length output.old) }
    ensures { Handed (weights_from nodes) room.now output.old nodes output.new }
{
    let base = BEFORE * nodes;
    for i in 0..naturals::WORDS * nodes {
        output[i] = room[base + i];
    }
}
