// A node's number from its children's, in a table: each counts as often as its link says.
ghost use Rattle.std.specs.Prelude.{◌≡◌, ◌+◌, ◌-◌, ◌*◌, ◌^◌, ◌<◌};
ghost use Rattle.naturals.specs.Natural.{word_count};
ghost use Rattle.diagram.specs.Diagram.{var_of};
ghost use Rattle.counts.specs.Table.{Noted};
ghost use Rattle.counts.specs.Worth.{doublings as doublingsOf, shared_of, Sharing};

use crate::root::doublings;
use diagram::node::{BddPointer, high_link_of, low_link_of, var_of};
use in_place::sum::{Shifted, add_shifted, words_for};

// Where the number of a node stands.
pub fn place(base: usize, node: BddPointer) -> usize
    requires { base + word_count * node.0 < 2 ^ 64 }
    ensures { result ≡ base + word_count * node.0 }
{
    base + naturals::WORDS * node.to_index()
}

// How many variables a link skips.
pub fn skipped(words: &[u32], node: BddPointer, child: BddPointer) -> u32
    requires { var_of words.now node.0 < var_of words.now child.0 }
    ensures { result ≡ var_of words.now child.0 - var_of words.now node.0 - 1 }
{
    let here = var_of(words, node);
    let there = var_of(words, child);
    there.0 - here.0 - 1
}

// A child's number as it counts at its parent: valuations are doubled for each variable that the link skips.
fn part(
    words: &[u32],
    base: usize,
    node: BddPointer,
    child: BddPointer,
    valuations: bool,
) -> Shifted
    requires { (var_of words.now node.0 < var_of words.now child.0) × (base + word_count * child.0 < 2 ^ 64) }
    ensures { (result.at ≡ base + word_count * child.0) × (result.bits ≡ doublingsOf valuations (var_of words.now child.0 - var_of words.now node.0 - 1)) }
{
    Shifted {
        at: place(base, child),
        bits: doublings(valuations, skipped(words, node, child)),
    }
}

// Writes the number of a node, whose children's are there. It fills no more words than the variables from its own on can.
pub fn note_sum(words: &[u32], table: &mut [u32], base: usize, node: BddPointer, valuations: bool)
    requires { Sharing valuations words.now base table.old node.0 }
    ensures { Noted base table.old node.0 (shared_of valuations words.now base table.old node.0) table.new }
{
    let low = part(words, base, node, low_link_of(words, node), valuations);
    let high = part(words, base, node, high_link_of(words, node), valuations);
    let here = var_of(words, node);
    let all = var_of(words, BddPointer(0));
    add_shifted(
        table,
        place(base, node),
        low,
        high,
        words_for(all.0 - here.0),
    );
}
