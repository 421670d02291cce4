// Tables of numbers in lent words: one for each node, from a base on.
ghost use Rattle.std.specs.Prelude.{ℕ};
ghost use Rattle.naturals.specs.Natural.{Holds};
ghost use Rattle.counts.specs.Table.{In, num, Noted};

use diagram::node::BddPointer;
use naturals::{Natural, load, store};

// The count of a node.
pub fn count_at(table: &[u32], base: usize, node: BddPointer) -> Natural
    requires { In base table.now node.0 }
    ensures { Holds (num base table.now node.0) result.words }
{
    load(table, base + naturals::WORDS * node.to_index()).unwrap()
}

// Writes the count of a node.
pub fn note(table: &mut [u32], base: usize, node: BddPointer, count: Natural)
    requires { In base table.old node.0 }
    ensures { (x : ℕ) → Holds x count.words → Noted base table.old node.0 x table.new }
{
    store(table, base + naturals::WORDS * node.to_index(), count);
}
