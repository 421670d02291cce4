// The counts of all nodes, from the last variable to the first: a node's children stand at larger variables, so theirs are
// noted before. The room has the chains' links, and behind them the table of the counts.
ghost use Rattle.std.specs.Prelude.{◌≡◌, ◌+◌, ◌*◌, ◌≤◌, length};
ghost use Rattle.diagram.specs.Diagram.{var_of, vars as varsOf};
ghost use Rattle.levels.specs.Chains.{Given, Linked};
ghost use Rattle.cardinality.specs.Cardinality.{part_of};
ghost use Rattle.cardinality.specs.Table.{float_of, Parting, Joining, Descending, Floated};

use crate::floats::{nought, power_of_two};
use crate::table::{count_at, note};
use diagram::node::{BddPointer, BddVariable, high_link_of, low_link_of, var_of};
use levels::{CHAINS, head_of, link, next_of};

// A child's count as it counts at its parent: doubled for each variable that the link skips, by one exact product.
fn part(words: &[u32], room: &[u32], nodes: usize, node: BddPointer, child: BddPointer) -> f64
    requires { Parting words.now room.now nodes node.0 child.0 }
    ensures { result ≡ part_of words.now node.0 child.0 (float_of words.now child.0) }
{
    let here = var_of(words, node);
    let there = var_of(words, child);
    let factor = power_of_two(there.0 - here.0 - 1);
    count_at(room, nodes, child) * factor
}

// One node, whose children are counted: one sum, rounded once.
fn join(words: &[u32], room: &mut [u32], nodes: usize, node: BddPointer)
    requires { Joining words.now room.old nodes node.0 }
    ensures { Floated words.now room.new (var_of words.now node.0) node.0 }
{
    let below = part(words, room, nodes, node, low_link_of(words, node));
    let above = part(words, room, nodes, node, high_link_of(words, node));
    note(room, nodes, node, below + above);
}

// The nodes of one variable.
fn level(words: &[u32], heads: &[u32], room: &mut [u32], nodes: usize, variable: u32)
    requires { Descending words.now heads.now room.old nodes variable }
    ensures { Floated words.now room.new variable 0 }
{
    let mut node = head_of(heads, BddVariable(variable));
    while node.0 != 0 {
        join(words, room, nodes, node);
        node = next_of(room, node);
    }
}

// The terminals' counts.
fn terminals(words: &[u32], heads: &[u32], room: &mut [u32], nodes: usize)
    requires { Given words.now nodes × Linked words.now heads.now room.old nodes × (nodes + 2 * nodes ≤ length room.old) }
    ensures { Floated words.now room.new (varsOf words.now) 0 }
{
    note(room, nodes, BddPointer(0), nought());
    note(room, nodes, BddPointer(1), power_of_two(0));
}

// The counts of all nodes, by chains that are made already.
fn count_down(words: &[u32], heads: &[u32], room: &mut [u32], nodes: usize, vars: u32)
    requires { Given words.now nodes × Linked words.now heads.now room.old nodes × (nodes + 2 * nodes ≤ length room.old) × (vars ≡ varsOf words.now) }
    ensures { Floated words.now room.new 0 0 }
{
    terminals(words, heads, room, nodes);
    for c in (0..vars).rev() {
        level(words, heads, room, nodes, c);
    }
}

// The counts of all nodes.
pub(crate) fn count_all(words: &[u32], room: &mut [u32], nodes: usize, vars: u32)
    requires { Given words.now nodes × (vars ≡ varsOf words.now) × (nodes + 2 * nodes ≤ length room.old) }
    ensures { Floated words.now room.new 0 0 }
{
    let mut heads = [0u32; CHAINS];
    link(words, &mut heads, room, nodes);
    count_down(words, &heads, room, nodes, vars);
}
