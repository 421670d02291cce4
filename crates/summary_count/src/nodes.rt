// The nodes that test each variable.
ghost use Rattle.std.specs.Prelude.{◌<◌, ◌≡◌, false};
ghost use Rattle.diagram.specs.Limits.{max_nodes};
ghost use Rattle.diagram.specs.Diagram.{var_of};
ghost use Rattle.pool.specs.Pool.{is_free};
ghost use Rattle.summary_count.specs.Counting.{nodes_in, with_node, Ready, Counted};

use diagram::node::{BddPointer, var_of, word};
use diagram::room::put;
use pool_check::nodes::is_free;
use summary::RECORD;

// Adds one to the nodes of a place's variable, unless the place is free.
fn count_node(table: &[u32], summary: &mut [u32], node: BddPointer)
    requires { is_free table.now node.0 ≡ false → nodes_in summary.old (var_of table.now node.0) < max_nodes }
    ensures { summary.new ≡ with_node table.now node.0 summary.old }
{
    if is_free(table, node) {
        return;
    }
    let at = RECORD * (var_of(table, node).0 as usize);
    put(summary, at, word(summary, at) + 1);
}

// Adds the nodes of each variable to the first number of its record.
pub fn count_nodes(table: &[u32], summary: &mut [u32])
    requires { Ready table.now summary.old }
    ensures { Counted table.now summary.old summary.new }
{
    let places = table.len() / 3;
    for p in 2..places {
        count_node(table, summary, BddPointer(p as u32));
    }
}
