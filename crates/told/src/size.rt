// Refusal 18: what can be said of a size target.
ghost use Rattle.std.specs.Prelude.{◌≡◌, ◌-◌, ◌≤◌, ltb};
ghost use Rattle.diagram.specs.Limits.{max_nodes};
ghost use Rattle.diagram.specs.Diagram.{size, Accepted};
ghost use Rattle.diagram.specs.Valuations.{count_of};
ghost use Rattle.diagram.specs.Verdict.{said, and_then, first};
ghost use Rattle.told.specs.Told.{to_one, too_small, size_told_of, Passed};

use diagram::node::{BddPointer, high_link_of, low_link_of};
use diagram::refusal::Refusal;
use diagram::room::most;
use diagram::verdict::{Refused, Verdict};

// Whether a node has a link to node 1.
fn leads_to_one(words: &[u32], node: BddPointer) -> bool
    ensures { result ≡ to_one words.now node.0 }
{
    let low = low_link_of(words, node);
    if low.0 == 1 {
        return true;
    }
    let high = high_link_of(words, node);
    high.0 == 1
}

// The first node after the terminals that has a link to node 1; past the nodes where there is none.
fn first_to_one(words: &[u32], nodes: usize) -> usize
    requires { nodes ≤ max_nodes }
    ensures { result ≡ first (to_one words.now) 2 (nodes - 2) }
{
    for p in 2..nodes {
        if leads_to_one(words, BddPointer(p as u32)) {
            return p;
        }
    }
    most(nodes)
}

// Whether an accepted diagram holds for some valuation. Every node of it is reached, so one with a link to node 1 is
// enough, and nothing needs to be counted; without one only the array of two nodes holds, since its root is node 1.
fn holds_somewhere(words: &[u32], nodes: usize) -> bool
    requires { nodes ≤ max_nodes }
    ensures { Accepted words.now → nodes ≡ size words.now → result ≡ ltb 0 (count_of words.now) }
{
    if nodes == 2 {
        return true;
    }
    first_to_one(words, nodes) < nodes
}

// No diagram has no nodes. From above one node, which is false, is an answer only where the diagram holds for no valuation.
fn is_too_small(words: &[u32], target: u32, above: bool, nodes: usize) -> bool
    requires { nodes ≤ max_nodes }
    ensures { Accepted words.now → nodes ≡ size words.now → result ≡ too_small above words.now target }
{
    if target == 0 {
        return true;
    }
    if !above {
        return false;
    }
    if target != 1 {
        return false;
    }
    holds_somewhere(words, nodes)
}

// 18, after what the check of the diagram says: a refusal of it stays, and no node of a refused diagram is looked at.
pub fn tell(checked: Verdict, words: &[u32], target: u32, above: bool) -> Verdict
    requires { Passed words.now (said checked) }
    ensures { said result ≡ and_then (said checked) (size_told_of above words.now target) }
{
    let extent = checked?;
    if is_too_small(words, target, above, extent.nodes) {
        return Err(Refused {
            reason: Refusal::SizeTooSmall,
            place: 0,
        });
    }
    Ok(extent)
}
