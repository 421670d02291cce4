// Refusals 8 to 10: variables and links in range.
ghost use Rattle.std.specs.Prelude.{◌≡◌, ◌/◌, ◌≤◌, ◌^◌, ◌<◌, length, MatchOption};
ghost use Rattle.diagram.specs.Limits.{max_nodes};
ghost use Rattle.diagram.specs.Diagram.{size};
ghost use Rattle.diagram.specs.Verdict.{said, first, ranges_of};
ghost use Rattle.diagram.specs.Faults.{fault_of, is_faulty, number_in, IsFirstFault};

use diagram::node::{BddPointer, high_link_of, low_link_of, var_of, word};
use diagram::refusal::Refusal;
use diagram::verdict::{Extent, Refused, Verdict};

// What is out of range at a node: the variable, then low, then high.
fn fault_of(words: &[u32], node: BddPointer, nodes: usize, vars: u32) -> Option<Refusal>
    ensures { number_in result ≡ fault_of nodes vars words.now node.0 }
{
    let var = var_of(words, node);
    if vars <= var.0 {
        return Some(Refusal::BadVariable);
    }
    let low = low_link_of(words, node);
    if nodes <= low.0 as usize {
        return Some(Refusal::BadLowLink);
    }
    let high = high_link_of(words, node);
    if nodes <= high.0 as usize {
        return Some(Refusal::BadHighLink);
    }
    None
}

// The first fault of a stretch of nodes, which are counted from the stretch's start.
fn first_fault(stretch: &[u32], nodes: usize, vars: u32) -> Option<Refused>
    requires { length stretch.now / 3 < 2 ^ 32 }
    ensures { MatchOption result (first (is_faulty nodes vars stretch.now) 0 (length stretch.now / 3) ≡ length stretch.now / 3) (IsFirstFault nodes vars stretch.now) }
{
    for p in 0..stretch.len() / 3 {
        if let Some(reason) = fault_of(stretch, BddPointer(p as u32), nodes, vars) {
            return Some(Refused { reason, place: p });
        }
    }
    None
}

pub fn ranges(words: &[u32]) -> Verdict
    requires { size words.now ≤ max_nodes }
    ensures { said result ≡ ranges_of words.now }
{
    let nodes = words.len() / 3;
    let vars = word(words, 0);
    if nodes <= 2 {
        return Ok(Extent { nodes, vars });
    }
    // The terminals are not looked at: the stretch starts at node 2, and places are shifted back.
    if let Some(fault) = first_fault(&words[6..], nodes, vars) {
        return Err(Refused {
            reason: fault.reason,
            place: fault.place + 2,
        });
    }
    Ok(Extent { nodes, vars })
}
