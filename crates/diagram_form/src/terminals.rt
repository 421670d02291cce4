// Refusals 6 and 7: the terminals, and the variable count.
ghost use Rattle.std.specs.Prelude.{◌≡◌, not, ◌&&◌, ltb};
ghost use Rattle.diagram.specs.Diagram.{size};
ghost use Rattle.diagram.specs.Verdict.{said, is_terminal, terminals_of};

use diagram::limits::MAX_VARIABLES;
use diagram::node::{BddPointer, high_link_of, low_link_of, var_of, word};
use diagram::refusal::Refusal;
use diagram::verdict::{Extent, Refused, Verdict};

// Whether a node has the variable count for its variable, and both links to itself.
pub fn is_terminal_node(words: &[u32], node: BddPointer) -> bool
    ensures { result ≡ is_terminal words.now node.0 }
{
    let var = var_of(words, node);
    if var.0 != word(words, 0) {
        return false;
    }
    let low = low_link_of(words, node);
    if low.0 != node.0 {
        return false;
    }
    let high = high_link_of(words, node);
    high.0 == node.0
}

// Whether there is a node 1 that is no terminal.
fn lacks_one(words: &[u32]) -> bool
    ensures { result ≡ (ltb 1 (size words.now) && not (is_terminal words.now 1)) }
{
    if 1 < words.len() / 3 {
        return !is_terminal_node(words, BddPointer(1));
    }
    false
}

pub fn terminals(words: &[u32]) -> Verdict
    ensures { said result ≡ terminals_of words.now }
{
    if !is_terminal_node(words, BddPointer(0)) {
        return Err(Refused {
            reason: Refusal::NoTerminal,
            place: 0,
        });
    }
    if lacks_one(words) {
        return Err(Refused {
            reason: Refusal::NoTerminal,
            place: 1,
        });
    }
    let vars = word(words, 0);
    if MAX_VARIABLES < vars as usize {
        return Err(Refused {
            reason: Refusal::TooManyVariables,
            place: 0,
        });
    }
    Ok(Extent {
        nodes: words.len() / 3,
        vars,
    })
}
