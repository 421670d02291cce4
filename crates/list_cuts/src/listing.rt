// Refusals 13 and 14: what can be said of a list.
ghost use Rattle.std.specs.Prelude.{◌≡◌, List, ℕ, position, leb, ltb};
ghost use Rattle.diagram.specs.Diagram.{size, vars as varsOf};
ghost use Rattle.diagram.specs.Verdict.{said};
ghost use Rattle.approximation.specs.Cut.{list_of};

use diagram::refusal::Refusal;
use diagram::verdict::{Extent, Refused, Verdict};

// The first place in a list of a pointer that names no node.
fn first_outside(list: &[u32], nodes: usize) -> Option<usize>
    ensures { result ≡ position (λ p. leb nodes p) list.now }
{
    list.iter().position(|pointer| nodes <= *pointer as usize)
}

// The first place of a terminal.
fn first_terminal(list: &[u32]) -> Option<usize>
    ensures { result ≡ position (λ p. ltb p 2) list.now }
{
    list.iter().position(|pointer| *pointer < 2)
}

// The checks of a list for an accepted diagram. A terminal is refused whether or not the root is listed, also where it is
// itself the root: nobody who means to cut lists it.
pub(crate) fn listing(list: &[u32], nodes: usize, vars: u32) -> Verdict
    ensures { (w : List ℕ) → nodes ≡ size w → vars ≡ varsOf w → said result ≡ list_of w list.now }
{
    let outside = first_outside(list, nodes);
    let terminal = first_terminal(list);
    if let Some(place) = outside {
        return Err(Refused {
            reason: Refusal::BadPointer,
            place,
        });
    }
    if let Some(place) = terminal {
        return Err(Refused {
            reason: Refusal::ListedTerminal,
            place,
        });
    }
    Ok(Extent { nodes, vars })
}
