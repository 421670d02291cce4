// Refusals 16 and 19: what can be said of a count target.
ghost use Rattle.std.specs.Prelude.{◌≡◌, ◌&&◌, List, ℕ, ◌≤◌, ◌^◌, ltb};
ghost use Rattle.naturals.specs.Natural.{value};
ghost use Rattle.diagram.specs.Limits.{max_variables};
ghost use Rattle.diagram.specs.Diagram.{size, vars as varsOf};
ghost use Rattle.diagram.specs.Verdict.{said};
ghost use Rattle.approximation.specs.Cut.{under_count_of, over_count_of};
ghost use Rattle.told.specs.Told.{count_told_of};

use diagram::refusal::Refusal;
use diagram::verdict::{Extent, Refused, Verdict};
use naturals::{Natural, at_most, is_zero, power_of_two};

// Whether a count lies strictly between none and all valuations.
fn is_between(target: Natural, vars: u32) -> bool
    requires { vars ≤ max_variables }
    ensures { result ≡ (ltb 0 (value target.words) && ltb (value target.words) (2 ^ vars)) }
{
    if is_zero(target) {
        return false;
    }
    let all = power_of_two(vars).unwrap();
    !at_most(all, target)
}

// An array of two nodes is true, and nothing of it can be cut.
fn under_told(target: Natural, nodes: usize, vars: u32) -> Verdict
    requires { vars ≤ max_variables }
    ensures { (w : List ℕ) → nodes ≡ size w → vars ≡ varsOf w → said result ≡ under_count_of w (value target.words) }
{
    if nodes == 2 {
        if is_between(target, vars) {
            return Err(Refused {
                reason: Refusal::NothingToCut,
                place: 0,
            });
        }
        return Ok(Extent { nodes, vars });
    }
    Ok(Extent { nodes, vars })
}

// No diagram has more than all valuations; an array of one node is false, and nothing of its negation can be cut.
fn over_told(target: Natural, nodes: usize, vars: u32) -> Verdict
    requires { vars ≤ max_variables }
    ensures { (w : List ℕ) → nodes ≡ size w → vars ≡ varsOf w → said result ≡ over_count_of w (value target.words) }
{
    let all = power_of_two(vars).unwrap();
    if !at_most(target, all) {
        return Err(Refused {
            reason: Refusal::CountTooLarge,
            place: 0,
        });
    }
    if nodes == 1 {
        if is_between(target, vars) {
            return Err(Refused {
                reason: Refusal::NothingToCut,
                place: 0,
            });
        }
        return Ok(Extent { nodes, vars });
    }
    Ok(Extent { nodes, vars })
}

pub fn tell(target: Natural, above: bool, nodes: usize, vars: u32) -> Verdict
    requires { vars ≤ max_variables }
    ensures { (w : List ℕ) → nodes ≡ size w → vars ≡ varsOf w → said result ≡ count_told_of above w (value target.words) }
{
    if above {
        return over_told(target, nodes, vars);
    }
    under_told(target, nodes, vars)
}
