// A pair of nodes steps at the smaller of its two variables: a side that tests it goes to its child, the other stays.
ghost use Rattle.std.specs.Prelude.{◌≡◌};
ghost use Rattle.diagram.specs.Reading.{pass as passOf};
ghost use Rattle.pairs.specs.Pairs.{pair, level_of, ended};

use diagram::node::{BddPointer, BddVariable, high_link_of, low_link_of, var_of};

// The variable at which a pair steps.
pub fn level(first: &[u32], second: &[u32], p: BddPointer, q: BddPointer) -> BddVariable
    ensures { result.0 ≡ level_of first.now second.now (pair p.0 q.0) }
{
    let x = var_of(first, p);
    let y = var_of(second, q);
    if x.is_before(y) { x } else { y }
}

// Whether both nodes are terminals.
pub fn is_ended(p: BddPointer, q: BddPointer) -> bool
    ensures { result ≡ ended (pair p.0 q.0) }
{
    p.is_terminal() && q.is_terminal()
}

// Where a path stands after a variable: at a child of a node that tests it, else at the node still.
pub fn pass(words: &[u32], variable: BddVariable, node: BddPointer, bit: bool) -> BddPointer
    ensures { result.0 ≡ passOf words.now variable.0 node.0 bit }
{
    if node.is_terminal() {
        return node;
    }
    let here = var_of(words, node);
    if here.0 != variable.0 {
        return node;
    }
    if bit {
        return high_link_of(words, node);
    }
    low_link_of(words, node)
}
