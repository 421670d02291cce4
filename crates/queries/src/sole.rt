// The walk of clauses and valuations.
ghost use Rattle.std.specs.Prelude.{◌≡◌};
ghost use Rattle.diagram.specs.Diagram.{size as size_of, vars as varsOf, Ordered};
ghost use Rattle.queries.specs.Queries.{only_child, is_clause, is_valuation};

use diagram::node::{BddPointer, BddVariable, high_link_of, low_link_of, var_of};

// Where one link goes to node 0, the other; where neither does, node 0, at which the walk ends with a no.
fn only_child(words: &[u32], node: BddPointer) -> BddPointer
    ensures { result.0 ≡ only_child words.now node.0 }
{
    let low = low_link_of(words, node);
    let high = high_link_of(words, node);
    if low.0 == 0 {
        return high;
    }
    if high.0 == 0 {
        return low;
    }
    BddPointer(0)
}

// Whether the walk from the root ends at node 1.
pub(crate) fn ends_at_one(words: &[u32], nodes: usize) -> bool
    requires { (nodes ≡ size_of words.now) × Ordered words.now }
    ensures { result ≡ is_clause words.now }
{
    let mut node = BddPointer((nodes - 1) as u32);
    while !node.is_terminal() {
        node = only_child(words, node);
    }
    node.0 == 1
}

// Whether it does so by way of every variable.
pub(crate) fn tests_every_variable(words: &[u32], nodes: usize, vars: BddVariable) -> bool
    requires { (nodes ≡ size_of words.now) × (vars.0 ≡ varsOf words.now) × Ordered words.now }
    ensures { result ≡ is_valuation words.now }
{
    let mut node = BddPointer((nodes - 1) as u32);
    let mut expected = BddVariable(0);
    while !node.is_terminal() {
        let var = var_of(words, node);
        if var.0 != expected.0 {
            return false;
        }
        node = only_child(words, node);
        expected = BddVariable(expected.0 + 1);
    }
    if node.0 != 1 {
        return false;
    }
    expected.0 == vars.0
}
