// The nodes of each variable as a chain, from the last of them to the first. Children may stand after their parents in the
// array; with the chains a pass goes by variables, in as many steps as there are nodes and variables, without recursion.
#![tactic(auto)]

ghost use Rattle.std.specs.Prelude.{◌≡◌, ◌≤◌, length, get_or, replicate};
ghost use Rattle.levels.specs.Chains.{chain_count, Linked, Given};

use diagram::limits::MAX_VARIABLES;
use diagram::node::{BddPointer, BddVariable, var_of, word};
use diagram::room::put;

// A chain for each variable that a diagram may have, and one for what the terminals have in its place.
pub const CHAINS: usize = MAX_VARIABLES + 1;

// The last node that tests a variable; node 0 where there is none.
pub fn head_of(heads: &[u32], variable: BddVariable) -> BddPointer
    ensures { result.0 ≡ get_or heads.now variable.0 0 }
{
    BddPointer(word(heads, variable.0 as usize))
}

// The node before another one that tests the same variable; node 0 where there is none.
pub fn next_of(room: &[u32], node: BddPointer) -> BddPointer
    ensures { result.0 ≡ get_or room.now node.0 0 }
{
    BddPointer(word(room, node.to_index()))
}

// Makes the chains: `heads` is zero before.
pub fn link(words: &[u32], heads: &mut [u32], room: &mut [u32], nodes: usize)
    requires { Given words.now nodes × (heads.old ≡ replicate chain_count 0) × (nodes ≤ length room.old) }
    ensures { Linked words.now heads.new room.new nodes }
{
    for p in 2..nodes {
        let node = BddPointer(p as u32);
        let variable = var_of(words, node);
        let last = head_of(heads, variable);
        put(room, p, last.0);
        put(heads, variable.0 as usize, node.0);
    }
}
