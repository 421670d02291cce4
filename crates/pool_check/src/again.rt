// Whether no two nodes are equal. Nodes with the same key are a chain: for each key the last node that has it, and for each node the one before
// it with the same key, or 0. So a node is looked for along a short chain, and not among all.
ghost use Rattle.std.specs.Prelude.{◌≡◌, not, ◌&&◌, ◌+◌, ◌<◌, ◌≤◌, set};
ghost use Rattle.diagram.specs.Limits.{max_nodes};
ghost use Rattle.diagram.specs.Diagram.{size};
ghost use Rattle.store.specs.Store.{same};
ghost use Rattle.store.specs.Room.{key_of};
ghost use Rattle.pool.specs.Pool.{Inner, is_free, is_again, each_node};
ghost use Rattle.pool_check.specs.Chains.{head_in, node_in, chain_of, Linked, Met};

use crate::nodes::is_free;
use diagram::limits::MAX_NODES;
use diagram::node::{BddPointer, high_link_of, low_link_of, var_of, word};
use diagram::room::put;
use store::shelf::{is_node, key};

// The keys' words stand in front, and the nodes' behind them.
const BEFORE: usize = MAX_NODES;

const CHAINS: usize = 2 * MAX_NODES;

fn key_of(table: &[u32], place: BddPointer) -> usize
    requires { size table.now ≤ max_nodes }
    ensures { result ≡ key_of (size table.now) (node_in table.now place.0) }
{
    let var = var_of(table, place);
    let low = low_link_of(table, place);
    let high = high_link_of(table, place);
    key(table.len() / 3, var, low, high)
}

// Whether two places have the same words.
fn are_alike(table: &[u32], one: BddPointer, other: BddPointer) -> bool
    requires { one.0 < max_nodes }
    ensures { result ≡ same (node_in table.now one.0) (node_in table.now other.0) }
{
    let var = var_of(table, other);
    let low = low_link_of(table, other);
    let high = high_link_of(table, other);
    is_node(table, 3 * one.to_index(), var, low, high)
}

// Whether a node equal to the one at a place is in its chain, which begins at `from`.
fn is_in(table: &[u32], chains: &[u32], place: BddPointer, from: u32) -> bool
    requires { Linked table.now chains.now place.0 × Inner table.now place.0 × (from ≡ head_in chains.now (chain_of table.now place.0)) }
    ensures { result ≡ is_again table.now place.0 }
{
    let mut q = from;
    while q != 0 {
        if are_alike(table, BddPointer(q), place) {
            return true;
        }
        q = word(chains, BEFORE + q as usize);
    }
    false
}

// Makes a node the last of its chain.
fn link(chains: &mut [u32], key: usize, place: BddPointer, last: u32)
    ensures { chains.new ≡ set (set chains.old (max_nodes + place.0) last) key place.0 }
{
    put(chains, BEFORE + place.to_index(), last);
    put(chains, key, place.0);
}

// Links a node, unless an equal one is there.
fn enter(table: &[u32], chains: &mut [u32], place: BddPointer) -> bool
    requires { Linked table.now chains.old place.0 × Inner table.now place.0 }
    ensures { Met table.now place.0 (is_again table.now place.0) chains.new result }
{
    let key = key_of(table, place);
    let last = word(chains, key);
    if is_in(table, chains, place, last) {
        return true;
    }
    link(chains, key, place, last);
    false
}

// The same for any place: a free one is passed over.
fn meet(table: &[u32], chains: &mut [u32], place: BddPointer) -> bool
    requires { Linked table.now chains.old place.0 × (2 ≤ place.0) × (place.0 < size table.now) }
    ensures { Met table.now place.0 (not (is_free table.now place.0) && is_again table.now place.0) chains.new result }
{
    if is_free(table, place) {
        return false;
    }
    enter(table, chains, place)
}

fn distinct_in(table: &[u32], chains: &mut [u32]) -> bool
    requires { Linked table.now chains.old 2 }
    ensures { result ≡ each_node table.now (λ p. not (is_again table.now p)) }
{
    let places = table.len() / 3;
    for p in 2..places {
        if meet(table, chains, BddPointer(p as u32)) {
            return false;
        }
    }
    true
}

pub(crate) fn are_distinct(table: &[u32]) -> bool
    requires { size table.now ≤ max_nodes }
    ensures { result ≡ each_node table.now (λ p. not (is_again table.now p)) }
{
    let mut chains = [0u32; CHAINS];
    distinct_in(table, &mut chains)
}
