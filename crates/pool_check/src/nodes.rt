// What can be said of each place by itself: of its own words, and of its children's variables.
ghost use Rattle.std.specs.Prelude.{◌≤◌, ◌≡◌, not, ◌&&◌, get_or};
ghost use Rattle.diagram.specs.Limits.{max_nodes};
ghost use Rattle.diagram.specs.Diagram.{size};
ghost use Rattle.diagram.specs.Verdict.{any};
ghost use Rattle.pool.specs.Pool.{slot_count, is_free, is_name, is_right, each_node};

use diagram::node::{BddPointer, high_link_of, low_link_of, var_of, word};
use diagram_reach::is_above;
use pool::SLOTS;

// A slot's words below this one name nothing, 0, or a terminal.
const FIRST_NODE_NAME: u32 = 3;

// Whether all words of a place are zero.
pub fn is_free(table: &[u32], place: BddPointer) -> bool
    ensures { result ≡ is_free table.now place.0 }
{
    let var = var_of(table, place);
    if var.0 != 0 {
        return false;
    }
    let low = low_link_of(table, place);
    if low.0 != 0 {
        return false;
    }
    let high = high_link_of(table, place);
    high.0 == 0
}

// Whether a slot's word is 0, or names a terminal or a node.
fn is_name(table: &[u32], name: u32) -> bool
    ensures { result ≡ is_name table.now name }
{
    if name < FIRST_NODE_NAME {
        return true;
    }
    if table.len() / 3 < name as usize {
        return false;
    }
    !is_free(table, BddPointer(name - 1))
}

pub(crate) fn are_names(table: &[u32], slots: &[u32]) -> bool
    ensures { result ≡ not (any slot_count (λ k. not (is_name table.now (get_or slots.now k 0)))) }
{
    for k in 0..SLOTS {
        if !is_name(table, word(slots, k)) {
            return false;
        }
    }
    true
}

// Whether variable and links are in range, both children stand at larger variables, and they are two.
fn is_right(table: &[u32], node: BddPointer) -> bool
    ensures { result ≡ is_right table.now node.0 }
{
    let places = table.len() / 3;
    let var = var_of(table, node);
    if word(table, 0) <= var.0 {
        return false;
    }
    let low = low_link_of(table, node);
    if places <= low.to_index() {
        return false;
    }
    let high = high_link_of(table, node);
    if places <= high.to_index() {
        return false;
    }
    if low.0 == high.0 {
        return false;
    }
    is_above(table, node)
}

// Whether a place is a node whose words are not right.
fn is_wrong(table: &[u32], place: BddPointer) -> bool
    ensures { result ≡ (not (is_free table.now place.0) && not (is_right table.now place.0)) }
{
    if is_right(table, place) {
        return false;
    }
    !is_free(table, place)
}

pub(crate) fn are_right(table: &[u32]) -> bool
    requires { size table.now ≤ max_nodes }
    ensures { result ≡ each_node table.now (is_right table.now) }
{
    let places = table.len() / 3;
    for p in 2..places {
        if is_wrong(table, BddPointer(p as u32)) {
            return false;
        }
    }
    true
}
