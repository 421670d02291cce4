// The test of table and slots, part by part.
ghost use Rattle.std.specs.Prelude.{◌≡◌};
ghost use Rattle.pool.specs.Pool.{is_measured, is_ended, is_pool};

use crate::again::are_distinct;
use crate::nodes::{are_names, are_right};
use crate::wanted::are_wanted;
use diagram::limits::{MAX_VARIABLES, MAX_WORDS};
use diagram::node::{BddPointer, word};
use diagram_form::terminals::is_terminal_node;
use pool::{SLOTS, TERMINAL_WORDS};

// Whole places, of which two are the terminals, and as many slots as there must be.
fn is_measured(table: usize, slots: usize) -> bool
    ensures { result ≡ is_measured table slots }
{
    if table % 3 != 0 {
        return false;
    }
    if table < TERMINAL_WORDS {
        return false;
    }
    if MAX_WORDS < table {
        return false;
    }
    slots == SLOTS
}

// The terminals, and the variable count.
fn is_ended(table: &[u32]) -> bool
    ensures { result ≡ is_ended table.now }
{
    if !is_terminal_node(table, BddPointer(0)) {
        return false;
    }
    if !is_terminal_node(table, BddPointer(1)) {
        return false;
    }
    word(table, 0) as usize <= MAX_VARIABLES
}

// Whether any words are the table and the slots of a well-formed pool.
pub fn is_pool(table: &[u32], slots: &[u32]) -> bool
    ensures { result ≡ is_pool table.now slots.now }
{
    if !is_measured(table.len(), slots.len()) {
        return false;
    }
    if !is_ended(table) {
        return false;
    }
    if !are_names(table, slots) {
        return false;
    }
    if !are_right(table) {
        return false;
    }
    if !are_wanted(table, slots) {
        return false;
    }
    are_distinct(table)
}
