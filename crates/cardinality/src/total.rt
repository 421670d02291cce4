// The count of a whole diagram.
ghost use Rattle.std.specs.Prelude.{◌≡◌, ◌*◌, length, replicate};
ghost use Rattle.diagram.specs.Diagram.{size, vars as varsOf, Ordered};
ghost use Rattle.cardinality.specs.Cardinality.{cardinality_of};

use crate::floats::{nought, power_of_two};
use crate::table::count_at;
use crate::walk::count_all;
use diagram::node::{BddPointer, var_of};
use diagram::room::clear;

// The root's count, doubled for the variables above the root. The room is zero before and after.
pub(crate) fn total(words: &[u32], room: &mut [u32], nodes: usize, vars: u32) -> f64
    requires { (nodes ≡ size words.now) × Ordered words.now × (vars ≡ varsOf words.now) × (room.old ≡ replicate (3 * nodes) 0) }
    ensures { (result ≡ cardinality_of words.now) × (room.new ≡ replicate (length room.old) 0) }
{
    if nodes == 1 {
        return nought();
    }
    count_all(words, room, nodes, vars);
    let root = BddPointer((nodes - 1) as u32);
    let below = count_at(room, nodes, root);
    let above = var_of(words, root);
    let all = room.len();
    clear(room, all);
    below * power_of_two(above.0)
}
