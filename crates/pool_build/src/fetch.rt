// A condition of a pool as its reduced array, built in the working room. The memo stands in the room's first words, one for each place of the
// table, and the store behind it.
ghost use Rattle.std.specs.Prelude.{◌+◌, ◌*◌, ◌≤◌, length};
ghost use Rattle.diagram.specs.Limits.{max_nodes};
ghost use Rattle.pool_build.specs.Work.{Making, Made, Given, Fetching, Fetched};

use crate::gather::walked;
use diagram::node::BddPointer;
use diagram::refusal::Refusal;
use diagram::room::clear;
use diagram::verdict::{Extent, Refused, Verdict};
use reduction::answer::copy;
use store::shelf::{END, start};
use store::walk::build;

const MEMO: usize = 0;

// Builds the condition with root `root`, and gives its number of nodes. Its words stand behind the memo.
fn make(table: &[u32], room: &mut [u32], places: usize, root: BddPointer, vars: u32) -> usize
    requires { Making table.now root.0 places vars room.old }
    ensures { Made table.now root.0 places room.new result }
{
    clear(room, places + END * places);
    start(room, places, places, vars);
    let made = build(table, room, MEMO, places, places, 2, root);
    made.pointer.to_index() + 1
}

// Copies the answer to the output, if there is room for it.
fn give(room: &[u32], output: &mut [u32], places: usize, count: usize, vars: u32) -> Verdict
    requires { (places + 3 * count ≤ length room.now) × (count ≤ max_nodes) }
    ensures { Given room.now output.old output.new places count vars result }
{
    if output.len() < 3 * count {
        return Err(Refused {
            reason: Refusal::ShortOutput,
            place: 0,
        });
    }
    copy(room, places, output, 3 * count);
    Ok(Extent { nodes: count, vars })
}

// The room is zero afterwards.
pub fn fetch(
    table: &[u32],
    room: &mut [u32],
    output: &mut [u32],
    places: usize,
    root: BddPointer,
    vars: u32,
) -> Verdict
    requires { Fetching table.now root.0 places vars room.old }
    ensures { Fetched table.now root.0 vars room.old room.new output.old output.new result }
{
    let part = walked(table);
    let count = make(&table[..part], room, places, root, vars);
    let verdict = give(room, output, places, count, vars);
    let all = room.len();
    clear(room, all);
    verdict
}
