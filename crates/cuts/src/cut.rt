// The cut of an ordered array by the marks in the working room. Where these, its tables and its words stand crates/room_map says.
ghost use Rattle.std.specs.Prelude.{◌≡◌, cond, eqb, ◌+◌, ◌*◌, ◌≤◌, length};
ghost use Rattle.diagram.specs.Limits.{max_nodes, room_per_node};
ghost use Rattle.cuts.specs.Marks.{Built, Building, Cutting, CutWithin, constant_at};

use crate::marks::is_marked;
use crate::send::send;
use diagram::node::BddPointer;
use diagram::room::{clear, most, put};
use reduction::answer::make;
use room_map::{ANSWER, TABLES, TABLES_END};
use store::shelf::forget;

// Writes the constant that stands for a terminal at a place of the room, and gives its number of nodes.
pub fn constant(room: &mut [u32], at: usize, target: BddPointer, vars: u32) -> usize
    requires { at ≤ room_per_node * max_nodes }
    ensures { (room.new ≡ constant_at room.old at target.0 vars) × (result ≡ cond (eqb target.0 0) 1 2) }
{
    put(room, at, vars);
    put(room, at + 1, 0);
    put(room, at + 2, 0);
    if target.0 == 0 {
        return 1;
    }
    put(room, at + 3, vars);
    put(room, at + 4, 1);
    put(room, at + 5, 1);
    2
}

// Builds the reduced words of the copy on a shelf, whatever stood there before.
fn build(sent: &[u32], shelf: &mut [u32], limit: usize, nodes: usize, vars: u32) -> usize
    requires { Building sent.now shelf.old limit nodes vars }
    ensures { Built sent.now shelf.old shelf.new limit result }
{
    let base = most(nodes);
    clear(shelf, base);
    forget(shelf, base, limit);
    make(sent, shelf, limit, nodes, vars)
}

// The cut by the marks with at most `limit` nodes, and its number of nodes: one more than the limit where it has more.
pub fn cut(
    words: &[u32],
    sent: &mut [u32],
    room: &mut [u32],
    limit: usize,
    target: BddPointer,
    nodes: usize,
    vars: u32,
) -> usize
    requires { Cutting words.now sent.old room.old limit target.0 nodes vars }
    ensures { CutWithin words.now limit target.0 room.old room.new result }
{
    let most = most(nodes);
    if is_marked(room, most, BddPointer((nodes - 1) as u32)) {
        return constant(room, ANSWER * most, target, vars);
    }
    send(words, room, most, target, sent, nodes);
    build(
        &sent[..3 * nodes],
        &mut room[TABLES * most..TABLES_END * most],
        limit,
        nodes,
        vars,
    )
}
