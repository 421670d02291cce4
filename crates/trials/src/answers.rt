// The answer of a search stands in the working room: how a constant gets there, and how an answer is given.
ghost use Rattle.std.specs.Prelude.{◌≤◌, max};
ghost use Rattle.diagram.specs.Limits.{max_nodes};
ghost use Rattle.trials.specs.Answers.{Constant, Giving, Given, Returning, Returned};

use cuts::cut::constant;
use diagram::node::BddPointer;
use diagram::room::{clear, most};
use negation::negate;
use reduction::answer::copy;
use room_map::{ANSWER, END};

// How many nodes the answer has, and how many cuts by a list were made for it.
#[derive(Clone, Copy, Debug, PartialEq, Eq)]
pub struct Answer {
    pub nodes: usize,
    pub trials: usize,
}

// A constant is the answer.
pub fn constantly(room: &mut [u32], target: BddPointer, nodes: usize, vars: u32) -> Answer
    requires { nodes ≤ max_nodes }
    ensures { Constant (max nodes 2) target.0 vars room.old room.new result.nodes result.trials }
{
    let made = constant(room, ANSWER * most(nodes), target, vars);
    Answer {
        nodes: made,
        trials: 0,
    }
}

// An answer of `count` nodes goes to the output, and the room is cleared.
pub fn give(room: &mut [u32], output: &mut [u32], most: usize, count: usize)
    requires { Giving room.old output.old most count }
    ensures { Given most count room.old output.old room.new output.new }
{
    copy(room, ANSWER * most, output, 3 * count);
    clear(room, END * most);
}

// The negation of an answer of `count` nodes goes to the output, and the room is cleared. The number of its nodes.
pub fn give_back(
    room: &mut [u32],
    output: &mut [u32],
    most: usize,
    count: usize,
    vars: u32,
) -> usize
    requires { Returning room.old output.old most count vars }
    ensures { Returned most count room.old output.old room.new output.new result }
{
    let from = ANSWER * most;
    let made = negate(&room[from..from + 3 * count], output, count, vars);
    clear(room, END * most);
    made
}
