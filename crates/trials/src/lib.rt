// What the searches for a target share: priorities in the working room, the cut by the first of them, and the answer.
#![tactic(auto)]

pub mod answers;
pub mod first;

ghost use Rattle.trials.specs.Trials.{Preparing, Prepared};

use priorities::prioritise;
use room_map::{LINKS, WEIGHTS_END};
use weights::weigh::count_and_weigh;

// The weights of the nodes, and the non-terminals by priority.
pub fn prepare(words: &[u32], room: &mut [u32], nodes: usize, vars: u32)
    requires { Preparing words.now room.old nodes vars }
    ensures { Prepared words.now room.old room.new }
{
    count_and_weigh(
        words,
        &mut room[LINKS * nodes..WEIGHTS_END * nodes],
        nodes,
        vars,
    );
    prioritise(room, nodes);
}
