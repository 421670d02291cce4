// A target that the diagram meets as it is given (document 02, E8).
ghost use Rattle.approximation.specs.Met.{met};
ghost use Rattle.targets.specs.Hits.{Targeting, Hit};

use reduction::answer::{answer, copy};
use trials::answers::Answer;

// Its words as they are, where they are to be kept so; else it is reduced. No cut is made for either.
pub fn meet(
    words: &[u32],
    as_is: bool,
    room: &mut [u32],
    output: &mut [u32],
    nodes: usize,
    vars: u32,
) -> Answer
    requires { Targeting words.now room.old output.old nodes vars }
    ensures { Hit (met as_is words.now) room.old room.new output.old output.new result.nodes result.trials }
{
    if as_is {
        copy(words, 0, output, words.len());
        return Answer { nodes, trials: 0 };
    }
    let made = answer(words, room, output, nodes, vars);
    Answer {
        nodes: made,
        trials: 0,
    }
}
