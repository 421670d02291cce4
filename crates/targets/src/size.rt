// To a size.
ghost use Rattle.std.specs.Prelude.{◌<◌};
ghost use Rattle.diagram.specs.Verdict.{verdict_in};
ghost use Rattle.approximation.specs.Search.{under_to_size, over_to_size};
ghost use Rattle.targets.specs.Targets.{nodes_in, trials_in, UnderToSize, OverToSize};
ghost use Rattle.targets.specs.Hits.{to_size, ToSize, Targeting, Hit};

use crate::Approximated;
use crate::met::meet;
use diagram::limits::MAX_WORDS;
use diagram::room::most;
use diagram::verdict::{Finding, Output};
use diagram_check::validate::admit;
use negation::negate;
use size_search::under_size;
use told::size::tell;
use trials::answers::{Answer, give, give_back};

fn under(
    words: &[u32],
    target: u32,
    room: &mut [u32],
    output: &mut [u32],
    nodes: usize,
    vars: u32,
) -> Answer
    requires { Targeting words.now room.old output.old nodes vars × (target < nodes) }
    ensures { Hit (under_to_size words.now target) room.old room.new output.old output.new result.nodes result.trials }
{
    let found = under_size(words, room, target, nodes, vars);
    give(room, output, most(nodes), found.nodes);
    found
}

// Negate, underapproximate, negate. One node alone is false, whichever way it is asked for.
fn over(
    words: &[u32],
    target: u32,
    room: &mut [u32],
    output: &mut [u32],
    nodes: usize,
    vars: u32,
) -> Answer
    requires { Targeting words.now room.old output.old nodes vars × (target < nodes) }
    ensures { Hit (over_to_size words.now target) room.old room.new output.old output.new result.nodes result.trials }
{
    if target < 2 {
        return under(words, target, room, output, nodes, vars);
    }
    let mut flipped = [0u32; MAX_WORDS];
    let made = negate(words, &mut flipped, nodes, vars);
    let found = under_size(&flipped[..3 * made], room, target, made, vars);
    let count = give_back(room, output, most(nodes), found.nodes, vars);
    Answer {
        nodes: count,
        trials: found.trials,
    }
}

// The diagram itself where it meets the target; else the search from below, or from above.
fn hit(
    words: &[u32],
    target: u32,
    above: bool,
    as_is: bool,
    room: &mut [u32],
    output: &mut [u32],
    nodes: usize,
    vars: u32,
) -> Answer
    requires { Targeting words.now room.old output.old nodes vars }
    ensures { Hit (to_size above as_is words.now target) room.old room.new output.old output.new result.nodes result.trials }
{
    if nodes <= target as usize {
        return meet(words, as_is, room, output, nodes, vars);
    }
    if above {
        return over(words, target, room, output, nodes, vars);
    }
    under(words, target, room, output, nodes, vars)
}

fn to_size(
    words: &[u32],
    target: u32,
    above: bool,
    as_is: bool,
    room: &mut [u32],
    output: &mut [u32],
) -> Approximated
    ensures { ToSize above as_is words.now target room.old room.new output.old output.new (verdict_in result) (nodes_in result) (trials_in result) }
{
    let checked = admit(words, room, Output::Diagram(output.len()));
    let extent = tell(checked, words, target, above)?;
    let value = hit(
        words,
        target,
        above,
        as_is,
        room,
        output,
        extent.nodes,
        extent.vars,
    );
    Ok(Finding { extent, value })
}

// The answer has at most so many nodes, and it holds only where the diagram does.
pub fn underapproximate_to_size(
    words: &[u32],
    target: u32,
    as_is: bool,
    room: &mut [u32],
    output: &mut [u32],
) -> Approximated
    ensures { UnderToSize as_is words.now target room.old room.new output.old output.new (verdict_in result) (nodes_in result) (trials_in result) }
{
    to_size(words, target, false, as_is, room, output)
}

// The answer has at most so many nodes, and it holds wherever the diagram does.
pub fn overapproximate_to_size(
    words: &[u32],
    target: u32,
    as_is: bool,
    room: &mut [u32],
    output: &mut [u32],
) -> Approximated
    ensures { OverToSize as_is words.now target room.old room.new output.old output.new (verdict_in result) (nodes_in result) (trials_in result) }
{
    to_size(words, target, true, as_is, room, output)
}
