// The one cut that a request means.
ghost use Rattle.naturals.specs.Natural.{value};
ghost use Rattle.request.specs.Request.{nodes, cases, aim_of};
ghost use Rattle.diagram.specs.Verdict.{verdict_in};
ghost use Rattle.targets.specs.Targets.{nodes_in, trials_in};
ghost use Rattle.shrinking.specs.Shrinking.{Wants};

use count_targets::count::{overapproximate_to_cardinality, underapproximate_to_cardinality};
use naturals::Natural;
use request::{Amount, Target};
use targets::Approximated;
use targets::size::{overapproximate_to_size, underapproximate_to_size};

fn to_size(
    words: &[u32],
    keep: bool,
    as_is: bool,
    target: u32,
    room: &mut [u32],
    output: &mut [u32],
) -> Approximated
    ensures { Wants words.now keep as_is (nodes target) room.old room.new output.old output.new (verdict_in result) (nodes_in result) (trials_in result) }
{
    if keep {
        return overapproximate_to_size(words, target, as_is, room, output);
    }
    underapproximate_to_size(words, target, as_is, room, output)
}

fn to_count(
    words: &[u32],
    keep: bool,
    as_is: bool,
    target: Natural,
    room: &mut [u32],
    output: &mut [u32],
) -> Approximated
    ensures { Wants words.now keep as_is (cases (value target.words)) room.old room.new output.old output.new (verdict_in result) (nodes_in result) (trials_in result) }
{
    if keep {
        return overapproximate_to_cardinality(words, target, as_is, room, output);
    }
    underapproximate_to_cardinality(words, target, as_is, room, output)
}

pub(crate) fn shrink_words(
    words: &[u32],
    target: Target,
    room: &mut [u32],
    output: &mut [u32],
) -> Approximated
    ensures { Wants words.now target.keep target.as_is (aim_of target) room.old room.new output.old output.new (verdict_in result) (nodes_in result) (trials_in result) }
{
    match target.amount {
        Amount::Nodes(size) => to_size(words, target.keep, target.as_is, size, room, output),
        Amount::Cases(count) => to_count(words, target.keep, target.as_is, count, room, output),
    }
}
