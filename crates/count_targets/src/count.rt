// To a count.
ghost use Rattle.std.specs.Prelude.{true, false};
ghost use Rattle.naturals.specs.Natural.{value};
ghost use Rattle.diagram.specs.Verdict.{verdict_in};
ghost use Rattle.negation.specs.Negation.{negated};
ghost use Rattle.approximation.specs.Search.{under_to_count};
ghost use Rattle.approximation.specs.Met.{under_count_answer, over_count_answer};
ghost use Rattle.trials.specs.Trials.{Found};
ghost use Rattle.targets.specs.Targets.{nodes_in, trials_in, UnderToCount, OverToCount};
ghost use Rattle.targets.specs.Hits.{Hit};
ghost use Rattle.count_targets.specs.Aims.{to_count, ToCount, remaining, Mirroring, Lacking, Counting};

use count_search::{count_of, seek};
use diagram::limits::MAX_WORDS;
use diagram::node::BddPointer;
use diagram::room::{clear, most};
use diagram::verdict::{Finding, Output};
use diagram_check::validate::admit;
use levels::CHAINS;
use naturals::{Natural, at_most, excess, is_zero, power_of_two};
use negation::negate;
use recounts::turning::turn;
use room_map::COUNTS_END;
use targets::Approximated;
use targets::met::meet;
use told::count::tell;
use trials::answers::{Answer, constantly, give, give_back};

// False where nothing may be left; the diagram itself where it has no more than are asked for; else the search.
fn under(
    words: &[u32],
    target: Natural,
    as_is: bool,
    room: &mut [u32],
    output: &mut [u32],
    nodes: usize,
    vars: u32,
) -> Answer
    requires { Counting false words.now room.old output.old (value target.words) nodes vars }
    ensures { Hit (under_count_answer as_is words.now (value target.words)) room.old room.new output.old output.new result.nodes result.trials }
{
    if is_zero(target) {
        let none = constantly(room, BddPointer(0), nodes, vars);
        give(room, output, most(nodes), none.nodes);
        return none;
    }
    let mut heads = [0u32; CHAINS];
    let count = count_of(words, &mut heads, room, nodes, vars);
    if at_most(count, target) {
        clear(room, COUNTS_END * most(nodes));
        return meet(words, as_is, room, output, nodes, vars);
    }
    let found = seek(words, &heads, room, target, count, nodes, vars);
    give(room, output, most(nodes), found.nodes);
    found
}

// The search over the negation. What was counted is turned to it: it is not counted again.
fn turn_and_seek(
    words: &[u32],
    heads: &[u32],
    room: &mut [u32],
    target: Natural,
    count: Natural,
    nodes: usize,
    vars: u32,
) -> Answer
    requires { Mirroring words.now heads.now room.old (value target.words) (value count.words) nodes vars }
    ensures { Found (negated words.now) (under_to_count (negated words.now) (value target.words)) room.old room.new result.nodes result.trials }
{
    let mut flipped = [0u32; MAX_WORDS];
    let made = negate(words, &mut flipped, nodes, vars);
    turn(words, room, nodes, vars);
    seek(&flipped[..3 * made], heads, room, target, count, made, vars)
}

// Underapproximates the negation to what the target leaves of all valuations.
fn under_negation(
    words: &[u32],
    heads: &[u32],
    room: &mut [u32],
    target: Natural,
    count: Natural,
    nodes: usize,
    vars: u32,
) -> Answer
    requires { Lacking words.now heads.now room.old (value target.words) (value count.words) nodes vars }
    ensures { Found (negated words.now) (under_to_count (negated words.now) (remaining words.now (value target.words))) room.old room.new result.nodes result.trials }
{
    let all = power_of_two(vars).unwrap();
    let left = excess(all, target);
    if is_zero(left) {
        return constantly(room, BddPointer(0), nodes, vars);
    }
    let others = excess(all, count);
    turn_and_seek(words, heads, room, left, others, nodes, vars)
}

// The diagram itself where it has as many as are asked for; else its negation is underapproximated and negated back.
fn over(
    words: &[u32],
    target: Natural,
    as_is: bool,
    room: &mut [u32],
    output: &mut [u32],
    nodes: usize,
    vars: u32,
) -> Answer
    requires { Counting true words.now room.old output.old (value target.words) nodes vars }
    ensures { Hit (over_count_answer as_is words.now (value target.words)) room.old room.new output.old output.new result.nodes result.trials }
{
    let mut heads = [0u32; CHAINS];
    let count = count_of(words, &mut heads, room, nodes, vars);
    if at_most(target, count) {
        clear(room, COUNTS_END * most(nodes));
        return meet(words, as_is, room, output, nodes, vars);
    }
    let found = under_negation(words, &heads, room, target, count, nodes, vars);
    let made = give_back(room, output, most(nodes), found.nodes, vars);
    Answer {
        nodes: made,
        trials: found.trials,
    }
}

// From below, or from above.
fn hit(
    words: &[u32],
    target: Natural,
    above: bool,
    as_is: bool,
    room: &mut [u32],
    output: &mut [u32],
    nodes: usize,
    vars: u32,
) -> Answer
    requires { Counting above words.now room.old output.old (value target.words) nodes vars }
    ensures { Hit (to_count above as_is words.now (value target.words)) room.old room.new output.old output.new result.nodes result.trials }
{
    if above {
        return over(words, target, as_is, room, output, nodes, vars);
    }
    under(words, target, as_is, room, output, nodes, vars)
}

fn to_count(
    words: &[u32],
    target: Natural,
    above: bool,
    as_is: bool,
    room: &mut [u32],
    output: &mut [u32],
) -> Approximated
    ensures { ToCount above as_is words.now (value target.words) room.old room.new output.old output.new (verdict_in result) (nodes_in result) (trials_in result) }
{
    let extent = admit(words, room, Output::Diagram(output.len()))?;
    tell(target, above, extent.nodes, extent.vars)?;
    let value = hit(
        words,
        target,
        above,
        as_is,
        room,
        output,
        extent.nodes,
        extent.vars,
    );
    Ok(Finding { extent, value })
}

// The answer has at most so many valuations, and it holds only where the diagram does.
pub fn underapproximate_to_cardinality(
    words: &[u32],
    target: Natural,
    as_is: bool,
    room: &mut [u32],
    output: &mut [u32],
) -> Approximated
    ensures { UnderToCount as_is words.now (value target.words) room.old room.new output.old output.new (verdict_in result) (nodes_in result) (trials_in result) }
{
    to_count(words, target, false, as_is, room, output)
}

// The answer has at least so many valuations, and it holds wherever the diagram does.
pub fn overapproximate_to_cardinality(
    words: &[u32],
    target: Natural,
    as_is: bool,
    room: &mut [u32],
    output: &mut [u32],
) -> Approximated
    ensures { OverToCount as_is words.now (value target.words) room.old room.new output.old output.new (verdict_in result) (nodes_in result) (trials_in result) }
{
    to_count(words, target, true, as_is, room, output)
}
