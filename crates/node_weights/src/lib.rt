// Count and weights of any words (document 01, port order 6; document 02, E2): the check, then both in one pass.
#![tactic(auto)]

ghost use Rattle.diagram.specs.Verdict.{verdict_in};
ghost use Rattle.counts.specs.Counted.{words_in};
ghost use Rattle.weights.specs.Weighed.{Weighs, CountsAndWeighs};

use diagram::room::clear;
use diagram::verdict::{Finding, Output, Refused, Verdict};
use diagram_check::validate::admit;
use naturals::Natural;
use weights::weigh::{USED, count_and_weigh, hand_over};

// How many valuations the diagram holds for, and the words of a count in the output for each node, in the order of the nodes.
pub fn count_and_weights(
    words: &[u32],
    room: &mut [u32],
    output: &mut [u32],
) -> Result<Finding<Natural>, Refused>
    ensures { CountsAndWeighs words.now room.old room.new output.old output.new (verdict_in result) (words_in result) }
{
    let extent = admit(words, room, Output::Weights(output.len()))?;
    let value = count_and_weigh(words, room, extent.nodes, extent.vars);
    hand_over(room, output, extent.nodes);
    clear(room, USED * extent.nodes);
    Ok(Finding { extent, value })
}

// The weights alone: no pass is spared, for a node's weight rests on the counts.
pub fn node_valuation_weights(words: &[u32], room: &mut [u32], output: &mut [u32]) -> Verdict
    ensures { Weighs words.now room.old room.new output.old output.new result }
{
    let both = count_and_weights(words, room, output)?;
    Ok(both.extent)
}
