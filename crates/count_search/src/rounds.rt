// Rounds of a walk over the nodes by priority, each with a cut by all that are taken.
ghost use Rattle.std.specs.Prelude.{get_or};
ghost use Rattle.naturals.specs.Natural.{value};
ghost use Rattle.approximation.specs.Search.{under_to_count};
ghost use Rattle.cuts.specs.Marks.{Cutting, CutWithin};
ghost use Rattle.trials.specs.Trials.{Found};
ghost use Rattle.count_search.specs.Rounds.{Takeable, Took, Seeking};

use counts::table::count_at;
use cuts::cut::cut;
use cuts::marks::mark;
use diagram::node::{BddPointer, word};
use naturals::{Natural, at_most, excess, zero};
use recounts::changes::change;
use recounts::recount;
use room_map::WEIGHTS;
use trials::answers::Answer;

// Takes the node at a place of the priorities: it is marked, and nothing is left there. Gives its weight.
fn take_node(changed: &mut [u32], room: &mut [u32], nodes: usize, taken: usize) -> Natural
    requires { Takeable room.old nodes taken }
    ensures { Took changed.old room.old changed.new room.new nodes (get_or room.old taken 0) result.words }
{
    let node = BddPointer(word(room, taken));
    mark(room, nodes, node);
    change(changed, room, nodes, node, zero());
    count_at(room, WEIGHTS * nodes, node)
}

// The cut by the nodes that are taken: they are marked already.
fn cut_taken(words: &[u32], sent: &mut [u32], room: &mut [u32], nodes: usize, vars: u32) -> usize
    requires { Cutting words.now sent.old room.old nodes 0 nodes vars }
    ensures { CutWithin words.now nodes 0 room.old room.new result }
{
    cut(words, sent, room, nodes, BddPointer(0), nodes, vars)
}

// The inner walk ends with the node whose weight reaches the rest. Weights of nodes that share a valuation count it twice, so
// after each walk the cut is counted. Until a cut is made the words for sent links say what has changed.
pub(crate) fn search(
    words: &[u32],
    heads: &[u32],
    sent: &mut [u32],
    room: &mut [u32],
    target: Natural,
    count: Natural,
    nodes: usize,
    vars: u32,
) -> Answer
    requires { Seeking words.now heads.now sent.old room.old (value target.words) (value count.words) nodes vars }
    ensures { Found words.now (under_to_count words.now (value target.words)) room.old room.new result.nodes result.trials }
{
    let mut rest = excess(count, target);
    let mut taken = 0;
    let mut trials = 0;
    let found = loop {
        while taken < nodes - 2 {
            let weight = take_node(sent, room, nodes, taken);
            taken += 1;
            if at_most(rest, weight) {
                break;
            }
            rest = excess(rest, weight);
        }
        trials += 1;
        let left = recount(words, heads, sent, room, nodes, vars);
        if at_most(left, target) {
            break cut_taken(words, sent, room, nodes, vars);
        }
        rest = excess(left, target);
    };
    Answer {
        nodes: found,
        trials,
    }
}
