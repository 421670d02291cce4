// The search for a size (document 01, "The evening's cut"). Its answer stands in the working room.
#![tactic(auto)]

ghost use Rattle.std.specs.Prelude.{◌-◌, ◌<◌};
ghost use Rattle.approximation.specs.Search.{size_search, under_to_size};
ghost use Rattle.trials.specs.Trials.{Searching, Found};
ghost use Rattle.size_search.specs.Search.{Halving};

use diagram::limits::MAX_WORDS;
use diagram::node::BddPointer;
use trials::answers::{Answer, constantly};
use trials::first::{cut_first, cut_first_within};
use trials::prepare;

// Between none and as many priorities as there are nodes too many, by halves. A trial ends at one node over the target: that it
// has more is all that is asked of it.
fn search(
    words: &[u32],
    sent: &mut [u32],
    room: &mut [u32],
    target: usize,
    nodes: usize,
    vars: u32,
) -> Answer
    requires { Halving words.now sent.old room.old target nodes vars }
    ensures { Found words.now (size_search words.now target (nodes - target) 0 (nodes - target) 0) room.old room.new result.nodes result.trials }
{
    let mut start = 0;
    let mut stop = nodes - target;
    let mut trials = 0;
    while start < stop {
        let check = (start + stop) / 2;
        let made = cut_first_within(words, sent, room, target, check, nodes, vars);
        if made == target {
            return Answer {
                nodes: made,
                trials: trials + 1,
            };
        }
        if made < target {
            stop = check;
            trials += 1;
        } else {
            start = check + 1;
            trials += 1;
        }
    }
    let made = cut_first(words, sent, room, stop, nodes, vars);
    Answer {
        nodes: made,
        trials: trials + 1,
    }
}

// The search with all it needs, for a target that leaves more than a constant.
fn searched(words: &[u32], room: &mut [u32], target: usize, nodes: usize, vars: u32) -> Answer
    requires { Searching words.now room.old nodes vars × (2 < target) × (target < nodes) }
    ensures { Found words.now (under_to_size words.now target) room.old room.new result.nodes result.trials }
{
    let mut sent = [0u32; MAX_WORDS];
    prepare(words, room, nodes, vars);
    search(words, &mut sent, room, target, nodes, vars)
}

// For a target that the diagram does not meet as it is.
pub fn under_size(words: &[u32], room: &mut [u32], target: u32, nodes: usize, vars: u32) -> Answer
    requires { Searching words.now room.old nodes vars × (target < nodes) }
    ensures { Found words.now (under_to_size words.now target) room.old room.new result.nodes result.trials }
{
    if target <= 2 {
        return constantly(room, BddPointer(0), nodes, vars);
    }
    searched(words, room, target as usize, nodes, vars)
}
