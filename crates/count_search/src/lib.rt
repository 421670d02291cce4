// The search for a count (document 01, "The evening's cut"): nodes are taken by priority until their weights cover what is to
// be removed, and all that are taken are cut; while the count is still too large, the walk goes on where it stopped. The
// answer stands in the working room. The diagram is counted once: weights and rounds go on from that count.
#![tactic(auto)]

mod rounds;

ghost use Rattle.std.specs.Prelude.{◌≡◌, replicate};
ghost use Rattle.naturals.specs.Natural.{value};
ghost use Rattle.levels.specs.Chains.{chain_count};
ghost use Rattle.approximation.specs.Search.{under_to_count};
ghost use Rattle.trials.specs.Trials.{Searching, Found};
ghost use Rattle.count_search.specs.Rounds.{Counted, Weighing, Weighed, Above};

use diagram::limits::MAX_WORDS;
use exact_counts::total::total;
use levels::CHAINS;
use naturals::Natural;
use priorities::prioritise;
use room_map::{COUNTS_END, LINKS, WEIGHTS_END};
use rounds::search;
use trials::answers::Answer;
use trials::first::unmark;
use weights::weigh::weigh_counted;

// The weights, behind what was counted, and the non-terminals by priority.
fn prepare_counted(words: &[u32], heads: &[u32], room: &mut [u32], nodes: usize, vars: u32)
    requires { Weighing words.now heads.now room.old nodes vars }
    ensures { Weighed words.now heads.now room.old room.new }
{
    weigh_counted(
        words,
        heads,
        &mut room[LINKS * nodes..WEIGHTS_END * nodes],
        nodes,
        vars,
    );
    prioritise(room, nodes);
}

// The search with all it needs, for a count that is above the target, over what was counted.
pub fn seek(
    words: &[u32],
    heads: &[u32],
    room: &mut [u32],
    target: Natural,
    count: Natural,
    nodes: usize,
    vars: u32,
) -> Answer
    requires { Above words.now heads.now room.old (value target.words) (value count.words) nodes vars }
    ensures { Found words.now (under_to_count words.now (value target.words)) room.old room.new result.nodes result.trials }
{
    let mut sent = [0u32; MAX_WORDS];
    prepare_counted(words, heads, room, nodes, vars);
    unmark(room, nodes);
    search(words, heads, &mut sent, room, target, count, nodes, vars)
}

// How many valuations the diagram has, with what was counted in the room.
pub fn count_of(
    words: &[u32],
    heads: &mut [u32],
    room: &mut [u32],
    nodes: usize,
    vars: u32,
) -> Natural
    requires { Searching words.now room.old nodes vars × (heads.old ≡ replicate chain_count 0) }
    ensures { Counted words.now heads.new room.old room.new result.words }
{
    total(
        words,
        heads,
        &mut room[LINKS * nodes..COUNTS_END * nodes],
        nodes,
        vars,
        true,
    )
}
