// Refusals 1 to 5: what can be said of lengths alone.
ghost use Rattle.std.specs.Prelude.{◌≡◌, ◌≤◌};
ghost use Rattle.diagram.specs.Limits.{max_nodes};
ghost use Rattle.diagram.specs.Diagram.{size};
ghost use Rattle.diagram.specs.Verdict.{said, short, lengths_of};

use diagram::limits::{MAX_NODES, MAX_VARIABLES, ROOM_PER_NODE};
use diagram::node::word;
use diagram::refusal::Refusal;
use diagram::room::most;
use diagram::verdict::{Extent, Output, Refused, Verdict};

// Whether the output that is lent is shorter than the operation's answers may be.
fn is_short(words: &[u32], output: Output) -> bool
    requires { size words.now ≤ max_nodes }
    ensures { result ≡ short words.now output }
{
    let nodes = words.len() / 3;
    match output {
        Output::Nothing => false,
        Output::Diagram(lent) => lent < 3 * most(nodes),
        Output::Weights(lent) => lent < naturals::WORDS * nodes,
        Output::PerVariable(lent) => lent < MAX_VARIABLES,
    }
}

pub fn lengths(words: &[u32], room: usize, output: Output) -> Verdict
    ensures { said result ≡ lengths_of words.now output room }
{
    if words.len() == 0 {
        return Err(Refused {
            reason: Refusal::NoWords,
            place: 0,
        });
    }
    if words.len() % 3 != 0 {
        return Err(Refused {
            reason: Refusal::BrokenWords,
            place: 0,
        });
    }
    let nodes = words.len() / 3;
    if MAX_NODES < nodes {
        return Err(Refused {
            reason: Refusal::TooManyNodes,
            place: 0,
        });
    }
    if is_short(words, output) {
        return Err(Refused {
            reason: Refusal::ShortOutput,
            place: 0,
        });
    }
    if room < ROOM_PER_NODE * most(nodes) {
        return Err(Refused {
            reason: Refusal::ShortRoom,
            place: 0,
        });
    }
    Ok(Extent {
        nodes,
        vars: word(words, 0),
    })
}
