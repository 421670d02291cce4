// Counts of a decision diagram: the valuations that it holds for, and the paths from its root to node 1.
#![tactic(auto)]

mod down;
pub mod total;

ghost use Rattle.std.specs.Prelude.{◌≡◌, true, false, ◌*◌, length, replicate};
ghost use Rattle.naturals.specs.Natural.{Holds};
ghost use Rattle.diagram.specs.Diagram.{size, vars as varsOf, Ordered};
ghost use Rattle.diagram.specs.Valuations.{count_of};
ghost use Rattle.counts.specs.Paths.{path_count_of};
ghost use Rattle.diagram.specs.Verdict.{verdict_in};
ghost use Rattle.counts.specs.Counted.{Counts, words_in};
ghost use Rattle.counts.specs.Worth.{entry as entry_of, total_of};

use diagram::room::clear;
use diagram::verdict::{Finding, Output, Refused};
use diagram_check::validate::admit;
use levels::CHAINS;
use naturals::Natural;
use total::total;

// Words of working room that are used for each node: a link and a worth.
const ENTRY: usize = 1 + naturals::WORDS;

// The count alone. The room is zero before and after.
fn count_all(words: &[u32], room: &mut [u32], nodes: usize, vars: u32, valuations: bool) -> Natural
    requires { (nodes ≡ size words.now) × (vars ≡ varsOf words.now) × Ordered words.now × (room.old ≡ replicate (entry_of * nodes) 0) }
    ensures { Holds (total_of valuations words.now) result.words × (room.new ≡ replicate (length room.old) 0) }
{
    let mut heads = [0u32; CHAINS];
    let count = total(words, &mut heads, room, nodes, vars, valuations);
    let all = room.len();
    clear(room, all);
    count
}

fn count_by(words: &[u32], room: &mut [u32], valuations: bool) -> Result<Finding<Natural>, Refused>
    ensures { Counts words.now (total_of valuations words.now) room.old room.new (verdict_in result) (words_in result) }
{
    let extent = admit(words, room, Output::Nothing)?;
    let used = ENTRY * extent.nodes;
    let value = count_all(
        words,
        &mut room[..used],
        extent.nodes,
        extent.vars,
        valuations,
    );
    Ok(Finding { extent, value })
}

// How many valuations the diagram holds for, skipped variables included.
pub fn exact_cardinality(words: &[u32], room: &mut [u32]) -> Result<Finding<Natural>, Refused>
    ensures { Counts words.now (count_of words.now) room.old room.new (verdict_in result) (words_in result) }
{
    count_by(words, room, true)
}

// How many paths lead from the root to node 1, in the array as it stands.
pub fn exact_clause_cardinality(
    words: &[u32],
    room: &mut [u32],
) -> Result<Finding<Natural>, Refused>
    ensures { Counts words.now (path_count_of words.now) room.old room.new (verdict_in result) (words_in result) }
{
    count_by(words, room, false)
}
