// The count of a diagram's valuations as an f64: exact up to 2^53, and rounded once at each node beyond.
#![tactic(auto)]

mod floats;
mod table;
mod total;
mod walk;

ghost use Rattle.diagram.specs.Verdict.{value_in, verdict_in};
ghost use Rattle.cardinality.specs.Cardinality.{nought, CountsFloat};

use diagram::verdict::{Finding, Output, Refused};
use diagram_check::validate::admit;
use total::total;

// Words of working room that are used for each node: a link and the bits of a count.
const USED: usize = 3;

// How many valuations the diagram holds for, skipped variables included.
pub fn cardinality(words: &[u32], room: &mut [u32]) -> Result<Finding<f64>, Refused>
    ensures { CountsFloat words.now room.old room.new (verdict_in result) (value_in nought result) }
{
    let extent = admit(words, room, Output::Nothing)?;
    let used = USED * extent.nodes;
    let value = total(words, &mut room[..used], extent.nodes, extent.vars);
    Ok(Finding { extent, value })
}
