// Reduction of any words (document 01, port 7): the check, then the reduced diagram.
ghost use Rattle.diagram.specs.Verdict.{value_in, verdict_in};
ghost use Rattle.reduction.specs.Answer.{Reduces};

use crate::answer::answer;
use diagram::verdict::{Finding, Output, Refused};
use diagram_check::validate::admit;

// The check's verdict, and the number of nodes of the answer.
pub fn reduce(
    words: &[u32],
    room: &mut [u32],
    output: &mut [u32],
) -> Result<Finding<usize>, Refused>
    ensures { Reduces words.now room.old room.new output.old output.new (verdict_in result) (value_in 0 result) }
{
    let extent = admit(words, room, Output::Diagram(output.len()))?;
    let value = answer(words, room, output, extent.nodes, extent.vars);
    Ok(Finding { extent, value })
}
