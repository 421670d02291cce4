// The nodes of each variable.
ghost use Rattle.std.specs.Prelude.{◌≡◌, ◌≤◌, ◌++◌, length, drop};
ghost use Rattle.diagram.specs.Diagram.{size as size_of, vars as varsOf, Formed};
ghost use Rattle.queries.specs.Queries.{table, nodes_at, Lists};

use diagram::node::{BddPointer, BddVariable, var_of, word};
use diagram::room::{clear, put};
use diagram::verdict::{Output, Verdict};
use diagram_check::validate::admit;

fn list(words: &[u32], output: &mut [u32], nodes: usize, vars: BddVariable)
    requires { (nodes ≡ size_of words.now) × (vars.0 ≡ varsOf words.now) × Formed words.now × (vars.0 ≤ length output.old) }
    ensures { output.new ≡ table (varsOf words.now) (nodes_at words.now) ++ drop (varsOf words.now) output.old }
{
    clear(output, vars.0 as usize);
    for p in 2..nodes {
        let var = var_of(words, BddPointer(p as u32));
        let at = var.0 as usize;
        let so_far = word(output, at);
        put(output, at, so_far + 1);
    }
}

// How many nodes test each variable: a word of the output for each, and the rest of the output as it was.
pub fn size_per_variable(words: &[u32], room: &mut [u32], output: &mut [u32]) -> Verdict
    ensures { Lists words.now room.old room.new output.old output.new result }
{
    let extent = admit(words, room, Output::PerVariable(output.len()))?;
    list(words, output, extent.nodes, BddVariable(extent.vars));
    Ok(extent)
}
