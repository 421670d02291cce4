// Negation of a decision diagram, word by word: every node keeps its place.
#![tactic(auto)]

ghost use Rattle.std.specs.Prelude.{◌≡◌, ◌<◌, ◌≤◌, length, get_or};
ghost use Rattle.diagram.specs.Diagram.{size};
ghost use Rattle.diagram.specs.Verdict.{value_in, verdict_in};
ghost use Rattle.negation.specs.Negation.{exchanged as exchangedOf, nodes_of, negated, over, Negates, Ready};

use diagram::node::{BddPointer, BddVariable, word};
use diagram::verdict::{Finding, Output, Refused};
use diagram_check::validate::admit;

// A link to 0 goes to 1 and a link to 1 goes to 0.
fn exchanged(link: BddPointer) -> BddPointer
    ensures { result.0 ≡ exchangedOf link.0 }
{
    if link.is_terminal() {
        return BddPointer(1 - link.0);
    }
    link
}

// The constants exchange.
fn nodes_of(nodes: usize) -> usize
    ensures { result ≡ nodes_of nodes }
{
    if nodes == 1 {
        return 2;
    }
    if nodes == 2 {
        return 1;
    }
    nodes
}

// A word of the result.
fn word_of(words: &[u32], vars: BddVariable, at: usize) -> u32
    requires { Ready words.now vars.0 × (at < length (negated words.now)) }
    ensures { result ≡ get_or (negated words.now) at 0 }
{
    // The terminals: the variable count, and both links to themselves.
    if at < 6 {
        if at % 3 == 0 {
            return vars.0;
        }
        return (at / 3) as u32;
    }
    let same = word(words, at);
    let part = at % 3;
    if part == 0 {
        return same;
    }
    let link = exchanged(BddPointer(same));
    link.0
}

pub fn negate(words: &[u32], output: &mut [u32], nodes: usize, vars: u32) -> usize
    requires { (nodes ≡ size words.now) × Ready words.now vars × (length (negated words.now) ≤ length output.old) }
    ensures { (result ≡ size (negated words.now)) × (output.new ≡ over (negated words.now) output.old) }
{
    let made = nodes_of(nodes);
    let end = 3 * made;
    for i in 0..end {
        output[i] = word_of(words, BddVariable(vars), i);
    }
    made
}

// How many nodes stand in the output.
pub fn not(words: &[u32], room: &mut [u32], output: &mut [u32]) -> Result<Finding<usize>, Refused>
    ensures { Negates words.now room.old room.new output.old output.new (verdict_in result) (value_in 0 result) }
{
    let extent = admit(words, room, Output::Diagram(output.len()))?;
    let value = negate(words, output, extent.nodes, extent.vars);
    Ok(Finding { extent, value })
}
