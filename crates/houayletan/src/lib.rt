// The operations for C and Rust: numbers, slices as pointer and length, and structs by value, which are those of the crate flat.
// include/houayletan.h declares the same for C. The names end in the number that its HOUAYLETAN_LINKED puts there, so that what was
// compiled against an older header does not link.
#![tactic(auto)]

pub mod asking;
pub mod comparing;
pub mod cutting;
pub mod pooling;
pub mod settling;
pub mod storing;

ghost use Rattle.std.specs.Prelude.{◌≡◌, min, ◌++◌, length, drop, replicate};
ghost use Rattle.diagram.specs.declared.verdict.Output.{Output};
ghost use Rattle.diagram.specs.Verdict.{Checked};
ghost use Rattle.diagram.specs.Valuations.{count_of};
ghost use Rattle.counts.specs.Paths.{path_count_of};
ghost use Rattle.counts.specs.Counted.{Counts};
ghost use Rattle.cardinality.specs.Cardinality.{CountsFloat};
ghost use Rattle.weights.specs.Weighed.{Weighs, CountsAndWeighs};
ghost use Rattle.reduction.specs.Answer.{Reduces};
ghost use Rattle.flat.specs.Flat.{Flat, FlatCount, FlatFloat, FlatDiagram};

use cardinality::cardinality;
use diagram::room::clear;
use diagram_check::validate::validate;
use exact_counts::{exact_cardinality, exact_clause_cardinality};
use flat::{HouayletanCount, HouayletanDiagram, HouayletanFloat, HouayletanVerdict};
use node_weights::{count_and_weights, node_valuation_weights};
use reduction::reduce::reduce;

// The check of any words as a diagram.
pub fn houayletan_validate_3(words: &[u32], room: &mut [u32]) -> HouayletanVerdict
    ensures { Flat (Checked words.now Output.Nothing room.old room.new) result }
{
    HouayletanVerdict::from(validate(words, room))
}

// How many valuations the diagram holds for.
pub fn houayletan_exact_cardinality_3(words: &[u32], room: &mut [u32]) -> HouayletanCount
    ensures { FlatCount (Counts words.now (count_of words.now) room.old room.new) result }
{
    HouayletanCount::from(exact_cardinality(words, room))
}

// How many paths lead from the root to node 1.
pub fn houayletan_exact_clause_cardinality_3(words: &[u32], room: &mut [u32]) -> HouayletanCount
    ensures { FlatCount (Counts words.now (path_count_of words.now) room.old room.new) result }
{
    HouayletanCount::from(exact_clause_cardinality(words, room))
}

// How many valuations the diagram holds for, as an f64: exact up to 2^53.
pub fn houayletan_cardinality_3(words: &[u32], room: &mut [u32]) -> HouayletanFloat
    ensures { FlatFloat (CountsFloat words.now room.old room.new) result }
{
    HouayletanFloat::from(cardinality(words, room))
}

// How many valuations the diagram holds for, and in the output the weights of its nodes.
pub fn houayletan_count_and_weights_3(
    words: &[u32],
    room: &mut [u32],
    output: &mut [u32],
) -> HouayletanCount
    ensures { FlatCount (CountsAndWeighs words.now room.old room.new output.old output.new) result }
{
    HouayletanCount::from(count_and_weights(words, room, output))
}

// For each node, in the words of a count in the output, how many valuations that the diagram holds for have a path that visits it.
pub fn houayletan_node_valuation_weights_3(
    words: &[u32],
    room: &mut [u32],
    output: &mut [u32],
) -> HouayletanVerdict
    ensures { Flat (Weighs words.now room.old room.new output.old output.new) result }
{
    HouayletanVerdict::from(node_valuation_weights(words, room, output))
}

// The reduced diagram of the same function.
pub fn houayletan_reduce_3(words: &[u32], room: &mut [u32], output: &mut [u32]) -> HouayletanDiagram
    ensures { FlatDiagram (Reduces words.now room.old room.new output.old output.new) result }
{
    HouayletanDiagram::from(reduce(words, room, output))
}

// Makes the first `count` words zero, or all where there are fewer: what every answer does to its working room.
pub fn houayletan_clear_3(room: &mut [u32], count: usize)
    ensures { room.new ≡ replicate (min count (length room.old)) 0 ++ drop count room.old }
{
    clear(room, count);
}
