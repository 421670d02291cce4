// What C and Rust link: each function of the crate houayletan under its name for the linker, with its clauses.
// include/houayletan.h declares the same for C. The names end in the number that its HOUAYLETAN_LINKED puts there, so that what was
// compiled against an older header does not link.
#![tactic(auto)]

pub mod asking;
pub mod comparing;
pub mod cutting;
pub mod pooling;
pub mod settling;
pub mod storing;

ghost use Rattle.std.specs.Prelude.{◌≡◌, min, ◌++◌, length, drop, replicate};
ghost use Rattle.diagram.specs.declared.verdict.Output.{Output};
ghost use Rattle.diagram.specs.Verdict.{Checked};
ghost use Rattle.diagram.specs.Valuations.{count_of};
ghost use Rattle.counts.specs.Paths.{path_count_of};
ghost use Rattle.counts.specs.Counted.{Counts};
ghost use Rattle.cardinality.specs.Cardinality.{CountsFloat};
ghost use Rattle.weights.specs.Weighed.{Weighs, CountsAndWeighs};
ghost use Rattle.reduction.specs.Answer.{Reduces};
ghost use Rattle.flat.specs.Flat.{Flat, FlatCount, FlatFloat, FlatDiagram};

use flat::{HouayletanCount, HouayletanDiagram, HouayletanFloat, HouayletanVerdict};

// The check of any words as a diagram.
#[unsafe(no_mangle)]
pub extern "C" fn houayletan_validate_3(words: &[u32], room: &mut [u32]) -> HouayletanVerdict
    ensures { Flat (Checked words.now Output.Nothing room.old room.new) result }
{
    houayletan::houayletan_validate_3(words, room)
}

// How many valuations the diagram holds for.
#[unsafe(no_mangle)]
pub extern "C" fn houayletan_exact_cardinality_3(words: &[u32], room: &mut [u32]) -> HouayletanCount
    ensures { FlatCount (Counts words.now (count_of words.now) room.old room.new) result }
{
    houayletan::houayletan_exact_cardinality_3(words, room)
}

// How many paths lead from the root to node 1.
#[unsafe(no_mangle)]
pub extern "C" fn houayletan_exact_clause_cardinality_3(
    words: &[u32],
    room: &mut [u32],
) -> HouayletanCount
    ensures { FlatCount (Counts words.now (path_count_of words.now) room.old room.new) result }
{
    houayletan::houayletan_exact_clause_cardinality_3(words, room)
}

// How many valuations the diagram holds for, as an f64: exact up to 2^53.
#[unsafe(no_mangle)]
pub extern "C" fn houayletan_cardinality_3(words: &[u32], room: &mut [u32]) -> HouayletanFloat
    ensures { FlatFloat (CountsFloat words.now room.old room.new) result }
{
    houayletan::houayletan_cardinality_3(words, room)
}

// How many valuations the diagram holds for, and in the output the weights of its nodes.
#[unsafe(no_mangle)]
pub extern "C" fn houayletan_count_and_weights_3(
    words: &[u32],
    room: &mut [u32],
    output: &mut [u32],
) -> HouayletanCount
    ensures { FlatCount (CountsAndWeighs words.now room.old room.new output.old output.new) result }
{
    houayletan::houayletan_count_and_weights_3(words, room, output)
}

// For each node, in the words of a count in the output, how many valuations that the diagram holds for have a path that visits it.
#[unsafe(no_mangle)]
pub extern "C" fn houayletan_node_valuation_weights_3(
    words: &[u32],
    room: &mut [u32],
    output: &mut [u32],
) -> HouayletanVerdict
    ensures { Flat (Weighs words.now room.old room.new output.old output.new) result }
{
    houayletan::houayletan_node_valuation_weights_3(words, room, output)
}

// The reduced diagram of the same function.
#[unsafe(no_mangle)]
pub extern "C" fn houayletan_reduce_3(
    words: &[u32],
    room: &mut [u32],
    output: &mut [u32],
) -> HouayletanDiagram
    ensures { FlatDiagram (Reduces words.now room.old room.new output.old output.new) result }
{
    houayletan::houayletan_reduce_3(words, room, output)
}

// Makes the first `count` words zero, or all where there are fewer: what every answer does to its working room.
#[unsafe(no_mangle)]
pub extern "C" fn houayletan_clear_3(room: &mut [u32], count: usize)
    ensures { room.new ≡ replicate (min count (length room.old)) 0 ++ drop count room.old }
{
    houayletan::houayletan_clear_3(room, count)
}
