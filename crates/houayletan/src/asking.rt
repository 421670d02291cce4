// Small queries and negation.
ghost use Rattle.std.specs.Prelude.{eqb};
ghost use Rattle.diagram.specs.Diagram.{size as size_of, vars as varsOf};
ghost use Rattle.negation.specs.Negation.{Negates};
ghost use Rattle.queries.specs.Queries.{is_clause, is_valuation, Tells, Lists};
ghost use Rattle.flat.specs.Flat.{bit, Flat, FlatAmount, FlatDiagram};

use flat::{HouayletanAmount, HouayletanDiagram, HouayletanVerdict};
use negation::not;
use queries::per_variable::size_per_variable;
use queries::{is_clause, is_false, is_true, is_valuation, num_vars, size};

// How many nodes there are.
pub fn houayletan_size_3(words: &[u32], room: &mut [u32]) -> HouayletanAmount
    ensures { FlatAmount (Tells words.now (size_of words.now) 0 room.old room.new) result }
{
    HouayletanAmount::from(size(words, room))
}

// How many variables there are.
pub fn houayletan_num_vars_3(words: &[u32], room: &mut [u32]) -> HouayletanAmount
    ensures { FlatAmount (Tells words.now (varsOf words.now) 0 room.old room.new) result }
{
    HouayletanAmount::from(num_vars(words, room))
}

// Whether the array is the constant true.
pub fn houayletan_is_true_3(words: &[u32], room: &mut [u32]) -> HouayletanAmount
    ensures { FlatAmount (Tells words.now (bit (eqb (size_of words.now) 2)) 0 room.old room.new) result }
{
    HouayletanAmount::from(is_true(words, room))
}

// Whether the array is the constant false.
pub fn houayletan_is_false_3(words: &[u32], room: &mut [u32]) -> HouayletanAmount
    ensures { FlatAmount (Tells words.now (bit (eqb (size_of words.now) 1)) 0 room.old room.new) result }
{
    HouayletanAmount::from(is_false(words, room))
}

// Whether the array is a single path to node 1.
pub fn houayletan_is_clause_3(words: &[u32], room: &mut [u32]) -> HouayletanAmount
    ensures { FlatAmount (Tells words.now (bit (is_clause words.now)) 0 room.old room.new) result }
{
    HouayletanAmount::from(is_clause(words, room))
}

// Whether it is a single path that tests every variable.
pub fn houayletan_is_valuation_3(words: &[u32], room: &mut [u32]) -> HouayletanAmount
    ensures { FlatAmount (Tells words.now (bit (is_valuation words.now)) 0 room.old room.new) result }
{
    HouayletanAmount::from(is_valuation(words, room))
}

// For each variable how many nodes test it, in the first words of the output.
pub fn houayletan_size_per_variable_3(
    words: &[u32],
    room: &mut [u32],
    output: &mut [u32],
) -> HouayletanVerdict
    ensures { Flat (Lists words.now room.old room.new output.old output.new) result }
{
    HouayletanVerdict::from(size_per_variable(words, room, output))
}

// The diagram that holds exactly where this one doesn't.
pub fn houayletan_not_3(words: &[u32], room: &mut [u32], output: &mut [u32]) -> HouayletanDiagram
    ensures { FlatDiagram (Negates words.now room.old room.new output.old output.new) result }
{
    HouayletanDiagram::from(not(words, room, output))
}
