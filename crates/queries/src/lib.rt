// Small queries of a decision diagram. Each begins with the check.
#![tactic(auto)]

pub mod per_variable;
mod sole;

ghost use Rattle.std.specs.Prelude.{true, false, eqb};
ghost use Rattle.diagram.specs.Diagram.{size as size_of, vars as varsOf};
ghost use Rattle.diagram.specs.Verdict.{value_in, verdict_in};
ghost use Rattle.queries.specs.Queries.{is_clause, is_valuation, Tells};

use diagram::node::BddVariable;
use diagram::verdict::{Finding, Output, Refused};
use diagram_check::validate::admit;
use sole::{ends_at_one, tests_every_variable};

// How many nodes the array has.
pub fn size(words: &[u32], room: &mut [u32]) -> Result<Finding<usize>, Refused>
    ensures { Tells words.now (size_of words.now) 0 room.old room.new (verdict_in result) (value_in 0 result) }
{
    let extent = admit(words, room, Output::Nothing)?;
    let value = extent.nodes;
    Ok(Finding { extent, value })
}

// How many variables there are.
pub fn num_vars(words: &[u32], room: &mut [u32]) -> Result<Finding<usize>, Refused>
    ensures { Tells words.now (varsOf words.now) 0 room.old room.new (verdict_in result) (value_in 0 result) }
{
    let extent = admit(words, room, Output::Nothing)?;
    let value = extent.vars as usize;
    Ok(Finding { extent, value })
}

// Whether it is the constant true, by the array's length alone.
pub fn is_true(words: &[u32], room: &mut [u32]) -> Result<Finding<bool>, Refused>
    ensures { Tells words.now (eqb (size_of words.now) 2) false room.old room.new (verdict_in result) (value_in false result) }
{
    let extent = admit(words, room, Output::Nothing)?;
    let value = extent.nodes == 2;
    Ok(Finding { extent, value })
}

// Whether it is the constant false, by the array's length alone.
pub fn is_false(words: &[u32], room: &mut [u32]) -> Result<Finding<bool>, Refused>
    ensures { Tells words.now (eqb (size_of words.now) 1) false room.old room.new (verdict_in result) (value_in false result) }
{
    let extent = admit(words, room, Output::Nothing)?;
    let value = extent.nodes == 1;
    Ok(Finding { extent, value })
}

// Whether the array is one conjunction of literals, as far as the walk sees: a yes is right, and on a reduced array so is a
// no.
pub fn is_clause(words: &[u32], room: &mut [u32]) -> Result<Finding<bool>, Refused>
    ensures { Tells words.now (is_clause words.now) false room.old room.new (verdict_in result) (value_in false result) }
{
    let extent = admit(words, room, Output::Nothing)?;
    let value = ends_at_one(words, extent.nodes);
    Ok(Finding { extent, value })
}

// Whether the array holds for one valuation alone, as far as the walk sees: a yes is right, and on a reduced array so is
// a no.
pub fn is_valuation(words: &[u32], room: &mut [u32]) -> Result<Finding<bool>, Refused>
    ensures { Tells words.now (is_valuation words.now) false room.old room.new (verdict_in result) (value_in false result) }
{
    let extent = admit(words, room, Output::Nothing)?;
    let value = tests_every_variable(words, extent.nodes, BddVariable(extent.vars));
    Ok(Finding { extent, value })
}
