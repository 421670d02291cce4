// Two diagrams beside each other.
ghost use Rattle.comparison.specs.Comparison.{Compare};
ghost use Rattle.flat.specs.Flat.{FlatCompared};

use comparison::compare::compare;
use flat::HouayletanComparison;

// In how many valuations one holds and not the other, in how many both, and the smallest in which they differ.
pub fn houayletan_compare_3(
    first: &[u32],
    second: &[u32],
    room: &mut [u32],
    table: &mut [u32],
) -> HouayletanComparison
    ensures { FlatCompared (Compare first.now second.now room.old room.new table.old table.new) result }
{
    HouayletanComparison::from(compare(first, second, room, table))
}
