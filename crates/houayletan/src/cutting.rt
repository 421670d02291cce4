// Cuts by a list, to a size and to a count.
ghost use Rattle.naturals.specs.Natural.{value};
ghost use Rattle.list_cuts.specs.Approximates.{Approximates};
ghost use Rattle.targets.specs.Targets.{UnderToSize, OverToSize, UnderToCount, OverToCount};
ghost use Rattle.flat.specs.Flat.{flagged, FlatDiagram, FlatTarget};

use count_targets::count::{overapproximate_to_cardinality, underapproximate_to_cardinality};
use flat::cutting::flag;
use flat::{HouayletanApproximation, HouayletanDiagram, HouayletanNatural};
use list_cuts::{overapproximate, underapproximate};
use naturals::Natural;
use targets::size::{overapproximate_to_size, underapproximate_to_size};

// Valuations whose path meets a listed node no longer hold; all others are as they were.
pub fn houayletan_underapproximate_3(
    words: &[u32],
    list: &[u32],
    room: &mut [u32],
    output: &mut [u32],
) -> HouayletanDiagram
    ensures { FlatDiagram (Approximates words.now list.now 0 room.old room.new output.old output.new) result }
{
    HouayletanDiagram::from(underapproximate(words, list, room, output))
}

// Valuations whose path meets a listed node now hold; all others are as they were.
pub fn houayletan_overapproximate_3(
    words: &[u32],
    list: &[u32],
    room: &mut [u32],
    output: &mut [u32],
) -> HouayletanDiagram
    ensures { FlatDiagram (Approximates words.now list.now 1 room.old room.new output.old output.new) result }
{
    HouayletanDiagram::from(overapproximate(words, list, room, output))
}

// At most so many nodes; holds only where the diagram does.
pub fn houayletan_underapproximate_to_size_3(
    words: &[u32],
    target: u32,
    as_is: u32,
    room: &mut [u32],
    output: &mut [u32],
) -> HouayletanApproximation
    ensures { FlatTarget (UnderToSize (flagged as_is) words.now target room.old room.new output.old output.new) result }
{
    let cut = underapproximate_to_size(words, target, flag(as_is), room, output);
    HouayletanApproximation::from(cut)
}

// At most so many nodes; holds wherever the diagram does.
pub fn houayletan_overapproximate_to_size_3(
    words: &[u32],
    target: u32,
    as_is: u32,
    room: &mut [u32],
    output: &mut [u32],
) -> HouayletanApproximation
    ensures { FlatTarget (OverToSize (flagged as_is) words.now target room.old room.new output.old output.new) result }
{
    HouayletanApproximation::from(overapproximate_to_size(words, target, flag(as_is), room, output))
}

// At most so many valuations; holds only where the diagram does.
pub fn houayletan_underapproximate_to_cardinality_3(
    words: &[u32],
    target: HouayletanNatural,
    as_is: u32,
    room: &mut [u32],
    output: &mut [u32],
) -> HouayletanApproximation
    ensures { FlatTarget (UnderToCount (flagged as_is) words.now (value target.words) room.old room.new output.old output.new) result }
{
    let words_of = target.words;
    HouayletanApproximation::from(underapproximate_to_cardinality(
        words,
        Natural { words: words_of },
        flag(as_is),
        room,
        output,
    ))
}

// At least so many valuations; holds wherever the diagram does.
pub fn houayletan_overapproximate_to_cardinality_3(
    words: &[u32],
    target: HouayletanNatural,
    as_is: u32,
    room: &mut [u32],
    output: &mut [u32],
) -> HouayletanApproximation
    ensures { FlatTarget (OverToCount (flagged as_is) words.now (value target.words) room.old room.new output.old output.new) result }
{
    let words_of = target.words;
    HouayletanApproximation::from(overapproximate_to_cardinality(
        words,
        Natural { words: words_of },
        flag(as_is),
        room,
        output,
    ))
}
