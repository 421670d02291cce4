// A word for each place of the table: 1 where the two nodes of the pair stand for different functions, else 0.
ghost use Rattle.std.specs.Prelude.{◌≡◌, cond, not, ◌+◌, ◌<◌, ◌≤◌, set, eqb};
ghost use Rattle.pairs.specs.Pairs.{max_pairs};
ghost use Rattle.pairs.specs.Table.{flags_from};
ghost use Rattle.worths.specs.Worth.{flag_in};

use diagram::node::word;
use diagram::room::put;
use pairs::table::FLAGS;

// Whether the pair at a place differs.
pub fn differs_at(table: &[u32], capacity: usize, place: usize) -> bool
    requires { (capacity ≤ max_pairs) × (place < max_pairs) }
    ensures { result ≡ not (eqb (flag_in capacity table.now place) 0) }
{
    word(table, FLAGS * capacity + place) != 0
}

// The word that says so.
pub(crate) fn word_of(differs: bool) -> u32
    ensures { result ≡ cond differs 1 0 }
{
    if differs {
        return 1;
    }
    0
}

// Says whether the pair at a place differs.
pub(crate) fn note_flag(table: &mut [u32], capacity: usize, place: usize, differs: bool)
    requires { (capacity ≤ max_pairs) × (place < max_pairs) }
    ensures { table.new ≡ set table.old (flags_from capacity + place) (cond differs 1 0) }
{
    put(table, FLAGS * capacity + place, word_of(differs));
}
