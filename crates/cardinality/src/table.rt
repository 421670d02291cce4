// Counts noted in the working room: two words for each node, the bits of its count, from a base on.
ghost use Rattle.std.specs.Prelude.{◌≡◌, not, ◌^◌, ◌<◌, T};
ghost use Rattle.std.specs.Float.{binary64};
ghost use Rattle.std.specs.Float.Ieee.{nan_bits, is_nan, of_bits, to_bits};
ghost use Rattle.cardinality.specs.Table.{In, bits_at, Noted};

use diagram::node::BddPointer;

// A word where its product has room.
fn wide(x: u32) -> u64
    ensures { (result ≡ x) × (result < 2 ^ 32) }
{
    x as u64
}

fn bits_at(room: &[u32], base: usize, node: BddPointer) -> u64
    requires { In base room.now node.0 }
    ensures { result ≡ bits_at base room.now node.0 }
{
    let at = base + 2 * node.to_index();
    wide(room[at]) + wide(room[at + 1]) * 4294967296
}

// The count of a node.
pub(crate) fn count_at(room: &[u32], base: usize, node: BddPointer) -> f64
    requires { In base room.now node.0 × T (not (nan_bits binary64 (bits_at base room.now node.0))) }
    ensures { result ≡ of_bits binary64 (bits_at base room.now node.0) }
{
    f64::from_bits(bits_at(room, base, node))
}

fn note_bits(room: &mut [u32], base: usize, node: BddPointer, bits: u64)
    requires { In base room.old node.0 }
    ensures { Noted base room.old node.0 bits room.new }
{
    let at = base + 2 * node.to_index();
    room[at] = (bits % 4294967296) as u32;
    room[at + 1] = (bits / 4294967296) as u32;
}

// Writes the count of a node.
pub(crate) fn note(room: &mut [u32], base: usize, node: BddPointer, count: f64)
    requires { In base room.old node.0 × T (not (is_nan count)) }
    ensures { Noted base room.old node.0 (to_bits binary64 count) room.new }
{
    note_bits(room, base, node, f64::to_bits(count));
}
