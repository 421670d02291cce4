// What the words ask for: `differ OLD NEW`, `differ nodes OLD NEW`.
ghost use Rattle.std.specs.Prelude.{◌≡◌};
ghost use Rattle.differing.specs.Differing.{asked_of};

use forms::Form;
use request::words::same;

// `Compare` has the form of both files.
#[derive(Clone, Copy)]
pub enum Asked {
    Help,
    Unknown,
    Compare(Form),
}

// `count` is how many words there are.
pub fn asked_of(count: usize, first: &[u8]) -> Asked
    ensures { result ≡ asked_of count first.now }
{
    if count == 0 {
        return Asked::Help;
    }
    if count == 2 {
        return Asked::Compare(Form::Blocks);
    }
    if count != 3 {
        return Asked::Unknown;
    }
    if same(first, b"nodes") {
        return Asked::Compare(Form::Nodes);
    }
    Asked::Unknown
}
