// The answer about two diagrams beside each other.
ghost use Rattle.std.specs.Prelude.{◌≡◌};
ghost use Rattle.comparison.specs.Comparison.{words_of};
ghost use Rattle.flat.specs.Flat.{Laid};

use crate::{HouayletanComparison, HouayletanVerdict};
use comparison::compare::Compared;
use naturals::Natural;

// The words of a number that may be missing: it is zero then.
fn words_of(number: Option<Natural>) -> [u32; naturals::WORDS]
    ensures { result ≡ words_of number }
{
    match number {
        Some(there) => there.words,
        None => [0; naturals::WORDS],
    }
}

// `differ` is a yes as 1 and a no as 0.
impl From<Compared> for HouayletanComparison {
    ghost from_gives = { Laid };

    fn from(compared: Compared) -> HouayletanComparison {
        match compared {
            Ok(found) => {
                let first = found.value.first.words;
                let second = found.value.second.words;
                let both = found.value.both.words;
                let smallest = words_of(found.value.smallest);
                HouayletanComparison {
                    verdict: HouayletanVerdict::from(Ok(found.extent)),
                    which: 0,
                    differ: u32::from(found.value.smallest.is_some()),
                    first,
                    second,
                    both,
                    smallest,
                }
            }
            Err(refusal) => HouayletanComparison {
                verdict: HouayletanVerdict::from(Err(refusal.refused)),
                which: refusal.which.number(),
                differ: 0,
                first: [0; naturals::WORDS],
                second: [0; naturals::WORDS],
                both: [0; naturals::WORDS],
                smallest: [0; naturals::WORDS],
            },
        }
    }
}
