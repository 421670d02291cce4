// The answers of small queries.
ghost use Rattle.std.specs.Prelude.{◌≡◌, false};
ghost use Rattle.diagram.specs.Verdict.{said, value_in, verdict_in};
ghost use Rattle.flat.specs.Flat.{flat_of, bit};

use crate::{HouayletanAmount, HouayletanVerdict};
use diagram::verdict::{Finding, Refused};

impl From<Result<Finding<usize>, Refused>> for HouayletanAmount {
    ghost from_gives = { λ told flat. (flat.verdict ≡ flat_of (said (verdict_in told))) × (flat.amount ≡ value_in 0 told) };

    fn from(told: Result<Finding<usize>, Refused>) -> HouayletanAmount {
        match told {
            Ok(found) => HouayletanAmount {
                verdict: HouayletanVerdict::from(Ok(found.extent)),
                amount: found.value,
            },
            Err(refused) => HouayletanAmount {
                verdict: HouayletanVerdict::from(Err(refused)),
                amount: 0,
            },
        }
    }
}

// A yes is 1 and a no is 0.
impl From<Result<Finding<bool>, Refused>> for HouayletanAmount {
    ghost from_gives = { λ told flat. (flat.verdict ≡ flat_of (said (verdict_in told))) × (flat.amount ≡ bit (value_in false told)) };

    fn from(told: Result<Finding<bool>, Refused>) -> HouayletanAmount {
        match told {
            Ok(found) => HouayletanAmount {
                verdict: HouayletanVerdict::from(Ok(found.extent)),
                amount: usize::from(found.value),
            },
            Err(refused) => HouayletanAmount {
                verdict: HouayletanVerdict::from(Err(refused)),
                amount: 0,
            },
        }
    }
}
