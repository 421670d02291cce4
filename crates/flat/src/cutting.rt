// The answers of cuts by a list, to a size and to a count, and the flag that the last two are asked with.
ghost use Rattle.std.specs.Prelude.{◌≡◌};
ghost use Rattle.diagram.specs.Verdict.{said, value_in, verdict_in};
ghost use Rattle.targets.specs.Targets.{nodes_in, trials_in};
ghost use Rattle.flat.specs.Flat.{flat_of, flagged};

use crate::{HouayletanApproximation, HouayletanDiagram, HouayletanVerdict};
use diagram::verdict::{Finding, Refused};
use targets::Approximated;

// A flag as C has it: 0 is a no, anything else a yes.
pub fn flag(as_is: u32) -> bool
    ensures { result ≡ flagged as_is }
{
    as_is != 0
}

impl From<Result<Finding<usize>, Refused>> for HouayletanDiagram {
    ghost from_gives = { λ built flat. (flat.verdict ≡ flat_of (said (verdict_in built))) × (flat.nodes ≡ value_in 0 built) };

    fn from(built: Result<Finding<usize>, Refused>) -> HouayletanDiagram {
        match built {
            Ok(found) => HouayletanDiagram {
                verdict: HouayletanVerdict::from(Ok(found.extent)),
                nodes: found.value,
            },
            Err(refused) => HouayletanDiagram {
                verdict: HouayletanVerdict::from(Err(refused)),
                nodes: 0,
            },
        }
    }
}

impl From<Approximated> for HouayletanApproximation {
    ghost from_gives = { λ cut flat. (flat.verdict ≡ flat_of (said (verdict_in cut))) × (flat.nodes ≡ nodes_in cut) × (flat.trials ≡ trials_in cut) };

    fn from(cut: Approximated) -> HouayletanApproximation {
        match cut {
            Ok(found) => HouayletanApproximation {
                verdict: HouayletanVerdict::from(Ok(found.extent)),
                nodes: found.value.nodes,
                trials: found.value.trials,
            },
            Err(refused) => HouayletanApproximation {
                verdict: HouayletanVerdict::from(Err(refused)),
                nodes: 0,
                trials: 0,
            },
        }
    }
}
