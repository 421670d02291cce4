// The answers of the operations as C and Rust see them: the structs, and what lays an answer's cases flat.
// They are apart from the exported functions, whose check is long, so that an edit of them costs little.
#![tactic(auto)]

pub mod asking;
pub mod comparing;
pub mod cutting;
pub mod storing;

ghost use Rattle.std.specs.Prelude.{◌≡◌};
ghost use Rattle.diagram.specs.Verdict.{said, value_in, verdict_in};
ghost use Rattle.counts.specs.Counted.{words_in};
ghost use Rattle.cardinality.specs.Cardinality.{nought};
ghost use Rattle.flat.specs.Flat.{flat_of};

use diagram::verdict::{Finding, Refused, Verdict};
use naturals::Natural;

// A verdict without an enum: number 0 where it is accepted, and all else zero where it is refused.
#[repr(C)]
#[derive(Clone, Copy)]
pub struct HouayletanVerdict {
    pub number: u32,
    pub place: usize,
    pub nodes: usize,
    pub vars: u32,
}

// A verdict with a number of naturals::WORDS words, least first, which is zero where the words are refused.
#[repr(C)]
#[derive(Clone, Copy)]
pub struct HouayletanCount {
    pub verdict: HouayletanVerdict,
    pub count: [u32; naturals::WORDS],
}

// A verdict with a count as an f64, which is 0.0 where the words are refused.
#[repr(C)]
#[derive(Clone, Copy)]
pub struct HouayletanFloat {
    pub verdict: HouayletanVerdict,
    pub count: f64,
}

// A verdict with the number of nodes in the output, which is zero where the words are refused.
#[repr(C)]
#[derive(Clone, Copy)]
pub struct HouayletanDiagram {
    pub verdict: HouayletanVerdict,
    pub nodes: usize,
}

// A verdict with an amount, or a yes as 1 and a no as 0; zero where the words are refused.
#[repr(C)]
#[derive(Clone, Copy)]
pub struct HouayletanAmount {
    pub verdict: HouayletanVerdict,
    pub amount: usize,
}

// A verdict with the number of nodes in the output, and of cuts by a list that were made for them.
#[repr(C)]
#[derive(Clone, Copy)]
pub struct HouayletanApproximation {
    pub verdict: HouayletanVerdict,
    pub nodes: usize,
    pub trials: usize,
}

// What two diagrams are beside each other: the verdict's nodes are the pairs reached; which diagram a refusal is about; a yes as 1 and a
// no as 0; and numbers of naturals::WORDS words, least first. All but the verdict and which is zero where one is refused.
#[repr(C)]
#[derive(Clone, Copy)]
pub struct HouayletanComparison {
    pub verdict: HouayletanVerdict,
    pub which: u32,
    pub differ: u32,
    pub first: [u32; naturals::WORDS],
    pub second: [u32; naturals::WORDS],
    pub both: [u32; naturals::WORDS],
    pub smallest: [u32; naturals::WORDS],
}

// What reading or writing a file says, without an enum: number 0 with the nodes, or a refusal, whose nodes are 0.
#[repr(C)]
#[derive(Clone, Copy)]
pub struct HouayletanStored {
    pub number: u32,
    pub place: usize,
    pub nodes: usize,
}

// A number of naturals::WORDS words, least first.
#[repr(C)]
#[derive(Clone, Copy)]
pub struct HouayletanNatural {
    pub words: [u32; naturals::WORDS],
}

impl From<Verdict> for HouayletanVerdict {
    ghost from_gives = { λ verdict flat. flat ≡ flat_of (said verdict) };

    fn from(verdict: Verdict) -> HouayletanVerdict {
        match verdict {
            Ok(extent) => HouayletanVerdict {
                number: 0,
                place: 0,
                nodes: extent.nodes,
                vars: extent.vars,
            },
            Err(refused) => HouayletanVerdict {
                number: refused.reason.number(),
                place: refused.place,
                nodes: 0,
                vars: 0,
            },
        }
    }
}

impl From<Result<Finding<Natural>, Refused>> for HouayletanCount {
    ghost from_gives = { λ counted flat. (flat.verdict ≡ flat_of (said (verdict_in counted))) × (flat.count ≡ words_in counted) };

    fn from(counted: Result<Finding<Natural>, Refused>) -> HouayletanCount {
        match counted {
            Ok(found) => {
                let count = found.value.words;
                HouayletanCount {
                    verdict: HouayletanVerdict::from(Ok(found.extent)),
                    count,
                }
            }
            Err(refused) => HouayletanCount {
                verdict: HouayletanVerdict::from(Err(refused)),
                count: [0; naturals::WORDS],
            },
        }
    }
}

impl From<Result<Finding<f64>, Refused>> for HouayletanFloat {
    ghost from_gives = { λ counted flat. (flat.verdict ≡ flat_of (said (verdict_in counted))) × (flat.count ≡ value_in nought counted) };

    fn from(counted: Result<Finding<f64>, Refused>) -> HouayletanFloat {
        match counted {
            Ok(found) => HouayletanFloat {
                verdict: HouayletanVerdict::from(Ok(found.extent)),
                count: found.value,
            },
            Err(refused) => HouayletanFloat {
                verdict: HouayletanVerdict::from(Err(refused)),
                count: 0.0,
            },
        }
    }
}
