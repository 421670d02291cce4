// What a check answers.
use crate::refusal::Refusal;

// How large an accepted diagram is.
#[derive(Clone, Copy, Debug, PartialEq, Eq)]
pub struct Extent {
    pub nodes: usize,
    pub vars: u32,
}

// Why words are refused, and where.
#[derive(Clone, Copy, Debug, PartialEq, Eq)]
pub struct Refused {
    pub reason: Refusal,
    pub place: usize,
}

// What a check says of words: accepted with its counts, or refused with number and place.
pub type Verdict = Result<Extent, Refused>;

// An answer about an accepted diagram, beside what the check says of it.
#[derive(Clone, Copy, Debug, PartialEq, Eq)]
pub struct Finding<T> {
    pub extent: Extent,
    pub value: T,
}

// The output that an operation lends, with its length in words.
#[derive(Clone, Copy, Debug, PartialEq, Eq)]
pub enum Output {
    Nothing,
    Diagram(usize),
    Weights(usize),
    PerVariable(usize),
}
