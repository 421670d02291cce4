// Cutting to a target (document 01, "The evening's cut"): to a size, and what cutting to a count, in crates/count_targets, has in common with it.
#![tactic(auto)]

pub mod met;
pub mod size;

use diagram::verdict::{Finding, Refused};
use trials::answers::Answer;

// How many nodes stand in the output, and how many cuts by a list were made, where the request is not refused.
pub type Approximated = Result<Finding<Answer>, Refused>;
