// Cutting to a count (document 01, "The evening's cut").
#![tactic(auto)]

pub mod count;
