// Cutting: smaller diagrams that imply, or are implied by, a given one.
#![tactic(auto)]
