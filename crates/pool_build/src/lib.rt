// What adding, dropping and reading do once their refusals are behind them. Adding and dropping build the one table of the conditions anew, in
// local words, and then put it in the place of the old one; so nothing is changed where there is no room, and what no slot reaches any more is
// gone.
#![tactic(auto)]

pub mod fetch;
mod gather;
pub mod place;
pub mod remove;
