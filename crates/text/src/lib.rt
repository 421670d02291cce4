// Numbers as text, decimal and in lower-case hexadecimal, with no zeros in front.
#![tactic(auto)]

pub mod digits;
pub mod parse;
pub mod print;
