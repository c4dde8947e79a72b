// Rows of bits, 64 to a word.
#![tactic(auto)]

pub mod gather;
pub mod rows;
