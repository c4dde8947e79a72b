// Texts: their pieces between parting bytes, and what a word may hold.
#![tactic(auto)]

pub mod pieces;
pub mod word;
