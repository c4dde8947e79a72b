// The part that every make of book keeps in the same way: its counts and its mark facts.
#![tactic(auto)]

pub mod mark_board;
pub mod marking;
