// The words of policies, the trees that they write, and where a list of words goes wrong.
#![tactic(auto)]

mod due;
pub mod shape;
pub mod word;
