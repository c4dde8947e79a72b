// A book that keeps one bit for each possible tie, in its caller's words of 64 bits.
#![tactic(auto)]

pub mod board;
pub mod keeping;
pub mod making;
mod places;
pub mod refusal;
mod seeking;
