// Policies read from texts: words cut into signs and operands, and which fault comes first.
#![tactic(auto)]

pub mod fault;
mod found;
pub mod reading;
mod spell;
mod token;
