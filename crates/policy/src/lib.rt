// A policy: the table of its words, each with the number of its second operand.
#![tactic(auto)]

pub mod entry;
pub mod fault;
pub mod letters;
mod link;
mod node;
pub mod policy;
mod walk;
