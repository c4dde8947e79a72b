// Rolls: the words that stand for the names, labels and marks of a book.
#![tactic(auto)]

pub mod list;
mod lookup;
pub mod roll;
