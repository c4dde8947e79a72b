// Lists of altering calls on a book of any make, and the law of what they come to.
#![tactic(auto)]

pub mod play;
