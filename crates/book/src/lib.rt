// A book of ties and mark facts among numbered names: what it means, and the two faces by which every
// make of book is used.
#![tactic(auto)]

pub mod counts;
pub mod faces;
pub mod mark;
pub mod range;
pub mod refusal;
pub mod tie;
