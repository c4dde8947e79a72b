// What a policy says of a request: satisfaction and the verdict.
#![tactic(auto)]

pub mod laws;
pub mod verdict;
