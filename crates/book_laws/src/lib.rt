// Lemmas on what a book means, for the proofs of its makes: how counts of ties and mark facts move, and
// what a book means after a tie or a mark fact moved. There is no code in this crate.
#![tactic(auto)]
