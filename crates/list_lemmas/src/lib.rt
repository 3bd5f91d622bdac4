//! Lemmas on lists that proofs of several crates cite: membership by recursion, places, lists
//! without a repeated element. It has no code; std has the lemmas that are not here.
#![tactic(auto)]
