//! The definitions computed on worked circuits and texts: the proofs of this crate are its content.
#![tactic(auto)]
