//! Tests of the crates from circuits to runs by workers: what no clause states, and definitions on
//! worked files that neither `worked_examples` nor a case has. A case is one row of a table; a test
//! goes over its table.
//!
//! They are in one crate, because each crate of tests loads and compiles all crates below it, and
//! in a crate of their own, because a crate with tests is proved twice.
#![tactic(auto)]

#[cfg(test)]
mod checks;
#[cfg(test)]
mod circuit;
#[cfg(test)]
mod ledger;
#[cfg(test)]
mod words;
#[cfg(test)]
mod worker;
