//! Static compaction of a list of tests: rows are left out as long as the rest detects the same
//! faults.
#![tactic(auto)]

mod detections;
mod finding;
mod lasting;
mod ordered;
mod passes;
mod rows;
mod steepest;
mod tallies;

pub use ordered::compact;
use patterns::Tests;

/// The order of the tests that a compaction keeps.
#[derive(Clone, Copy, Debug, PartialEq, Eq)]
pub enum TestOrder {
    /// The order of the list.
    AsListed,
    /// The test that detects the most fault classes comes first, then the test that detects the
    /// most of the other classes, and so on. Of equal tests the first one of the list comes first.
    Steepest,
}

/// The tests of a list that a compaction keeps.
#[derive(Drop)]
pub struct Kept {
    /// The tests, in the order of the list unless another [`TestOrder`] was requested.
    pub tests: Tests,
    /// The number of each in the list, from 0.
    pub numbers: Vec<u32>,
}
