//! Reasons why no test of a list detects a fault.
//!
//! To detect a fault a test has to activate it, which gives its line the complement of the stuck
//! bit. The test also has to carry the difference along a path to an observer (Bushnell and
//! Agrawal, Essentials of Electronic Testing, the chapter on combinational test generation).
//! [`reasons`] returns for each undetected fault which of these is missing.
#![tactic(auto)]

mod activating;
mod activations;
mod finding;

pub use finding::reasons;

/// The reason why no test of a list detects a fault, the first one that holds.
#[derive(Clone, Copy, Debug, PartialEq, Eq)]
pub enum Reason {
    /// The fault's line reaches no observer. This depends only on the circuit: no test at all
    /// detects the fault.
    NoPath,
    /// No test of the list activates the fault: none gives the line the complement of the stuck
    /// bit, or under transition faults no pair launches the transition.
    NotActivated,
    /// A test activates the fault, and no observer shows it under any test.
    NotObserved,
}
