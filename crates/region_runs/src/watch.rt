//! Gates that observe the whole run.

ghost use Rattle.workers.specs.Verdict.{AreFirsts};

use block_sim::Job;
use patterns::Tests;
use workers::{Gate, OpenGate, Verdicts};

/// The number of undetected faults of a run for each reason (the reasons of the crate
/// `undetected`).
#[derive(Clone, Copy, Debug, PartialEq, Eq)]
pub struct ReasonCounts {
    /// Faults whose line reaches no observer.
    pub no_path: usize,
    /// Faults that no test activates.
    pub not_activated: usize,
    /// Faults that a test activates and no test detects.
    pub not_observed: usize,
}

/// A gate that observes how much work a run has, and when that work is done.
pub trait Watch: Gate {
    /// Begins the run: it has this number of fault classes, each on this number of blocks of 64
    /// tests.
    fn starts(&self, _classes: u32, _blocks: u32) {}

    /// Ends the run: all classes are settled. Nothing is written yet.
    fn ends(&self) {}

    /// Takes the tests of a run of all classes of a job, which may stand apart from the job, and
    /// its verdicts, before any text is written. A run of one stretch doesn't call it.
    fn finds(&self, _job: &Job, _tests: &Tests, _verdicts: &Verdicts)
        requires { AreFirsts _job.now.list.model _job.now.circuit _tests.now.tests
            _verdicts.now.firsts }
    {}

    /// Takes the number of undetected faults for each reason, before any text is written. Only a
    /// run that writes the reasons calls it.
    fn explains(&self, _counts: ReasonCounts) {}
}

impl Watch for OpenGate {}
