//! The results of a run, as its gate sees them.

use analysis_reports::KeptCount;
use block_sim::Job;
use patterns::Tests;
use report::{Gate, ReasonCounts, RunCounts, Verdicts, Watch, count_run};
use std::sync::Mutex;

/// The results that a gate has seen of its run.
#[derive(Clone, Copy)]
pub(crate) struct Found {
    pub(crate) counts: Option<RunCounts>,
    pub(crate) reasons: Option<ReasonCounts>,
    pub(crate) kept: Option<KeptCount>,
}

/// A gate that lets every piece pass, and notes the results of its run once they are known.
#[derive(Drop)]
pub(crate) struct Tally {
    found: Mutex<Found>,
}

impl Tally {
    pub(crate) fn new() -> Tally {
        Tally {
            found: Mutex::new(Found {
                counts: None,
                reasons: None,
                kept: None,
            }),
        }
    }

    /// Notes the number of tests that a compaction keeps.
    pub(crate) fn note_kept(&self, count: KeptCount) {
        if let Some(mut found) = self.found.try_lock() {
            found.kept = Some(count);
        }
    }

    /// Returns the results of the run that were noted.
    pub(crate) fn found(self) -> Found {
        let Tally { found } = self;
        found.into_inner()
    }
}

impl Gate for Tally {
    ghost passing = { λ _. Unit {0} };

    ghost stops = { λ _. record { may = λ _ _ _. ⊥; must = λ _ _ _. ⊥ } };

    fn pass(&self, _worker: u32, _class: u32, _block: u32) -> bool {
        true
    }

    fn lets_all_pass(&self) -> bool {
        true
    }
}

impl Watch for Tally {
    fn finds(&self, job: &Job, tests: &Tests, verdicts: &Verdicts) {
        let counts = count_run(job, tests, verdicts);
        if let Some(mut found) = self.found.try_lock() {
            found.counts = Some(counts);
        }
    }

    fn explains(&self, counts: ReasonCounts) {
        if let Some(mut found) = self.found.try_lock() {
            found.reasons = Some(counts);
        }
    }
}
