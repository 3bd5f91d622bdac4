//! Runs of a job, in one thread and in threads.

use crate::memory::sweep::{Outcome, Trial, answered, refused};
use block_sim::Job;
use report::RunFault;
use std::alloc::Global;
use std::sync::Wait;
use std::thread::Threads;
use workers::{OpenGate, Verdicts, run, run_schedule};

/// Returns whether these are the verdicts of C17. Two tests detect 19 of its faults.
pub(crate) fn is_right(verdicts: &Verdicts) -> bool {
    verdicts.detected() == 19 && verdicts.total() == 34
}

/// A run of one thread.
#[derive(Drop)]
pub(crate) struct Scheduled<'a> {
    pub(crate) job: &'a Job,
}

impl Trial for Scheduled<'_> {
    fn name(&self) -> &str {
        "run_schedule"
    }

    fn attempt(&self, alloc: Global) -> Outcome {
        match run_schedule(alloc, self.job, 2, &[1, 1, 0]) {
            Ok(verdicts) => answered(is_right(&verdicts)),
            Err(fault) => refused(fault == RunFault::Memory),
        }
    }
}

/// A run of two threads.
#[derive(Drop)]
pub(crate) struct Threaded<'a, R> {
    pub(crate) rt: &'a R,
    pub(crate) job: &'a Job,
}

impl<R: Threads + Wait> Trial for Threaded<'_, R> {
    fn name(&self) -> &str {
        "run"
    }

    fn attempt(&self, alloc: Global) -> Outcome {
        match run(self.rt, alloc, self.job, 2, &OpenGate) {
            Ok(verdicts) => answered(is_right(&verdicts)),
            Err(fault) => refused(fault == RunFault::Memory || fault == RunFault::Threads),
        }
    }
}
