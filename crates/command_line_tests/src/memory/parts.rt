//! The calls that make the parts of a job, and the means of its run.

use crate::memory::sweep::{Outcome, Trial, answered, refused};
use bench_net::{BenchFault, read_bench};
use block_sim::{Job, JobFault, Workspace};
use fault_ledger::{Call, Finish, Ledger, LedgerFault, Shape, SharedLedger, replay};
use fault_model::{Model, collapse, list_faults};
use patterns::{OrderFault, TestFault, read_order, read_tests};
use report::{RunFault, SimFault, job_of};
use std::alloc::{AllocError, Global};
use worked_circuits::C17;

/// Moves of two workers.
pub(crate) const ORDER: &[u8] = b"1\n1\n0\n";

/// A ledger of C17 with 65 tests.
const SHAPE: Shape = Shape {
    classes: 22,
    tests: 65,
    workers: 2,
};

/// Returns 65 tests of C17: 64 of them are all ones, and the last is all zeros.
pub(crate) fn tests_of_c17(alloc: Global) -> Result<Vec<u8>, AllocError> {
    let mut text = Vec::new(alloc);
    for _ in 0..64 {
        text.extend_from_slice(b"11111\n")?;
    }
    text.extend_from_slice(b"00000\n")?;
    Ok(text)
}

/// Returns the job of C17 under its 65 tests.
pub(crate) fn c17_job(alloc: Global) -> Result<Job, SimFault> {
    let tests = tests_of_c17(alloc)?;
    job_of(alloc, Model::StuckAt, C17, tests.as_slice())
}

/// Returns whether a call ran out of memory.
pub(crate) fn is_want(fault: SimFault) -> bool {
    match fault {
        SimFault::Memory => true,
        SimFault::Bench(fault) => fault == BenchFault::Memory,
        SimFault::Tests(fault) => fault == TestFault::Memory,
        SimFault::Order(fault) => fault == OrderFault::Memory,
        SimFault::Job(fault) => fault == JobFault::Memory,
        SimFault::Run(fault) => fault == RunFault::Memory,
        SimFault::Report(_) => false,
    }
}

/// A part of a job.
#[derive(Clone, Copy)]
pub(crate) enum Part {
    Circuit,
    Faults,
    Classes,
    Tests,
    Whole,
    NewTests,
}

/// The parts of a job, a job of all, and one that takes new tests.
pub(crate) const PARTS: [Part; 6] = [
    Part::Circuit,
    Part::Faults,
    Part::Classes,
    Part::Tests,
    Part::Whole,
    Part::NewTests,
];

/// A part that is made, and the job that has it already.
#[derive(Drop)]
pub(crate) struct Making<'a> {
    pub(crate) part: Part,
    pub(crate) job: &'a Job,
    pub(crate) tests: &'a [u8],
}

impl Trial for Making<'_> {
    fn name(&self) -> &str {
        match self.part {
            Part::Circuit => "read_bench",
            Part::Faults => "list_faults",
            Part::Classes => "collapse",
            Part::Tests => "read_tests",
            Part::Whole => "job_of",
            Part::NewTests => "Job::set_tests",
        }
    }

    fn attempt(&self, alloc: Global) -> Outcome {
        match self.part {
            Part::Circuit => make_circuit(alloc),
            Part::Faults => make_faults(alloc, self.job),
            Part::Classes => make_classes(alloc, self.job),
            Part::Tests => make_tests(alloc, self.tests),
            Part::Whole => make_job(alloc, self.tests),
            Part::NewTests => make_new_tests(alloc, self.tests),
        }
    }
}

/// Tries to read C17.
fn make_circuit(alloc: Global) -> Outcome {
    match read_bench(alloc, C17) {
        Ok(circuit) => answered(circuit.signals() == 11),
        Err(fault) => refused(fault == BenchFault::Memory),
    }
}

/// Tries to list the faults of C17.
fn make_faults(alloc: Global, job: &Job) -> Outcome {
    match list_faults(alloc, job.circuit()) {
        Ok(faults) => answered(faults.count() == 34),
        Err(AllocError) => Outcome::Refused,
    }
}

/// Tries to collapse the faults of C17.
fn make_classes(alloc: Global, job: &Job) -> Outcome {
    match collapse(alloc, job.circuit(), job.faults()) {
        Ok(classes) => answered(classes.count() == 22),
        Err(AllocError) => Outcome::Refused,
    }
}

/// Tries to read 65 tests.
fn make_tests(alloc: Global, text: &[u8]) -> Outcome {
    match read_tests(alloc, text, 5) {
        Ok(tests) => answered(tests.count() == 65),
        Err(fault) => refused(fault == TestFault::Memory),
    }
}

/// Tries to make the job of C17 under the tests of a file.
fn make_job(alloc: Global, text: &[u8]) -> Outcome {
    match job_of(alloc, Model::StuckAt, C17, text) {
        Ok(job) => answered(job.classes().count() == 22),
        Err(fault) => refused(is_want(fault)),
    }
}

/// Tries to make the job of C17 without tests, and then to give it the tests of a file.
fn make_new_tests(alloc: Global, text: &[u8]) -> Outcome {
    match job_of(alloc, Model::StuckAt, C17, b"") {
        Ok(mut job) => try_tests(alloc, &mut job, text),
        Err(fault) => refused(is_want(fault)),
    }
}

/// Gives a job the tests of a file.
fn take_tests(alloc: Global, job: &mut Job, text: &[u8]) -> Result<(), SimFault> {
    let tests = read_tests(alloc, text, job.circuit().sources())?;
    Ok(job.set_tests(alloc, tests)?)
}

/// Tries to give a job without tests the 65 tests of a file: it has them, or none as before.
fn try_tests(alloc: Global, job: &mut Job, text: &[u8]) -> Outcome {
    match take_tests(alloc, job, text) {
        Ok(()) => answered(job.tests().count() == 65),
        Err(fault) => refused(is_want(fault) && job.tests().count() == 0),
    }
}

/// The means of a run, beside its job.
#[derive(Clone, Copy)]
pub(crate) enum Means {
    Order,
    Workspace,
    Ledger,
    Replay,
    SharedLedger,
}

/// All means of a run.
pub(crate) const MEANS: [Means; 5] = [
    Means::Order,
    Means::Workspace,
    Means::Ledger,
    Means::Replay,
    Means::SharedLedger,
];

/// A means of a run that is made for a job.
#[derive(Drop)]
pub(crate) struct Setting<'a> {
    pub(crate) means: Means,
    pub(crate) job: &'a Job,
}

impl Trial for Setting<'_> {
    fn name(&self) -> &str {
        match self.means {
            Means::Order => "read_order",
            Means::Workspace => "Workspace::new",
            Means::Ledger => "Ledger::new",
            Means::Replay => "replay",
            Means::SharedLedger => "SharedLedger::new",
        }
    }

    fn attempt(&self, alloc: Global) -> Outcome {
        match self.means {
            Means::Order => match read_order(alloc, ORDER, 2) {
                Ok(moves) => answered(moves.len() == 3),
                Err(fault) => refused(fault == OrderFault::Memory),
            },
            Means::Workspace => match Workspace::new(alloc, self.job) {
                Ok(workspace) => answered(workspace.fits(self.job)),
                Err(AllocError) => Outcome::Refused,
            },
            Means::Ledger => match Ledger::new(alloc, 22, 65, 2) {
                Ok(ledger) => answered(ledger.shape() == SHAPE),
                Err(fault) => refused(fault == LedgerFault::Memory),
            },
            Means::Replay => match replay(alloc, SHAPE, &[Call::Claim(1), Call::Finished]) {
                Ok((ledger, replies)) => {
                    answered(ledger.held(1) == Some((0, 0)) && replies.len() == 2)
                }
                Err(fault) => refused(fault == LedgerFault::Memory),
            },
            Means::SharedLedger => share(alloc),
        }
    }
}

/// Tries to make a shared ledger and to close it again.
fn share(alloc: Global) -> Outcome {
    match SharedLedger::new(alloc, 22, 65, 2) {
        Ok((ledger, seats)) => {
            if seats.len() != 2 {
                return Outcome::Wrong;
            }
            match ledger.close(alloc, seats) {
                Ok(closed) => answered(closed.finished() == Finish::Waiting { class: 0, block: 0 }),
                Err(fault) => refused(fault == LedgerFault::Memory),
            }
        }
        Err(fault) => refused(fault == LedgerFault::Memory),
    }
}
