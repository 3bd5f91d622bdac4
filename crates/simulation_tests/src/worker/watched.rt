//! The calls of a run to the gate that watches it.

ghost use Rattle.workers.specs.Stops.{no_stop};

use crate::checks::check_ok;
use crate::worker::fixtures::{JobText, job_of};
use fault_model::Model;
use job_loading::{RunJob, SimFault, Watch};
use std::alloc::Global;
use std::sync::Wait;
use std::sync::atomic::{AtomicU64, Ordering};
use std::thread::Threads;
use worked_circuits::C17_TEXT;
use workers::Gate;

/// C17, whose faults are in 22 classes, with 65 tests, which are two blocks.
const TWO_BLOCKS: JobText = JobText {
    model: Model::StuckAt,
    bench: C17_TEXT,
    rows: &[("11111", 65)],
};

/// A gate that lets all pass, and records its calls.
#[derive(Drop)]
struct Record {
    starts: AtomicU64,
    classes: AtomicU64,
    blocks: AtomicU64,
    passed: AtomicU64,
    ends: AtomicU64,
    passed_at_end: AtomicU64,
}

/// The record of a gate: how many times a run began, with which numbers of classes and blocks, how
/// many times it ended, and whether workers had passed before that.
#[derive(Clone, Copy, PartialEq, Eq)]
struct Told {
    starts: u64,
    classes: u64,
    blocks: u64,
    ends: u64,
    passed: bool,
}

impl Record {
    fn new() -> Record {
        Record {
            starts: AtomicU64::new(0),
            classes: AtomicU64::new(0),
            blocks: AtomicU64::new(0),
            passed: AtomicU64::new(0),
            ends: AtomicU64::new(0),
            passed_at_end: AtomicU64::new(0),
        }
    }

    fn told(&self) -> Told {
        Told {
            starts: self.starts.load(Ordering::SeqCst),
            classes: self.classes.load(Ordering::SeqCst),
            blocks: self.blocks.load(Ordering::SeqCst),
            ends: self.ends.load(Ordering::SeqCst),
            passed: self.passed_at_end.load(Ordering::SeqCst) > 0,
        }
    }
}

impl Gate for Record {
    ghost passing = { λ _. Unit {0} };

    ghost stops = { λ _. no_stop };

    fn pass(&self, _worker: u32, _class: u32, _block: u32) -> bool {
        self.passed.fetch_add(1, Ordering::SeqCst);
        true
    }
}

impl Watch for Record {
    fn starts(&self, classes: u32, blocks: u32) {
        self.starts.fetch_add(1, Ordering::SeqCst);
        self.classes.store(u64::from(classes), Ordering::SeqCst);
        self.blocks.store(u64::from(blocks), Ordering::SeqCst);
    }

    fn ends(&self) {
        self.ends.fetch_add(1, Ordering::SeqCst);
        let passed = self.passed.load(Ordering::SeqCst);
        self.passed_at_end.store(passed, Ordering::SeqCst);
    }
}

/// Returns the record of the gate of a run in three parts, by this number of workers.
fn told_of<R: Threads + Wait>(rt: &R, alloc: Global, run: &mut RunJob, workers: u32) -> Told {
    let record = Record::new();
    let _verdicts = run.run(rt, alloc, 3, workers, &record);
    record.told()
}

/// Returns whether the gate of a run records one begin, with 22 classes on 2 blocks, and one end,
/// after workers have passed. The gate of a run that fails records only the begin.
fn is_told<R: Threads + Wait>(rt: &R, alloc: Global) -> Result<bool, SimFault> {
    let done = Told {
        starts: 1,
        classes: 22,
        blocks: 2,
        ends: 1,
        passed: true,
    };
    let refused = Told {
        ends: 0,
        passed: false,
        ..done
    };
    let mut run = RunJob::whole(job_of(alloc, &TWO_BLOCKS)?);
    let told = told_of(rt, alloc, &mut run, 2);
    Ok(told == done && told_of(rt, alloc, &mut run, 0) == refused)
}

#[test]
fn a_gate_is_told_of_the_run(rt: HostRuntime) {
    check_ok(&rt, is_told(&rt, rt.alloc()), "told of the run");
}
