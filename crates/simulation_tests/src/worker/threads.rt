//! Runs in threads, over pieces and over stretches. The gates of most hold workers until others
//! have come, so the workers run at the same time.

use crate::checks::check;
use crate::worker::fixtures::{BUFFER, C17, C17_FIRSTS, JobText, has_firsts, job_of};
use crate::worker::gates::{Plan, Planned};
use block_sim::Job;
use fault_model::Model;
use job_loading::SimFault;
use region_runs::RunJob;
use std::alloc::Global;
use std::process::Abort;
use std::sync::Wait;
use std::thread::Threads;
use std::time::Clock;
use workers::{OpenGate, RunFault, run};

/// Returns whether a run of a job has these verdicts, by workers in threads with a gate of this
/// plan.
fn is_run<R: Threads + Wait + Clock + Sync>(
    rt: &R,
    alloc: Global,
    job: &Job,
    workers: u32,
    plan: Plan,
    firsts: &[Option<u32>],
) -> Result<bool, RunFault> {
    let verdicts = run(rt, alloc, job, workers, &Planned::new(rt, plan))?;
    Ok(has_firsts(&verdicts, firsts))
}

/// The number of stretches into which C17 is cut: seven of three classes and one of only the last
/// class, 21, the class of G23 sa1. Class 2, the class of G3 sa0, is in another stretch.
const STRETCHES: u32 = 8;

/// Returns whether a run of C17 in these stretches has its verdicts, with a gate of this plan.
fn is_run_in_stretches<R: Threads + Wait + Clock + Sync>(
    rt: &R,
    alloc: Global,
    workers: u32,
    plan: Plan,
) -> Result<bool, SimFault> {
    let mut run = RunJob::whole(job_of(alloc, &C17)?);
    let verdicts = run.run(rt, alloc, STRETCHES, workers, &Planned::new(rt, plan))?;
    Ok(has_firsts(&verdicts, &C17_FIRSTS))
}

/// Returns whether a run of one worker ends after the pieces of the first block.
fn ends_after_two<R: Threads + Wait + Clock + Sync>(
    rt: &R,
    alloc: Global,
    job: &Job,
) -> Result<bool, RunFault> {
    let gate = Planned::new(rt, Plan::Count);
    let verdicts = run(rt, alloc, job, 1, &gate)?;
    let is_right = has_firsts(&verdicts, &[Some(1), Some(0), Some(1), Some(0)]);
    Ok(is_right && gate.pieces() == 2)
}

/// Numbers of workers, and plans for a buffer under 64 tests of 0 and one of 1, each with the class
/// and the block that the run waits for.
static LEFT_OPEN: [(u32, Plan, (u32, u32)); 4] = [
    (2, Plan::Stop(0, 0), (0, 0)),
    (2, Plan::Stop(1, 0), (1, 0)),
    (2, Plan::Stop(0, 1), (0, 1)),
    // Both classes wait for block 0: the lower class is named.
    (1, Plan::Stop(0, 0), (0, 0)),
];

/// Returns whether runs with these plans leave these pieces open.
fn are_left_open<R: Threads + Wait + Clock + Sync>(rt: &R, alloc: Global, job: &Job) -> bool {
    for (workers, plan, (class, block)) in &LEFT_OPEN {
        let (class, block) = (*class, *block);
        let stopped = run(rt, alloc, job, *workers, &Planned::new(rt, *plan)).err();
        if stopped != Some(RunFault::Unfinished { class, block }) {
            return false;
        }
    }
    true
}

/// Returns whether two workers run a job to these verdicts after gates stopped runs of it.
fn runs_again<R: Threads + Wait + Clock + Sync>(
    rt: &R,
    alloc: Global,
    job: &Job,
    firsts: &[Option<u32>],
) -> Result<bool, RunFault> {
    let verdicts = run(rt, alloc, job, 2, &OpenGate)?;
    Ok(has_firsts(&verdicts, firsts))
}

/// Returns whether a run of C17 in three stretches, at whose last piece the gate stops the worker,
/// names this piece.
fn names_the_last<R: Threads + Wait + Clock + Sync>(
    rt: &R,
    alloc: Global,
) -> Result<bool, SimFault> {
    let mut run = RunJob::whole(job_of(alloc, &C17)?);
    let gate = Planned::new(rt, Plan::Stop(21, 0));
    let waiting = Some(RunFault::Unfinished {
        class: 21,
        block: 0,
    });
    Ok(run.run(rt, alloc, 3, 3, &gate).err() == waiting)
}

/// Returns whether a run of one worker skips a single piece of a job.
fn skips_one<R: Threads + Wait>(rt: &R, alloc: Global, job: &Job) -> Result<bool, RunFault> {
    let verdicts = run(rt, alloc, job, 1, &OpenGate)?;
    Ok(verdicts.skipped() == 1)
}

/// The first tests of a job's faults.
type Firsts = &'static [Option<u32>];

/// A question about the runs of a job.
#[derive(Clone, Copy)]
enum Running {
    /// Do this many workers find these first tests, with a gate of this plan?
    IsRun(u32, Plan, Firsts),
    /// Do this many workers find the first tests of C17 in stretches, with a gate of this plan?
    IsRunInStretches(u32, Plan),
    EndsAfterTwo,
    /// Do runs leave pieces open, and does one find these first tests afterwards?
    AreLeftOpen(Firsts),
    NamesTheLast,
    SkipsOne,
}

/// A question and its job.
struct Case {
    name: &'static str,
    job: JobText,
    question: Running,
}

/// A wire under a test of 0. Its faults a/0 and a/1 are a class each.
const ONE_ZERO: JobText = JobText {
    model: Model::StuckAt,
    bench: "INPUT(a)\nOUTPUT(a)\n",
    rows: &[("0", 1)],
};

/// A buffer under 64 tests of 0 and one of 1.
const TWO_BLOCKS: JobText = JobText {
    model: Model::StuckAt,
    bench: BUFFER,
    rows: &[("0", 64), ("1", 1)],
};

/// The first tests of the faults of that buffer.
const BUFFER_FIRSTS: [Option<u32>; 4] = [Some(64), Some(0), Some(64), Some(0)];

static CASES: [Case; 11] = [
    Case {
        name: "two_workers_hold_a_piece_at_once",
        job: ONE_ZERO,
        question: Running::IsRun(2, Plan::MeetBoth((0, 0), (1, 0)), &[None, Some(0)]),
    },
    // The gate holds the first piece until the last has been claimed.
    Case {
        name: "a_worker_goes_on_while_another_is_held",
        job: TWO_BLOCKS,
        question: Running::IsRun(2, Plan::Meet((0, 0), (1, 1)), &BUFFER_FIRSTS),
    },
    // Each worker has a thread of its own, and its gate is called with its own number.
    Case {
        name: "four_workers_come_to_the_gate",
        job: TWO_BLOCKS,
        question: Running::IsRun(4, Plan::Roll, &BUFFER_FIRSTS),
    },
    // The workers hold pieces two by two, so at most one of two claims of a worker comes right
    // after the other. Nearly all pieces take no evaluation: class 0 is dropped after its hit, and
    // class 1 takes two. In 200 rounds worker 1 owes far more than the debt that makes it rest.
    Case {
        name: "a_worker_that_rests_goes_on",
        job: JobText {
            model: Model::StuckAt,
            bench: BUFFER,
            rows: &[("1", 12_800)],
        },
        question: Running::IsRun(2, Plan::TwoByTwo, &[Some(0), None, Some(0), None]),
    },
    Case {
        name: "a_worker_ends_where_all_classes_are_settled",
        job: JobText {
            model: Model::StuckAt,
            bench: BUFFER,
            rows: &[("0", 1), ("1", 1), ("0", 4_094)],
        },
        question: Running::EndsAfterTwo,
    },
    // The same job then runs to its end under an open gate.
    Case {
        name: "one_of_two_workers_leaves_its_piece_open",
        job: TWO_BLOCKS,
        question: Running::AreLeftOpen(&BUFFER_FIRSTS),
    },
    // Each worker waits in a stretch of its own until the other has come.
    Case {
        name: "stretches_of_two_workers_that_meet",
        job: C17,
        question: Running::IsRunInStretches(2, Plan::MeetBoth((2, 0), (21, 0))),
    },
    // They wait for each other: each has a thread of its own, and its gate is called with its own
    // number.
    Case {
        name: "stretches_of_four_workers_that_meet",
        job: C17,
        question: Running::IsRunInStretches(4, Plan::Roll),
    },
    // The first worker is held in its first stretch until the other has passed all classes of the
    // other seven, at least 19.
    Case {
        name: "stretches_of_a_worker_that_is_held",
        job: C17,
        question: Running::IsRunInStretches(2, Plan::Hold(19)),
    },
    // The piece is the last of its stretch: its class is the class of G23 sa1, the last of the
    // region that is visited last. So all others are settled.
    Case {
        name: "a_stopped_stretch_names_the_class_of_the_job",
        job: C17,
        question: Running::NamesTheLast,
    },
    // The worker claims class 0, of `z` stuck at 0, and class 1 on block 0 and then both on block
    // 1. Each test is 1, so it reports a hit of class 0 and class 1 as clear. On block 1 it drops
    // class 0, after that hit, and reports class 1 as clear: one piece of four is skipped.
    Case {
        name: "a_piece_behind_a_hit_is_skipped",
        job: JobText {
            model: Model::StuckAt,
            bench: BUFFER,
            rows: &[("1", 128)],
        },
        question: Running::SkipsOne,
    },
];

/// Returns whether a job has the property.
fn is_so<R: Threads + Wait + Clock + Sync>(
    rt: &R,
    alloc: Global,
    job: &Job,
    question: Running,
) -> bool {
    match question {
        Running::IsRun(workers, plan, firsts) => {
            is_run(rt, alloc, job, workers, plan, firsts) == Ok(true)
        }
        Running::IsRunInStretches(workers, plan) => {
            is_run_in_stretches(rt, alloc, workers, plan) == Ok(true)
        }
        Running::EndsAfterTwo => ends_after_two(rt, alloc, job) == Ok(true),
        Running::AreLeftOpen(firsts) => {
            are_left_open(rt, alloc, job) && runs_again(rt, alloc, job, firsts) == Ok(true)
        }
        Running::NamesTheLast => names_the_last(rt, alloc) == Ok(true),
        Running::SkipsOne => skips_one(rt, alloc, job) == Ok(true),
    }
}

/// Returns whether the case holds. Only this function makes and owns the job.
fn holds<R: Threads + Wait + Clock + Sync>(rt: &R, alloc: Global, case: &Case) -> bool {
    match job_of(alloc, &case.job) {
        Ok(job) => is_so(rt, alloc, &job, case.question),
        Err(_) => false,
    }
}

/// Stops the test at the first case that doesn't hold.
fn check_cases<R: AllocGlobal + Abort + Threads + Wait + Clock + Sync>(rt: &R) {
    for case in &CASES {
        check(rt, holds(rt, rt.alloc(), case), case.name);
    }
}

#[test]
fn runs_in_threads(rt: HostRuntime) {
    check_cases(&rt);
}
