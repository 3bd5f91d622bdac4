//! Runs of one thread: how many pieces the moves of an order skip, and their errors.

use crate::checks::check_ok;
use crate::worker::fixtures::{BUFFER, JobText, has_firsts, job_of};
use block_sim::Job;
use fault_model::Model;
use job_loading::SimFault;
use std::alloc::Global;
use workers::{RunFault, run_schedule};

/// A buffer under 63 tests of 0 and two of 1.
const TWO_BLOCKS: JobText = JobText {
    model: Model::StuckAt,
    bench: BUFFER,
    rows: &[("0", 63), ("1", 2)],
};

/// The first tests of its faults.
static FIRSTS: [Option<u32>; 4] = [Some(63), Some(0), Some(63), Some(0)];

/// Moves of four workers with the number of skipped pieces: moves by which block 1 of the buffer is
/// reported before block 0, and moves by which it is dropped.
static ORDERS: [(&[u32], u64); 2] = [(&[0, 1, 2, 3, 2, 3, 1, 0], 0), (&[], 2)];

/// Returns whether the buffer skips these numbers of pieces.
fn are_skipped(alloc: Global, job: &Job) -> Result<bool, RunFault> {
    for (moves, skipped) in &ORDERS {
        let verdicts = run_schedule(alloc, job, 4, moves)?;
        if !has_firsts(&verdicts, &FIRSTS) || verdicts.skipped() != *skipped {
            return Ok(false);
        }
    }
    Ok(true)
}

/// Numbers of workers and moves, each with its error.
static REFUSED: [(u32, &[u32], RunFault); 5] = [
    (4, &[0, 9, 4], RunFault::NoSuchMove(1)),
    (4, &[4], RunFault::NoSuchMove(0)),
    (64, &[63, 64], RunFault::NoSuchMove(1)),
    (0, &[4], RunFault::NoWorkers),
    (65, &[70], RunFault::TooManyWorkers),
];

/// Returns whether runs have these errors.
fn are_refused(alloc: Global, job: &Job) -> bool {
    for (workers, moves, fault) in &REFUSED {
        if run_schedule(alloc, job, *workers, moves).err() != Some(*fault) {
            return false;
        }
    }
    true
}

/// Returns whether that holds of the job of the buffer.
fn is_so(alloc: Global) -> Result<bool, SimFault> {
    let job = job_of(alloc, &TWO_BLOCKS)?;
    Ok(are_skipped(alloc, &job)? && are_refused(alloc, &job))
}

#[test]
fn runs_by_moves(rt: HostRuntime) {
    check_ok(&rt, is_so(rt.alloc()), "moves");
}
