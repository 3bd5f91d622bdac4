//! Runs of a job by workers, piece by piece, and their verdicts.
//!
//! Workers share one fault ledger. Each claims a piece of work, a fault class on a block of 64
//! tests. It drops the piece if an earlier block of the class is known to detect it, else it
//! simulates the piece and reports. The verdict of a fault is the first test that detects it, or
//! none, as in serial fault simulation (Bushnell and Agrawal, Essentials of Electronic Testing). It
//! depends neither on the workers' choices nor on their order.
//!
//! [`run_schedule`] is a run of one thread, which makes the moves of all workers in the caller's
//! order. [`run`] has a thread for each worker, and [`work`] is the work of one. The crate
//! `region_runs` runs regions of classes, each by one worker, with the same verdicts.
#![tactic(auto)]

mod claim_backoff;
mod piece_threads;
mod piece_worker;
mod schedule;
mod swept;
mod verdicts;

ghost use Rattle.std.specs.Prelude.{◌≡◌, ◌<◌, ◌≤◌, IfErr, OnOk};
ghost use Rattle.patterns.specs.Tests.{max_pieces};
ghost use Rattle.block_sim.specs.Parts.{piece_count};
ghost use Rattle.workers.specs.Refused.{IsWorkersFault};

use block_sim::{Job, has_too_many_pieces};
pub use fault_ledger::MAX_WORKERS;
pub use piece_threads::run;
pub use piece_worker::{End, Gate, OpenGate, work};
pub use schedule::run_schedule;
use std::alloc::{AllocError, AllocFailed};
use thiserror::Error;
pub use verdicts::Verdicts;

/// An error of a run.
#[derive(Clone, Copy, Debug, PartialEq, Eq, Error)]
pub enum RunFault {
    /// The number of workers is 0.
    #[error("no workers")]
    NoWorkers,
    /// The number of workers is above 64.
    #[error("more than 64 workers")]
    TooManyWorkers,
    /// The move of this index, counted from 0, names a worker that the run doesn't have.
    #[error("move {0}: no such worker")]
    NoSuchMove(u64),
    /// The classes that run at one time have more pieces than [`patterns::MAX_PIECES`].
    #[error("more than 16777216 pieces")]
    TooManyPieces,
    /// Memory ran out.
    #[error("out of memory")]
    Memory,
    /// A thread didn't start.
    #[error("thread refused")]
    Threads,
    /// The run ended before all classes were settled: the lowest unsettled class, and the block
    /// that it waits for.
    #[error("unfinished at class {class} block {block}")]
    Unfinished { class: u32, block: u32 },
}

impl From<AllocError> for RunFault {
    ghost use Rattle.std.specs.Prelude.{◌≡◌};
    ghost use Rattle.workers.specs.declared.RunFault.TheVariants.{Memory};

    ghost from_gives = { λ _ fault. fault ≡ Memory };

    fn from(_refused: AllocError) -> RunFault {
        RunFault::Memory
    }
}

impl<T: Drop> From<AllocFailed<T>> for RunFault {
    ghost use Rattle.std.specs.Prelude.{◌≡◌};
    ghost use Rattle.workers.specs.declared.RunFault.TheVariants.{Memory};

    ghost from_gives = { λ _ fault. fault ≡ Memory };

    fn from(_refused: AllocFailed<T>) -> RunFault {
        RunFault::Memory
    }
}

/// Checks that the number of workers is in range, from 1 to [`MAX_WORKERS`].
///
/// # Errors
///
/// [`RunFault::NoWorkers`] or [`RunFault::TooManyWorkers`].
pub fn check_workers(workers: u32) -> Result<(), RunFault>
    ensures in_range { OnOk result ((0 < workers) × (workers ≤ 64)) }
    ensures refused { IfErr result (IsWorkersFault workers) }
{
    match workers {
        0 => Err(RunFault::NoWorkers),
        1..=MAX_WORKERS => Ok(()),
        _ => Err(RunFault::TooManyWorkers),
    }
}

/// Checks that a job has no more pieces than a ledger takes.
pub(crate) fn check_job(job: &Job) -> Result<(), RunFault>
    ensures few { OnOk result (piece_count job.now ≤ max_pieces) }
    ensures refused { IfErr result (λ fault. (fault ≡ RunFault.TooManyPieces)
        × (max_pieces < piece_count job.now)) }
{
    if has_too_many_pieces(job.classes(), job.tests()) {
        return Err(RunFault::TooManyPieces);
    }
    Ok(())
}
