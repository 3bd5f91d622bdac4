//! A run of workers in threads of their own.

ghost use Rattle.std.specs.Prelude.{◌≡◌, ◌⊎◌, ◌<◌, ◌≤◌, ◌*◌, All, length, map, IfOk, IfErr, OnOk};
ghost use Rattle.patterns.specs.Tests.{max_pieces};
ghost use Rattle.block_sim.specs.Parts.{BelongTogether, HasRoom, piece_count};
ghost use Rattle.fault_ledger.specs.Seats.{Closes, newcomer, newcomers};
ghost use Rattle.workers.specs.Refused.{IsRunFault};
ghost use Rattle.workers.specs.Settling.{IsShapeOf, shape_for};
ghost use Rattle.workers.specs.Verdict.{AreFirsts};
ghost use Rattle.workers.specs.Work.{AreBack, HasRun, IsOfHistory, Returns};

use crate::piece_worker::{Gate, work};
use crate::verdicts::verdicts_of;
use crate::{RunFault, Verdicts, check_job, check_workers};
use block_sim::{Job, Workspace};
use fault_ledger::{Closed, Finish, LedgerFault, Seat, SharedLedger};
use std::alloc::{AllocError, Global};
use std::snapshot::Snapshot;
use std::sync::Wait;
use std::thread;
use std::thread::{Promise, Threads};

/// The data that a worker takes into its thread.
#[derive(Drop)]
struct Worker {
    seat: Seat,
    workspace: Workspace,
}

/// The data that the thread of a worker borrows. The seat that it returns is its worker's, and has
/// reported the truth.
#[derive(Drop)]
struct Kept<G> {
    job: Snapshot<Job>,
    ledger: Snapshot<SharedLedger>,
    gate: Snapshot<G>,
    worker: u32,
}

impl<G: Gate> Promise<Seat> for Kept<G> {
    ghost use Rattle.workers.specs.Work.{Returns};

    ghost kept_by = { λ p r.
        Returns p.job.value p.ledger.value p.worker
        (G.passing p.gate.value) (G.stops p.gate.value) r };
}

/// Does the work of one thread.
fn serve<G: Gate>(job: &Job, ledger: &SharedLedger, gate: &G, worker: Worker) -> Seat
    requires shape { IsShapeOf job.now ledger.now.shape }
    requires new { worker.seat ≡ newcomer ledger.now worker.seat.worker }
    requires fits { HasRoom worker.workspace job.now }
    ensures { Returns job.now ledger.now worker.seat.worker
        (G.passing gate.now) (G.stops gate.now) result }
{
    let Worker {
        mut seat,
        mut workspace,
    } = worker;
    work(job, ledger, &mut workspace, &mut seat, gate);
    seat
}

/// Lets each worker work in a thread of its own, and returns the seats.
fn in_threads<G: Gate + Sync, R: Threads + Wait>(
    rt: &R,
    alloc: Global,
    job: &Job,
    ledger: &SharedLedger,
    gate: &G,
    workers: Vec<Worker>,
) -> Result<Vec<Seat>, RunFault>
    requires shape { IsShapeOf job.now ledger.now.shape }
    requires new { map (λ w. w.seat) workers.items ≡ newcomers ledger.now }
    requires fits { All (λ w. HasRoom w.workspace job.now) workers.items }
    ensures back { IfOk result (λ seats.
        AreBack job.now ledger.now (G.passing gate.now) (G.stops gate.now)
        seats.items) }
    ensures refused { IfErr result (λ fault.
        (fault ≡ RunFault.Memory) ⊎ (fault ≡ RunFault.Threads)) }
{
    thread::scope(
        thread::scope_env(),
        rt,
        |scope| -> Result<Vec<Seat>, RunFault>
            requires shape { IsShapeOf job.now ledger.now.shape }
            requires new { map (λ w. w.seat) workers.items ≡ newcomers ledger.now }
            requires fits { All (λ w. HasRoom w.workspace job.now) workers.items }
            ensures back { IfOk result (λ seats.
                AreBack job.entry.now ledger.entry.now
                (G.passing gate.entry.now) (G.stops gate.entry.now) seats.items) }
            ensures refused { IfErr result (λ fault.
                (fault ≡ RunFault.Memory) ⊎ (fault ≡ RunFault.Threads)) }
        {
            let count = workers.len();
            let mut handles = Vec::with_capacity(alloc, count)?;
            for worker in workers {
                let kept = Kept {
                    job: Snapshot::of(job),
                    ledger: Snapshot::of(ledger),
                    gate: Snapshot::of(gate),
                    worker: worker.seat.worker(),
                };
                let Ok(handle) = scope.spawn_with(kept, move || serve(job, ledger, gate, worker))
                else {
                    break;
                };
                handles.push(handle)?;
            }
            let refused = handles.len() < count;
            let back = thread::join_promised(rt, handles)?;
            if refused {
                return Err(RunFault::Threads);
            }
            Ok(back)
        },
    )
}

/// Makes a worker for each seat, with room of its own.
fn workers_of(alloc: Global, job: &Job, seats: Vec<Seat>) -> Result<Vec<Worker>, AllocError>
    ensures seats { IfOk result (λ workers. map (λ w. w.seat) workers.items ≡ seats.items) }
    ensures fits { IfOk result (λ workers. All (λ w. HasRoom w.workspace job.now) workers.items) }
{
    let mut workers = Vec::with_capacity(alloc, seats.len())?;
    for seat in seats {
        let workspace = Workspace::new(alloc, job)?;
        workers.push(Worker { seat, workspace })?;
    }
    Ok(workers)
}

/// Makes a shared ledger of the classes of a job, and the seats of its workers. They have no more
/// pieces than a ledger takes, so only memory can make it fail.
fn share_ledger(
    alloc: Global,
    job: &Job,
    workers: u32,
) -> Result<(SharedLedger, Vec<Seat>), RunFault>
    requires workers { (0 < workers) × (workers ≤ 64) }
    requires few { piece_count job.now ≤ max_pieces }
    ensures ledger { IfOk result (λ made.
        made.0.shape ≡ shape_for job.now workers) }
    ensures seats { IfOk result (λ made. made.1.items ≡ newcomers made.0) }
    ensures refused { IfErr result (λ fault. fault ≡ RunFault.Memory) }
    ensures together { BelongTogether job.now }
{
    match SharedLedger::new(alloc, job.classes().count(), job.tests().count(), workers) {
        Ok(made) => Ok(made),
        Err(LedgerFault::Memory) => Err(RunFault::Memory),
        Err(_) => unreachable!(),
    }
}

/// Closes a ledger, which fails only for memory.
fn close_ledger(alloc: Global, ledger: SharedLedger, seats: Vec<Seat>) -> Result<Closed, RunFault>
    requires some { 0 < length seats.items }
    requires places { All (λ seat. seat.place ≡ ledger) seats.items }
    ensures closed { IfOk result (λ closed. Closes ledger.shape seats.items closed) }
    ensures refused { IfErr result (λ fault. fault ≡ RunFault.Memory) }
{
    match ledger.close(alloc, seats) {
        Ok(closed) => Ok(closed),
        Err(LedgerFault::Memory) => Err(RunFault::Memory),
        Err(_) => unreachable!(),
    }
}

/// Runs a job by workers in threads of their own, numbered from 0, which share one ledger without a
/// lock. Each claims a piece and asks the gate whether it may go on. It drops the piece if an
/// earlier block of its class detects, else it simulates the piece and reports. The verdicts are
/// the first tests, in whatever order the workers run.
///
/// The ledger, a workspace for each worker and the room of the verdicts are there before the first
/// claim, and the workers take no memory. They rest between pieces as [`crate::work`] does.
///
/// # Errors
///
/// The first that applies: [`RunFault::NoWorkers`]; [`RunFault::TooManyWorkers`] above 64 workers;
/// [`RunFault::TooManyPieces`] above [`patterns::MAX_PIECES`] pieces, which a job of [`Job::new`]
/// doesn't have; [`RunFault::Memory`] or [`RunFault::Threads`] if memory runs out or a thread
/// doesn't start, after the started threads are joined. If the gate stopped workers and not all
/// classes are settled, the error is [`RunFault::Unfinished`]. The job is unchanged, and can run
/// again.
pub fn run<G: Gate + Sync, R: Threads + Wait>(
    rt: &R,
    alloc: Global,
    job: &Job,
    workers: u32,
    gate: &G,
) -> Result<Verdicts, RunFault>
    ensures firsts { IfOk result (λ v.
        AreFirsts job.now.list.model job.now.circuit job.now.tests.tests v.firsts) }
    ensures history { IfOk result (IsOfHistory job.now workers) }
    ensures workers { OnOk result ((0 < workers) × (workers ≤ 64)) }
    ensures few { OnOk result (piece_count job.now ≤ max_pieces) }
    ensures refused { IfErr result (IsRunFault job.now workers (G.passing gate.now)
        (G.stops gate.now)) }
{
    check_workers(workers)?;
    check_job(job)?;
    let firsts = Vec::with_capacity(alloc, job.faults().count() as usize)?;
    let closed = run_over(rt, alloc, job, workers, gate)?;
    let verdicts = verdicts_of(job, &closed, u64::from(closed.skipped()), firsts)?;
    Ok(verdicts)
}

/// Runs all classes, and returns the closed ledger.
fn run_over<G: Gate + Sync, R: Threads + Wait>(
    rt: &R,
    alloc: Global,
    job: &Job,
    workers: u32,
    gate: &G,
) -> Result<Closed, RunFault>
    requires workers { (0 < workers) × (workers ≤ 64) }
    requires few { piece_count job.now ≤ max_pieces }
    ensures run { IfOk result (HasRun job.now workers) }
    ensures refused { IfErr result (IsRunFault job.now workers
        (G.passing gate.now) (G.stops gate.now)) }
{
    let (ledger, seats) = share_ledger(alloc, job, workers)?;
    let crew = workers_of(alloc, job, seats)?;
    let seats = in_threads(rt, alloc, job, &ledger, gate, crew)?;
    let closed = close_ledger(alloc, ledger, seats)?;
    if let Finish::Waiting { class, block } = closed.finished() {
        return Err(RunFault::Unfinished { class, block });
    }
    Ok(closed)
}
