//! A run of one thread, by a schedule.

ghost use Rattle.std.specs.Prelude.{◌≡◌, ◌<◌, ◌≤◌, ◌+◌, ◌*◌, ℕ, nat_le, true, false, [], ◌∷◌};
ghost use Rattle.std.specs.Prelude.{All, Some, position, length, IfOk, IfErr, OnOk};
ghost use Rattle.std.specs.Option.{option_map_or};
ghost use Rattle.patterns.specs.Least.{Table, below};
ghost use Rattle.patterns.specs.Tests.{max_pieces};
ghost use Rattle.block_sim.specs.Parts.{piece_count as job_pieces};
ghost use Rattle.fault_ledger.specs.declared.Shape.{Shape};
ghost use Rattle.fault_ledger.specs.Answer.{IsLegal};
ghost use Rattle.fault_ledger.specs.Face.{HasHistory, face};
ghost use Rattle.fault_ledger.specs.History.{History, claims, held_by, piece_count};
ghost use Rattle.workers.specs.Refused.{IsScheduleFault};
ghost use Rattle.workers.specs.Schedule.{IsScheduled, IsTableOf, drops, move, after_moves, turns};
ghost use Rattle.workers.specs.Settling.{AreSettled, IsShapeOf, shape_for};
ghost use Rattle.workers.specs.Swept.{IsSweptOf};
ghost use Rattle.workers.specs.Verdict.{AreFirsts};

use crate::swept::Swept;
use crate::verdicts::verdicts_of;
use crate::{RunFault, Verdicts, check_job, check_workers};
use block_sim::Job;
use fault_ledger::{Claim, Event, Ledger, LedgerFault};
use std::alloc::{AllocError, Global};

/// Makes a move of a worker: it claims if it holds nothing, else it drops its piece if it can, else
/// it simulates the piece and reports. Returns the event of the ledger, or none if there is nothing
/// left to claim.
fn step(job: &Job, ledger: &mut Ledger, swept: &mut Swept, worker: u32) -> Option<Event>
    requires shape { IsShapeOf job.now ledger.old.shape }
    requires worker { worker < ledger.old.shape.workers }
    requires serves { IsSweptOf job.now swept.old }
    ensures shape { ledger.new.shape ≡ ledger.old.shape }
    ensures moved { (table : Table) (h : History) → IsTableOf job.now table
        → IsLegal ledger.old.shape h → ledger.old ≡ face ledger.old.shape h
        → let later : History = move table ledger.old.shape h worker in
        (ledger.new ≡ face ledger.old.shape later)
        × (later ≡ option_map_or (λ event. event ∷ h) result h) }
    ensures serves { IsSweptOf job.now swept.new }
{
    let _parts = job.classes();
    let Some((class, block)) = ledger.held(worker) else {
        return match ledger.claim(worker) {
            Ok(Claim::Piece { .. }) => Some(Event::Claim(worker)),
            Ok(Claim::Exhausted) => None,
            Err(_) => unreachable!(),
        };
    };
    match ledger.drop_piece(worker) {
        Ok(()) => Some(Event::Drop(worker)),
        Err(_) => {
            let outcome = swept.outcome(job, class, block);
            let Ok(()) = ledger.report(worker, outcome) else {
                unreachable!()
            };
            Some(Event::Report(worker, outcome))
        }
    }
}

/// The effect of a list of moves.
#[derive(Clone, Copy, Debug, PartialEq, Eq)]
struct Played {
    /// The number of pieces that were dropped.
    skipped: u32,
    /// True if there was an event at all.
    changed: bool,
}

/// Makes the moves of these workers, in order.
fn play(job: &Job, ledger: &mut Ledger, swept: &mut Swept, moves: &[u32]) -> Played
    requires shape { IsShapeOf job.now ledger.old.shape }
    requires few { job_pieces job.now ≤ max_pieces }
    requires history { HasHistory ledger.old }
    requires workers { All (λ worker. worker < ledger.old.shape.workers) moves.now }
    requires serves { IsSweptOf job.now swept.old }
    ensures shape { ledger.new.shape ≡ ledger.old.shape }
    ensures moved { (table : Table) (h : History) → IsTableOf job.now table
        → IsLegal ledger.old.shape h → ledger.old ≡ face ledger.old.shape h
        → let later : History = after_moves table ledger.old.shape h moves.now in
        (ledger.new ≡ face ledger.old.shape later) × IsLegal ledger.old.shape later
        × (drops later ≡ drops h + result.skipped)
        × (result.changed ≡ true → length h < length later)
        × (result.changed ≡ false → (later ≡ h)
        × All (λ w. (claims h ≡ piece_count ledger.old.shape) × (held_by w h ≡ None)) moves.now) }
    ensures serves { IsSweptOf job.now swept.new }
{
    let _parts = job.classes();
    let mut skipped = 0;
    let mut changed = false;
    for worker in moves {
        if let Some(event) = step(job, ledger, swept, *worker) {
            changed = true;
            if let Event::Drop(_) = event {
                skipped += 1;
            }
        }
    }
    Played { skipped, changed }
}

/// Makes the moves of all workers in turn, until none has anything left to do. Returns the number
/// of pieces that were dropped.
fn take_turns(job: &Job, ledger: &mut Ledger, swept: &mut Swept, everyone: &[u32]) -> u32
    requires shape { IsShapeOf job.now ledger.old.shape }
    requires few { job_pieces job.now ≤ max_pieces }
    requires history { HasHistory ledger.old }
    requires everyone { everyone.now ≡ below ledger.old.shape.workers }
    requires some { 0 < ledger.old.shape.workers }
    requires serves { IsSweptOf job.now swept.old }
    ensures shape { ledger.new.shape ≡ ledger.old.shape }
    ensures moved { (table : Table) (h : History) → IsTableOf job.now table
        → IsLegal ledger.old.shape h → ledger.old ≡ face ledger.old.shape h
        → let shape : Shape = ledger.old.shape in
        let later : History = after_moves table shape h
        (turns shape.workers (2 * piece_count shape)) in
        (ledger.new ≡ face shape later) × IsLegal shape later
        × (drops later ≡ drops h + result) × AreSettled shape later shape.classes }
{
    let _parts = job.classes();
    let mut skipped = 0;
    'turns: loop {
        let turn = play(job, ledger, swept, everyone);
        skipped += turn.skipped;
        if !turn.changed {
            return skipped;
        }
    }
}

/// Checks that the run has the workers of all moves.
fn check_moves(workers: u32, moves: &[u32]) -> Result<(), RunFault>
    ensures in_range { OnOk result (All (λ worker. worker < workers) moves.now) }
    ensures refused { IfErr result (λ fault. (index : ℕ) × (fault ≡ RunFault.NoSuchMove index)
        × (position (λ worker. nat_le workers worker) moves.now ≡ Some index)) }
{
    match moves.iter().position(|worker| *worker >= workers) {
        Some(index) => Err(RunFault::NoSuchMove(index as u64)),
        None => Ok(()),
    }
}

/// Runs a job by moves of its workers, numbered from 0, in one thread. By a move a worker that
/// holds nothing claims a piece. A worker that holds a piece drops it if an earlier block of its
/// class detects, else it simulates the piece and reports. The given moves come first, and then all
/// workers move in turn until nothing is left to claim. The verdicts are the first tests for every
/// list of moves.
///
/// Beside the ledger, the first tests so far and the verdicts it takes a word for each worker. All
/// classes are simulated together on a block when the first piece of the block is due.
///
/// # Errors
///
/// The first that applies: [`RunFault::NoWorkers`]; [`RunFault::TooManyWorkers`] above 64 workers;
/// [`RunFault::NoSuchMove`], before any move is made, with the least index of a move whose worker
/// isn't below the number of workers; [`RunFault::TooManyPieces`] above [`patterns::MAX_PIECES`]
/// pieces, which a job of [`Job::new`] doesn't have; [`RunFault::Memory`].
pub fn run_schedule(
    alloc: Global,
    job: &Job,
    workers: u32,
    moves: &[u32],
) -> Result<Verdicts, RunFault>
    ensures firsts { IfOk result (λ v.
        AreFirsts job.now.list.model job.now.circuit job.now.tests.tests v.firsts) }
    ensures history { IfOk result (IsScheduled job.now workers moves.now) }
    ensures workers { OnOk result ((0 < workers) × (workers ≤ 64)) }
    ensures moves { OnOk result (All (λ worker. worker < workers) moves.now) }
    ensures few { OnOk result (job_pieces job.now ≤ max_pieces) }
    ensures refused { IfErr result (IsScheduleFault (job_pieces job.now) workers moves.now) }
{
    check_workers(workers)?;
    check_moves(workers, moves)?;
    check_job(job)?;
    let everyone = workers_in_order(alloc, workers)?;
    let mut ledger = open_ledger(alloc, job, workers)?;
    let mut swept = Swept::new(alloc, job)?;
    let firsts = Vec::with_capacity(alloc, job.faults().count() as usize)?;
    let played = play(job, &mut ledger, &mut swept, moves);
    let dropped = take_turns(job, &mut ledger, &mut swept, everyone.as_slice());
    let skipped = played.skipped + dropped;
    let verdicts = verdicts_of(job, &ledger, u64::from(skipped), firsts)?;
    Ok(verdicts)
}

/// Returns the numbers of the workers, from 0 on.
fn workers_in_order(alloc: Global, workers: u32) -> Result<Vec<u32>, AllocError>
    ensures { IfOk result (λ everyone. everyone.items ≡ below workers) }
{
    let mut everyone = Vec::with_capacity(alloc, workers as usize)?;
    for worker in 0..workers {
        everyone.push(worker)?;
    }
    Ok(everyone)
}

/// Makes a ledger of a job that has no more pieces than a ledger takes, so it fails only for
/// memory.
fn open_ledger(alloc: Global, job: &Job, workers: u32) -> Result<Ledger, RunFault>
    requires workers { (0 < workers) × (workers ≤ 64) }
    requires few { job_pieces job.now ≤ max_pieces }
    ensures face { IfOk result (λ ledger. ledger ≡ face (shape_for job.now workers) []) }
    ensures refused { IfErr result (λ fault. fault ≡ RunFault.Memory) }
{
    match Ledger::new(alloc, job.classes().count(), job.tests().count(), workers) {
        Ok(ledger) => Ok(ledger),
        Err(LedgerFault::Memory) => Err(RunFault::Memory),
        Err(_) => unreachable!(),
    }
}
