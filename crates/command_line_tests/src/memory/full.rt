//! Calls that take no memory, if none is left, and threads that find no room for a stack.

ghost use Rattle.std.specs.Prelude.{◌≡◌};
ghost use Rattle.block_sim.specs.Parts.{HasRoom};
ghost use Rattle.workers.specs.Settling.{IsShapeOf};

use crate::checks::check;
use crate::memory::ballast::Ballast;
use crate::memory::parts::c17_job;
use crate::memory::reads::is_sum_the_same;
use crate::memory::runs::is_right;
use crate::memory::texts::Screen;
use crate::memory::written::{LISTING, REPORT};
use block_sim::{Job, Workspace, first_hit, simulate};
use fault_ledger::{Claim, Finish, Ledger, LedgerFault, Seat, SharedLedger};
use report::{RunFault, SimFault, write_listing, write_report};
use std::alloc::{AllocError, Global};
use std::process::Abort;
use std::sync::Wait;
use std::thread::Threads;
use workers::{End, OpenGate, Verdicts, run, run_schedule, work};

/// Returns whether the report of a job of C17 has the expected bytes.
fn is_reported(job: &Job, verdicts: &Verdicts) -> bool {
    if verdicts.total() != job.faults().count() {
        return false;
    }
    let mut screen = Screen::new();
    let written = write_report(job, verdicts, true, &mut screen);
    written.is_ok() && screen.text() == REPORT
}

/// Returns whether the listing of a job of C17 has the expected bytes.
fn is_listed(job: &Job) -> bool {
    let mut screen = Screen::new();
    let written = write_listing(job.circuit(), job.faults(), job.classes(), &mut screen);
    written.is_ok() && screen.text() == LISTING
}

/// Returns whether both are written so, with no memory left.
fn are_written(alloc: Global, job: &Job, verdicts: &Verdicts) -> Result<bool, AllocError> {
    let ballast = Ballast::all(alloc)?;
    let are_written = is_reported(job, verdicts) && is_listed(job);
    drop(ballast);
    Ok(are_written)
}

/// Returns whether both texts of C17 under its 65 tests are written so.
fn writes_both(alloc: Global, job: &Job) -> Result<bool, RunFault> {
    let verdicts = run_schedule(alloc, job, 2, &[])?;
    Ok(are_written(alloc, job, &verdicts)?)
}

/// Claims a piece, and drops it, else simulates it twice and reports. Returns whether all went
/// well.
fn step(job: &Job, ledger: &mut Ledger, workspace: &mut Workspace) -> bool {
    let Ok(Claim::Piece { class, block }) = ledger.claim(0) else {
        return false;
    };
    if ledger.drop_piece(0).is_ok() {
        return true;
    }
    if class >= job.classes().count() || block >= job.tests().blocks() || !workspace.fits(job) {
        return false;
    }
    let whole = simulate(job, workspace, class, block);
    let early = first_hit(job, workspace, class, block);
    whole == early && ledger.report(0, early).is_ok()
}

/// Simulates all 44 pieces of a job. Returns whether all went well.
fn simulates(job: &Job, ledger: &mut Ledger, workspace: &mut Workspace) -> bool {
    for _piece in 0..44 {
        if !step(job, ledger, workspace) {
            return false;
        }
    }
    ledger.finished() == Finish::Finished && workspace.gate_evaluations() > 0
}

/// Simulates all pieces in a new workspace, with no memory left.
fn simulates_without_memory(
    alloc: Global,
    job: &Job,
    ledger: &mut Ledger,
) -> Result<bool, AllocError> {
    let mut workspace = Workspace::new(alloc, job)?;
    let ballast = Ballast::all(alloc)?;
    let is_well = simulates(job, ledger, &mut workspace);
    drop(ballast);
    Ok(is_well)
}

/// Simulates all pieces with a new ledger.
fn simulates_all(alloc: Global, job: &Job) -> Result<bool, LedgerFault> {
    let mut ledger = Ledger::new(alloc, 22, 65, 1)?;
    Ok(simulates_without_memory(alloc, job, &mut ledger)?)
}

/// Lets the worker of a seat work with no memory left. Returns whether all went well.
fn works_without_memory(
    alloc: Global,
    job: &Job,
    ledger: &SharedLedger,
    workspace: &mut Workspace,
    seat: &mut Seat,
) -> Result<bool, AllocError>
    requires shape { IsShapeOf job.now ledger.now.shape }
    requires place { seat.old.place ≡ ledger.now }
    requires fits { HasRoom workspace.old job.now }
{
    let ballast = Ballast::all(alloc)?;
    if seat.held().is_some() {
        return Ok(false);
    }
    let end = work(job, ledger, workspace, seat, &OpenGate);
    let finish = ledger.finished(seat);
    drop(ballast);
    Ok(end != End::Stopped && finish == Finish::Finished)
}

/// Lets the worker of a seat work in a workspace of its own.
fn works_at(
    alloc: Global,
    job: &Job,
    ledger: &SharedLedger,
    seat: &mut Seat,
) -> Result<bool, AllocError>
    requires shape { IsShapeOf job.now ledger.now.shape }
    requires place { seat.old.place ≡ ledger.now }
{
    let mut workspace = Workspace::new(alloc, job)?;
    works_without_memory(alloc, job, ledger, &mut workspace, seat)
}

/// Lets one worker work at a ledger of its own.
fn works(alloc: Global, job: &Job) -> Result<bool, LedgerFault> {
    let (classes, count) = (job.classes().count(), job.tests().count());
    let (ledger, mut seats) = SharedLedger::new(alloc, classes, count, 1)?;
    let Some(mut seat) = seats.pop() else {
        return Ok(false);
    };
    Ok(works_at(alloc, job, &ledger, &mut seat)?)
}

/// Returns whether 64 workers cannot start if few find room for a stack.
fn is_refused<R: Threads + Wait>(rt: &R, alloc: Global, job: &Job) -> Result<bool, AllocError> {
    // No stack of a thread, 8 MB, finds room, except for stacks that are kept from ended threads.
    // Up to 4 MB do, so that small blocks are there though the heap may have no room to grow.
    let ballast = Ballast::large(alloc, 22)?;
    let refused = run(rt, alloc, job, 64, &OpenGate).err();
    drop(ballast);
    Ok(refused == Some(RunFault::Threads))
}

/// Returns whether 64 workers start if all find room.
fn is_run<R: Threads + Wait>(rt: &R, alloc: Global, job: &Job) -> bool {
    match run(rt, alloc, job, 64, &OpenGate) {
        Ok(verdicts) => is_right(&verdicts),
        Err(_) => false,
    }
}

/// A call or more on the job of C17 under its 65 tests.
#[derive(Clone, Copy)]
enum Calls {
    Simulate,
    Work,
    Write,
    Read,
    StartThreads,
}

/// Returns whether calls on a job go on without memory, or say that threads have no room.
fn go_on<R: Threads + Wait>(rt: &R, alloc: Global, job: &Job, calls: Calls) -> bool {
    match calls {
        Calls::Simulate => simulates_all(alloc, job) == Ok(true),
        Calls::Work => works(alloc, job) == Ok(true),
        Calls::Write => writes_both(alloc, job) == Ok(true),
        Calls::Read => is_sum_the_same(alloc, job) == Ok(true),
        Calls::StartThreads => is_refused(rt, alloc, job) == Ok(true) && is_run(rt, alloc, job),
    }
}

/// The calls, each with its name.
static CALLS: [(Calls, &str); 5] = [
    (Calls::Simulate, "pieces are simulated"),
    (Calls::Work, "a worker works"),
    (Calls::Write, "reports are written"),
    (Calls::Read, "calls that read"),
    (Calls::StartThreads, "starts of threads"),
];

/// Stops the test at the first calls that don't go on.
fn check_calls<R: Threads + Wait + Abort>(rt: &R, alloc: Global, job: &Job) {
    for (calls, name) in &CALLS {
        check(rt, go_on(rt, alloc, job, *calls), name);
    }
}

/// Checks all calls on the job of C17. Only this function owns it.
fn check_c17<R: Threads + Wait + Abort>(rt: &R, alloc: Global) -> Result<(), SimFault> {
    let job = c17_job(alloc)?;
    check_calls(rt, alloc, &job);
    Ok(())
}

#[test]
fn calls_go_on_without_memory(rt: HostRuntime) {
    assert!(rt; check_c17(&rt, rt.alloc()).is_ok());
}
