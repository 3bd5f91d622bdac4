//! Stretches that workers claim, each of which one worker simulates by itself.

ghost use Rattle.std.specs.Prelude.{◌≡◌, ◌⊎◌, ◌<◌, ℕ, All, Bool, IfErr, IfNone, IfOk, IfSome};
ghost use Rattle.std.specs.Prelude.{None, Some};
ghost use Rattle.std.specs.Prelude.{length, vec_len};
ghost use Rattle.patterns.specs.Tests.{blocks};
ghost use Rattle.region_sim.specs.RegionHits.{ServesRegions};
ghost use Rattle.fault_ledger.specs.declared.Event.{Event};
ghost use Rattle.fault_ledger.specs.declared.Reply.TheVariants as reply;
ghost use Rattle.fault_ledger.specs.History.{held_by};
ghost use Rattle.fault_ledger.specs.Seats.{Makes, newcomer, newcomers};
ghost use Rattle.region_runs.specs.StretchRuns.{IsDone, IsLowestIn, unbegun_run};
ghost use Rattle.region_runs.specs.Tasks.{task_of};
ghost use Rattle.region_runs.specs.Part.{stretch_at};
ghost use Rattle.region_runs.specs.Cut.{IsCutOf};
ghost use Rattle.region_runs.specs.Stretches.{AfterRun, AreServed, ClaimsStretch, HasServed};
ghost use Rattle.region_runs.specs.Stretches.{SeesAllClaimed};

use crate::alone::{Ended, run_from};
use crate::stretch_run::{Stop, Waiting, lowest_open};
use crate::stretches::Cut;
use block_sim::Job;
use fault_ledger::{Claim, Seat, SharedLedger};
use patterns::Outcome;
use region_sim::{Goal, RegionSimulation};
use std::alloc::{AllocError, Global};
use std::snapshot::Snapshot;
use std::sync::Wait;
use std::thread;
use std::thread::{Promise, Threads};
use workers::{Gate, RunFault};

/// The result of a worker for a stretch.
#[derive(Drop)]
pub(crate) struct Done<K> {
    /// The stretch, counted from 0.
    pub(crate) stretch: u32,
    /// The worker that ran it, counted from 0.
    pub(crate) worker: u32,
    /// What the goal keeps of each class of the stretch, as far as the worker got.
    pub(crate) kept: Vec<K>,
    /// The point at which the gate stopped the worker, if it did.
    pub(crate) stop: Option<Stop>,
    /// The lowest unsettled class, if the gate stopped the worker.
    pub(crate) waiting: Option<Waiting>,
}

/// A worker by its number, with room of its own.
#[derive(Drop)]
pub(crate) struct Member {
    number: u32,
    simulation: RegionSimulation,
}

impl Member {
    /// Makes the worker of a number.
    pub(crate) fn new(alloc: Global, job: &Job, number: u32) -> Result<Member, AllocError>
        ensures number { IfOk result (λ member. member.number ≡ number) }
        ensures serves { IfOk result (λ member. ServesRegions member.simulation job.now 0) }
    {
        let simulation = RegionSimulation::new(alloc, job)?;
        Ok(Member { number, simulation })
    }
}

/// Lets a worker simulate a stretch by itself.
pub(crate) fn run_stretch<A: Goal, G: Gate>(
    alloc: Global,
    job: &Job,
    cut: &Cut,
    stretch: u32,
    member: &mut Member,
    goal: &A,
    gate: &G,
) -> Result<Done<A::Kept>, AllocError>
    requires cut { IsCutOf job.now cut.now.from cut.now.stretches cut.now.size
        cut.now.classes.items }
    requires serves { ServesRegions member.old.simulation job.now 0 }
    ensures done { IfOk result (IsDone (task_of job.now cut.now.from (A.wants goal.now)
        (A.means goal.now))
        cut.now.size cut.now.classes.items member.old.number (G.passing gate.now)
        (G.stops gate.now)) }
    ensures stretch { IfOk result (λ done. done.stretch ≡ stretch) }
    ensures member { member.new.number ≡ member.old.number }
    ensures serves { ServesRegions member.new.simulation job.now 0 }
{
    let own = cut.stretch(stretch);
    let worker = member.number;
    let from = cut.from;
    let simulation = &mut member.simulation;
    let ended = run_from(
        alloc,
        job,
        from,
        goal.first_unit(),
        own,
        worker,
        simulation,
        goal,
        gate,
    )?;
    let Ended { kept, stop } = ended;
    let waiting = match stop {
        Some(stop) => lowest_open(job, own, from, stop, goal, kept.as_slice()),
        None => None,
    };
    Ok(Done {
        stretch,
        worker,
        kept,
        stop,
        waiting,
    })
}

/// Returns what a goal keeps of no test, for each of this number of classes.
pub(crate) fn starts<A: Goal>(
    alloc: Global,
    goal: &A,
    count: usize,
) -> Result<Vec<A::Kept>, AllocError>
    ensures count { IfOk result (λ kept. vec_len kept ≡ count) }
    ensures first { IfOk result (λ kept. All (λ one. (hits : ℕ → Bool) (at : ℕ)
        → A.means goal.now hits at at one) kept.items) }
{
    let mut kept = Vec::with_capacity(alloc, count)?;
    for _place in 0..count {
        kept.push(goal.start(alloc)?)?;
    }
    Ok(kept)
}

/// Returns the lowest class of a stretch that no worker began, which waits for the first block of
/// the run; none if the stretch has no class.
pub(crate) fn not_begun<A: Goal>(
    alloc: Global,
    job: &Job,
    cut: &Cut,
    stretch: u32,
    goal: &A,
) -> Result<Option<Waiting>, AllocError>
    requires cut { IsCutOf job.now cut.now.from cut.now.stretches cut.now.size
        cut.now.classes.items }
    requires block { 0 < length (stretch_at cut.now.size cut.now.classes.items stretch)
        → cut.now.from < blocks (length job.now.tests.tests) }
    ensures { IfOk result (IsLowestIn (task_of job.now cut.now.from (A.wants goal.now)
        (A.means goal.now))
        (unbegun_run cut.now.from (stretch_at cut.now.size cut.now.classes.items stretch))) }
{
    let own = cut.stretch(stretch);
    if own.is_empty() {
        return Ok(None);
    }
    let kept = starts(alloc, goal, own.len())?;
    let from = cut.from;
    let stop = Stop {
        place: 0,
        block: from,
    };
    Ok(lowest_open(job, own, from, stop, goal, kept.as_slice()))
}

/// The result of a worker: its seat, and its results for the stretches that it claimed.
#[derive(Drop)]
pub(crate) struct Served<K> {
    pub(crate) seat: Seat,
    pub(crate) dones: Vec<Done<K>>,
}

/// Claims the next stretch for a seat that holds none; none if all are claimed.
fn claim_next(ledger: &SharedLedger, seat: &mut Seat) -> Option<u32>
    requires place { seat.old.place ≡ ledger.now }
    requires stretches { ledger.now.shape.tests ≡ 64 }
    requires free { held_by seat.old.worker seat.old.seen ≡ None }
    ensures claimed { IfSome result (λ stretch. ClaimsStretch seat.old stretch seat.new) }
    ensures exhausted { IfNone result (SeesAllClaimed seat.old seat.new) }
{
    let _sitter = seat.worker();
    match ledger.claim(seat) {
        Ok(
            Claim::Piece {
                class,
                block: _block,
            },
        ) => Some(class),
        Ok(Claim::Exhausted) => {
            let _sitter = seat.worker();
            None
        }
        Err(_) => unreachable!(),
    }
}

/// Reports the stretch that a seat holds as done.
fn report_done(ledger: &SharedLedger, seat: &mut Seat)
    requires place { seat.old.place ≡ ledger.now }
    requires holding { (stretch : ℕ) × (held_by seat.old.worker seat.old.seen ≡ Some stretch) }
    ensures { Makes seat.old (Event.Report seat.old.worker Outcome.Clear) reply.Done seat.new }
{
    let _sitter = seat.worker();
    let Ok(()) = ledger.report(seat, Outcome::Clear) else {
        unreachable!()
    };
}

/// Lets a worker simulate the stretch that its seat holds, and report it unless the gate stopped
/// it.
fn run_held<A: Goal, G: Gate>(
    alloc: Global,
    job: &Job,
    cut: &Cut,
    ledger: &SharedLedger,
    stretch: u32,
    member: &mut Member,
    seat: &mut Seat,
    goal: &A,
    gate: &G,
) -> Result<Done<A::Kept>, AllocError>
    requires cut { IsCutOf job.now cut.now.from cut.now.stretches cut.now.size
        cut.now.classes.items }
    requires place { seat.old.place ≡ ledger.now }
    requires holding { held_by seat.old.worker seat.old.seen ≡ Some stretch }
    requires serves { ServesRegions member.old.simulation job.now 0 }
    ensures done { IfOk result (IsDone (task_of job.now cut.now.from (A.wants goal.now)
        (A.means goal.now))
        cut.now.size cut.now.classes.items member.old.number (G.passing gate.now)
        (G.stops gate.now)) }
    ensures stretch { IfOk result (λ done. done.stretch ≡ stretch) }
    ensures after { IfOk result (λ done. AfterRun seat.old done.waiting seat.new) }
    ensures member { member.new.number ≡ member.old.number }
    ensures serves { ServesRegions member.new.simulation job.now 0 }
{
    let done = run_stretch(alloc, job, cut, stretch, member, goal, gate)?;
    if done.waiting.is_none() {
        report_done(ledger, seat);
    }
    Ok(done)
}

/// Lets a worker claim and simulate stretches, until all are claimed or the gate stops it.
fn serve_seat<A: Goal, G: Gate>(
    alloc: Global,
    job: &Job,
    cut: &Cut,
    ledger: &SharedLedger,
    goal: &A,
    gate: &G,
    seat: &mut Seat,
) -> Result<Vec<Done<A::Kept>>, AllocError>
    requires cut { IsCutOf job.now cut.now.from cut.now.stretches cut.now.size
        cut.now.classes.items }
    requires stretches { ledger.now.shape.tests ≡ 64 }
    requires new { seat.old ≡ newcomer ledger.now seat.old.worker }
    ensures { IfOk result (λ dones. HasServed
        (task_of job.now cut.now.from (A.wants goal.now) (A.means goal.now)) cut.now.size
        cut.now.classes.items ledger.now seat.old.worker (G.passing gate.now) (G.stops gate.now)
        seat.new dones.items) }
{
    let mut member = Member::new(alloc, job, seat.worker())?;
    let mut dones = Vec::new(alloc);
    'claims: loop {
        let stretch = match claim_next(ledger, seat) {
            Some(stretch) => stretch,
            None => return Ok(dones),
        };
        let done = run_held(
            alloc,
            job,
            cut,
            ledger,
            stretch,
            &mut member,
            seat,
            goal,
            gate,
        )?;
        let stopped = done.waiting.is_some();
        dones.push(done)?;
        if stopped {
            return Ok(dones);
        }
    }
}

/// Does the work of one worker.
fn serve<A: Goal, G: Gate>(
    alloc: Global,
    job: &Job,
    cut: &Cut,
    ledger: &SharedLedger,
    goal: &A,
    gate: &G,
    seat: Seat,
) -> Result<Served<A::Kept>, AllocError>
    requires cut { IsCutOf job.now cut.now.from cut.now.stretches cut.now.size
        cut.now.classes.items }
    requires stretches { ledger.now.shape.tests ≡ 64 }
    requires new { seat ≡ newcomer ledger.now seat.worker }
    ensures { IfOk result (λ served. HasServed
        (task_of job.now cut.now.from (A.wants goal.now) (A.means goal.now)) cut.now.size
        cut.now.classes.items ledger.now seat.worker (G.passing gate.now) (G.stops gate.now)
        served.seat served.dones.items) }
{
    let mut seat = seat;
    let dones = serve_seat(alloc, job, cut, ledger, goal, gate, &mut seat)?;
    Ok(Served { seat, dones })
}

/// The data that the thread of a worker borrows. It returns its worker's seat, and its results for
/// each stretch that it claimed.
#[derive(Drop)]
struct Taker<A, G> {
    job: Snapshot<Job>,
    cut: Snapshot<Cut>,
    ledger: Snapshot<SharedLedger>,
    goal: Snapshot<A>,
    gate: Snapshot<G>,
    worker: u32,
}

impl<A: Goal, G: Gate> Promise<Result<Served<A::Kept>, AllocError>> for Taker<A, G>
where
    A::Kept: Send,
{
    ghost use Rattle.std.specs.Prelude.{IfOk};
    ghost use Rattle.region_runs.specs.Stretches.{HasServed};
    ghost use Rattle.region_runs.specs.Tasks.{task_of};

    ghost kept_by = { λ p r. IfOk r (λ served.
        HasServed (task_of p.job.value p.cut.value.from (A.wants p.goal.value)
        (A.means p.goal.value))
        p.cut.value.size p.cut.value.classes.items p.ledger.value p.worker
        (G.passing p.gate.value) (G.stops p.gate.value) served.seat served.dones.items) };
}

/// Lets the worker of each seat claim stretches: a single one in the thread of the caller, and
/// several in threads of their own.
pub(crate) fn serve_all<A: Goal + Sync, G: Gate + Sync, R: Threads + Wait>(
    rt: &R,
    alloc: Global,
    job: &Job,
    cut: &Cut,
    ledger: &SharedLedger,
    goal: &A,
    gate: &G,
    seats: Vec<Seat>,
) -> Result<Vec<Result<Served<A::Kept>, AllocError>>, RunFault>
where
    A::Kept: Send,
    requires cut { IsCutOf job.now cut.now.from cut.now.stretches cut.now.size
        cut.now.classes.items }
    requires stretches { ledger.now.shape.tests ≡ 64 }
    requires new { seats.items ≡ newcomers ledger.now }
    ensures served { IfOk result (λ back.
        AreServed (task_of job.now cut.now.from (A.wants goal.now) (A.means goal.now)) cut.now.size
        cut.now.classes.items ledger.now (G.passing gate.now) (G.stops gate.now) back.items) }
    ensures refused { IfErr result (λ fault.
        (fault ≡ RunFault.Memory) ⊎ (fault ≡ RunFault.Threads)) }
{
    if seats.len() == 1 {
        let back = serve_here(alloc, job, cut, ledger, goal, gate, seats)?;
        return Ok(back);
    }
    take_stretches(rt, alloc, job, cut, ledger, goal, gate, seats)
}

/// Lets the worker of each seat claim stretches in the thread of the caller, one after another.
fn serve_here<A: Goal, G: Gate>(
    alloc: Global,
    job: &Job,
    cut: &Cut,
    ledger: &SharedLedger,
    goal: &A,
    gate: &G,
    seats: Vec<Seat>,
) -> Result<Vec<Result<Served<A::Kept>, AllocError>>, AllocError>
    requires cut { IsCutOf job.now cut.now.from cut.now.stretches cut.now.size
        cut.now.classes.items }
    requires stretches { ledger.now.shape.tests ≡ 64 }
    requires new { seats.items ≡ newcomers ledger.now }
    ensures { IfOk result (λ back.
        AreServed (task_of job.now cut.now.from (A.wants goal.now) (A.means goal.now)) cut.now.size
        cut.now.classes.items ledger.now (G.passing gate.now) (G.stops gate.now) back.items) }
{
    let mut back = Vec::with_capacity(alloc, seats.len())?;
    for seat in seats {
        back.push(serve(alloc, job, cut, ledger, goal, gate, seat))?;
    }
    Ok(back)
}

/// Lets each seat's worker claim stretches in a thread of its own.
fn take_stretches<A: Goal + Sync, G: Gate + Sync, R: Threads + Wait>(
    rt: &R,
    alloc: Global,
    job: &Job,
    cut: &Cut,
    ledger: &SharedLedger,
    goal: &A,
    gate: &G,
    seats: Vec<Seat>,
) -> Result<Vec<Result<Served<A::Kept>, AllocError>>, RunFault>
where
    A::Kept: Send,
    requires cut { IsCutOf job.now cut.now.from cut.now.stretches cut.now.size
        cut.now.classes.items }
    requires stretches { ledger.now.shape.tests ≡ 64 }
    requires new { seats.items ≡ newcomers ledger.now }
    ensures served { IfOk result (λ back.
        AreServed (task_of job.now cut.now.from (A.wants goal.now) (A.means goal.now)) cut.now.size
        cut.now.classes.items ledger.now (G.passing gate.now) (G.stops gate.now) back.items) }
    ensures refused { IfErr result (λ fault.
        (fault ≡ RunFault.Memory) ⊎ (fault ≡ RunFault.Threads)) }
{
    thread::scope(
        thread::scope_env(),
        rt,
        |scope| -> Result<Vec<Result<Served<A::Kept>, AllocError>>, RunFault>
            requires cut { IsCutOf job.now cut.now.from cut.now.stretches cut.now.size
                cut.now.classes.items }
            requires stretches { ledger.now.shape.tests ≡ 64 }
            requires new { seats.items ≡ newcomers ledger.now }
            ensures served { IfOk result (λ back.
                AreServed (task_of job.entry.now cut.entry.now.from (A.wants goal.entry.now)
                (A.means goal.entry.now))
                cut.entry.now.size cut.entry.now.classes.items ledger.entry.now
                (G.passing gate.entry.now) (G.stops gate.entry.now) back.items) }
            ensures refused { IfErr result (λ fault.
                (fault ≡ RunFault.Memory) ⊎ (fault ≡ RunFault.Threads)) }
        {
            let count = seats.len();
            let mut handles = Vec::with_capacity(alloc, count)?;
            for seat in seats {
                let kept = Taker {
                    job: Snapshot::of(job),
                    cut: Snapshot::of(cut),
                    ledger: Snapshot::of(ledger),
                    goal: Snapshot::of(goal),
                    gate: Snapshot::of(gate),
                    worker: seat.worker(),
                };
                let Ok(handle) = scope.spawn_with(
                    kept,
                    move || serve(alloc, job, cut, ledger, goal, gate, seat),
                ) else {
                    break;
                };
                handles.push(handle)?;
            }
            let refused = handles.len() < count;
            let back = thread::join_promised(rt, handles)?;
            if refused {
                return Err(RunFault::Threads);
            }
            Ok(back)
        },
    )
}

/// Returns an empty place for each stretch.
pub(crate) fn empty_table<K: Drop>(
    alloc: Global,
    stretches: u32,
) -> Result<Vec<Option<Done<K>>>, AllocError>
    ensures count { IfOk result (λ table. vec_len table ≡ stretches) }
    ensures none { IfOk result (λ table. All (λ at. IfSome at (λ _. ⊥)) table.items) }
{
    let mut table = Vec::with_capacity(alloc, stretches as usize)?;
    for _stretch in 0..stretches {
        table.push(None)?;
    }
    Ok(table)
}
