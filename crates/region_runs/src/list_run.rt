//! Runs over a list of classes in stretches.

ghost use Rattle.std.specs.Prelude.{◌≡◌, ◌⊎◌, ◌<◌, ◌≤◌, ◌++◌, All, IfErr, IfOk, List};
ghost use Rattle.std.specs.Prelude.{OnOk, Some, length, vec_len};
ghost use Rattle.patterns.specs.Tests.{blocks, max_pieces};
ghost use Rattle.fault_ledger.specs.Seats.{ClosedFace, Closes, Sitter, newcomers};
ghost use Rattle.region_runs.specs.StretchRuns.{AreAllKept, AreAllLowest, AreGivenBack, ArePut};
ghost use Rattle.region_runs.specs.StretchRuns.{IsLowest, IsLowestAt, IsLowestIn, WaitsIn};
ghost use Rattle.region_runs.specs.StretchRuns.{kept_at, run_at, runs_from};
ghost use Rattle.region_runs.specs.Part.{stretch_at, stretch_count, stretch_size};
ghost use Rattle.region_runs.specs.Cut.{IsCutOf};
ghost use Rattle.region_runs.specs.Refused.{IsListFault, IsStretchesFault};
ghost use Rattle.region_runs.specs.Stretches.{AreApart, AreByStretches, AreShared};
ghost use Rattle.region_runs.specs.Stretches.{crew_of};
ghost use Rattle.region_runs.specs.Stretches.{shape_of_stretches};
ghost use Rattle.region_runs.specs.Tasks.{AreKept, IsOpenAtFirst, task_of};
ghost use Rattle.region_runs.specs.WindowLedgers.{AreFoundByLedger};

use crate::class_order::count_in;
use crate::stretch_run::{Waiting, lower_of};
use crate::stretch_workers::{Done, Served, empty_table, not_begun, serve_all};
use crate::stretches::{Cut, filled, stretches_for};
use block_sim::Job;
use fault_ledger::{Closed, Finish, LedgerFault, Seat, SharedLedger};
use patterns::BLOCK_SIZE;
use region_sim::Goal;
use std::alloc::{AllocError, Global};
use std::sync::Wait;
use std::thread::Threads;
use workers::{Gate, RunFault, check_workers};

/// Puts the results of a worker at the places of its stretches.
fn put_by_stretch<K: Drop>(table: Vec<Option<Done<K>>>, dones: Vec<Done<K>>) -> Vec<Option<Done<K>>>
    ensures { ArePut table.items dones.items result.items }
{
    let mut table = table;
    for done in dones {
        let stretch = done.stretch as usize;
        if stretch < table.len() {
            table[stretch] = Some(done);
        }
    }
    table
}

/// Returns the results of all workers, by stretch.
fn table_of<K: Drop>(
    alloc: Global,
    stretches: u32,
    back: Vec<Vec<Done<K>>>,
) -> Result<Vec<Option<Done<K>>>, AllocError>
    ensures { IfOk result (λ table. AreGivenBack stretches back.items table.items) }
{
    let mut table = empty_table(alloc, stretches)?;
    for dones in back {
        table = put_by_stretch(table, dones);
    }
    Ok(table)
}

/// Joins what is kept of the classes of all stretches.
fn joined<A: Goal>(
    alloc: Global,
    job: &Job,
    cut: &Cut,
    goal: &A,
    table: Vec<Option<Done<A::Kept>>>,
) -> Result<Vec<A::Kept>, AllocError>
    requires cut { IsCutOf job.now cut.now.from cut.now.stretches cut.now.size
        cut.now.classes.items }
    requires count { vec_len table ≡ cut.now.stretches }
    requires kept { AreAllKept (task_of job.now cut.now.from (A.wants goal.now) (A.means goal.now))
        cut.now.size cut.now.classes.items table.items }
    ensures { IfOk result (λ kept. AreKept (task_of job.now cut.now.from (A.wants goal.now)
        (A.means goal.now))
        cut.now.classes.items kept.items) }
{
    let (_job, _goal) = (job, goal);
    let mut kept = Vec::with_capacity(alloc, cut.classes.len())?;
    for place in table {
        kept = appended(kept, kept_of(alloc, place))?;
    }
    Ok(kept)
}

/// Returns what the result at a place of a table keeps: nothing if the place is empty.
fn kept_of<K: Drop>(alloc: Global, place: Option<Done<K>>) -> Vec<K>
    ensures { result.items ≡ kept_at place }
{
    match place {
        Some(done) => done.kept,
        None => Vec::new(alloc),
    }
}

/// Appends values to others.
fn appended<K: Drop>(values: Vec<K>, more: Vec<K>) -> Result<Vec<K>, AllocError>
    ensures { IfOk result (λ all. all.items ≡ values.items ++ more.items) }
{
    let mut values = values;
    for value in more {
        values.push(value)?;
    }
    Ok(values)
}

/// Returns the lowest unsettled class of a stretch, from its entry in the table. An empty entry is
/// a stretch that no worker began.
fn waiting_in<A: Goal>(
    alloc: Global,
    job: &Job,
    cut: &Cut,
    stretch: u32,
    goal: &A,
    place: Option<Done<A::Kept>>,
) -> Result<Option<Waiting>, AllocError>
    requires cut { IsCutOf job.now cut.now.from cut.now.stretches cut.now.size
        cut.now.classes.items }
    requires lowest { IsLowestAt (task_of job.now cut.now.from (A.wants goal.now)
        (A.means goal.now))
        (stretch_at cut.now.size cut.now.classes.items stretch) place }
    ensures { IfOk result (IsLowestIn (task_of job.now cut.now.from (A.wants goal.now)
        (A.means goal.now))
        (run_at cut.now.from (stretch_at cut.now.size cut.now.classes.items stretch) place)) }
{
    match place {
        Some(done) => Ok(done.waiting),
        None => not_begun(alloc, job, cut, stretch, goal),
    }
}

/// Returns the lowest unsettled class of all stretches.
fn lowest_waiting<A: Goal>(
    alloc: Global,
    job: &Job,
    cut: &Cut,
    goal: &A,
    table: Vec<Option<Done<A::Kept>>>,
) -> Result<Option<Waiting>, AllocError>
    requires cut { IsCutOf job.now cut.now.from cut.now.stretches cut.now.size
        cut.now.classes.items }
    requires count { vec_len table ≡ cut.now.stretches }
    requires lowest { AreAllLowest (task_of job.now cut.now.from (A.wants goal.now)
        (A.means goal.now))
        cut.now.size cut.now.classes.items table.items }
    ensures { IfOk result (IsLowest (WaitsIn (task_of job.now cut.now.from (A.wants goal.now)
        (A.means goal.now))
        (runs_from cut.now.from cut.now.size cut.now.classes.items 0 table.items))) }
{
    let mut lowest = None;
    let mut stretch = 0;
    for place in table {
        let waiting = waiting_in(alloc, job, cut, stretch, goal, place)?;
        lowest = lower_of(lowest, waiting);
        stretch += 1;
    }
    Ok(lowest)
}

/// The seats of workers and the results of each.
#[derive(Drop)]
struct Returned<K> {
    seats: Vec<Seat>,
    dones: Vec<Vec<Done<K>>>,
}

/// Separates the seats that came back from the results of their workers.
fn set_apart<K: Drop>(
    alloc: Global,
    back: Vec<Result<Served<K>, AllocError>>,
) -> Result<Returned<K>, AllocError>
    ensures { IfOk result (λ returned.
        AreApart back.items returned.seats.items returned.dones.items) }
{
    let mut seats = Vec::with_capacity(alloc, back.len())?;
    let mut dones = Vec::with_capacity(alloc, back.len())?;
    for one in back {
        let served = one?;
        seats.push(served.seat)?;
        dones.push(served.dones)?;
    }
    Ok(Returned { seats, dones })
}

/// A closed ledger of stretches, and the results of each of its workers.
#[derive(Drop)]
struct Handed<K> {
    ledger: Closed,
    dones: Vec<Vec<Done<K>>>,
}

/// Closes a ledger with the results of its workers.
fn close_over<K: Drop>(
    alloc: Global,
    ledger: SharedLedger,
    back: Vec<Result<Served<K>, AllocError>>,
) -> Result<Handed<K>, RunFault>
    requires some { 0 < length back.items }
    requires places { All (λ one. IfOk one (λ served. served.seat.place ≡ ledger)) back.items }
    ensures closed { IfOk result (λ handed. (seats : List Sitter)
        × AreApart back.items seats handed.dones.items
        × Closes ledger.shape seats handed.ledger) }
    ensures refused { IfErr result (λ fault. fault ≡ RunFault.Memory) }
{
    let returned = set_apart(alloc, back)?;
    let Returned { seats, dones } = returned;
    match ledger.close(alloc, seats) {
        Ok(ledger) => Ok(Handed { ledger, dones }),
        Err(LedgerFault::Memory) => Err(RunFault::Memory),
        Err(_) => unreachable!(),
    }
}

/// Makes a shared ledger of this number of stretches, and the seats of its workers. A job has no
/// more classes than a ledger may have pieces, so only memory can make it fail.
fn ledger_of(
    alloc: Global,
    stretches: u32,
    workers: u32,
) -> Result<(SharedLedger, Vec<Seat>), RunFault>
    requires workers { (0 < workers) × (workers ≤ 64) }
    requires few { stretches ≤ max_pieces }
    ensures ledger { IfOk result (λ made.
        made.0.shape ≡ shape_of_stretches stretches workers) }
    ensures seats { IfOk result (λ made. made.1.items ≡ newcomers made.0) }
    ensures refused { IfErr result (λ fault. fault ≡ RunFault.Memory) }
{
    match SharedLedger::new(alloc, stretches, BLOCK_SIZE, workers) {
        Ok(made) => Ok(made),
        Err(LedgerFault::Memory) => Err(RunFault::Memory),
        Err(_) => unreachable!(),
    }
}

/// Lets workers claim stretches at a shared ledger and simulate them. Returns the closed ledger and
/// the results of each worker.
fn hand_out_stretches<A: Goal + Sync, G: Gate + Sync, R: Threads + Wait>(
    rt: &R,
    alloc: Global,
    job: &Job,
    cut: &Cut,
    workers: u32,
    goal: &A,
    gate: &G,
) -> Result<Handed<A::Kept>, RunFault>
where
    A::Kept: Send,
    requires cut { IsCutOf job.now cut.now.from cut.now.stretches cut.now.size
        cut.now.classes.items }
    requires workers { (0 < workers) × (workers ≤ 64) }
    ensures shared { IfOk result (λ handed.
        let stretches = stretch_count cut.now.size cut.now.classes.items in
        AreShared (task_of job.now cut.now.from (A.wants goal.now) (A.means goal.now)) cut.now.size
        cut.now.classes.items (shape_of_stretches stretches (crew_of workers stretches))
        (G.passing gate.now) (G.stops gate.now) handed.dones.items handed.ledger) }
    ensures refused { IfErr result (λ fault.
        (fault ≡ RunFault.Memory) ⊎ (fault ≡ RunFault.Threads)) }
{
    let stretches = filled(job, cut);
    let crew = workers.min(stretches).max(1);
    let (ledger, seats) = ledger_of(alloc, stretches, crew)?;
    let back = serve_all(rt, alloc, job, cut, &ledger, goal, gate, seats)?;
    let handed = close_over(alloc, ledger, back)?;
    Ok(handed)
}

/// What is kept of classes that ran in stretches, and the closed ledger of these.
#[derive(Drop)]
struct Gathered<K> {
    kept: Vec<K>,
    ledger: Closed,
}

/// Runs all stretches, each by one worker. The closed ledger shows whether all classes are settled.
fn gather<A: Goal + Sync, G: Gate + Sync, R: Threads + Wait>(
    rt: &R,
    alloc: Global,
    job: &Job,
    cut: &Cut,
    workers: u32,
    goal: &A,
    gate: &G,
) -> Result<Gathered<A::Kept>, RunFault>
where
    A::Kept: Send,
    requires cut { IsCutOf job.now cut.now.from cut.now.stretches cut.now.size
        cut.now.classes.items }
    requires workers { (0 < workers) × (workers ≤ 64) }
    requires wanted { IsOpenAtFirst (task_of job.now cut.now.from (A.wants goal.now)
        (A.means goal.now)) }
    ensures kept { IfOk result (λ gathered. AreKept
        (task_of job.now cut.now.from (A.wants goal.now) (A.means goal.now)) cut.now.classes.items
        gathered.kept.items) }
    ensures stretches { IfOk result (λ gathered. AreByStretches
        (task_of job.now cut.now.from (A.wants goal.now) (A.means goal.now)) cut.now.size
        cut.now.classes.items workers gathered.kept.items gathered.ledger) }
    ensures refused { IfErr result (IsStretchesFault
        (task_of job.now cut.now.from (A.wants goal.now) (A.means goal.now)) cut.now.size
        cut.now.classes.items cut.now.stretches workers (G.passing gate.now) (G.stops gate.now)) }
{
    let _tests = job.tests();
    let handed = hand_out_stretches(rt, alloc, job, cut, workers, goal, gate)?;
    let Handed { ledger, dones } = handed;
    let table = table_of(alloc, cut.stretches, dones)?;
    match ledger.finished() {
        Finish::Finished => {
            let kept = joined(alloc, job, cut, goal, table)?;
            Ok(Gathered { kept, ledger })
        }
        Finish::Waiting {
            class: _stretch,
            block: _block,
        } => match lowest_waiting(alloc, job, cut, goal, table)? {
            Some(Waiting { class, block }) => Err(RunFault::Unfinished { class, block }),
            None => unreachable!(),
        },
    }
}

/// The run of a list of classes for a goal.
#[derive(Drop)]
pub(crate) struct ListRun<K> {
    /// The classes.
    pub(crate) classes: Vec<u32>,
    /// What the goal keeps of each.
    pub(crate) kept: Vec<K>,
    /// The closed ledger that handed out the stretches.
    pub(crate) ledger: Closed,
}

/// Runs a list of classes for a goal, on the blocks from one on and in a number of stretches, which
/// workers claim at a ledger that all share.
pub(crate) fn run_list_for<A: Goal + Sync, G: Gate + Sync, R: Threads + Wait>(
    rt: &R,
    alloc: Global,
    job: &Job,
    from: u32,
    classes: Vec<u32>,
    stretches: u32,
    workers: u32,
    goal: &A,
    gate: &G,
) -> Result<ListRun<A::Kept>, RunFault>
where
    A::Kept: Send,
    requires from { from ≤ blocks (length job.now.tests.tests) }
    requires some { 0 < stretches }
    requires few { length classes.items ≤ length job.now.classes.representative }
    requires within { All (λ class. class < length job.now.classes.representative)
        classes.items }
    requires workers { (0 < workers) × (workers ≤ 64) }
    requires wanted { IsOpenAtFirst (task_of job.now from (A.wants goal.now) (A.means goal.now)) }
    ensures classes { IfOk result (λ run. run.classes.items ≡ classes.items) }
    ensures kept { IfOk result (λ run. AreKept (task_of job.now from (A.wants goal.now)
        (A.means goal.now)) classes.items run.kept.items) }
    ensures stretches { IfOk result (λ run. AreByStretches (task_of job.now from
        (A.wants goal.now) (A.means goal.now)) (stretch_size (length classes.items) stretches)
        classes.items workers run.kept.items run.ledger) }
    ensures refused { IfErr result (IsStretchesFault (task_of job.now from (A.wants goal.now)
        (A.means goal.now)) (stretch_size (length classes.items) stretches) classes.items
        stretches workers (G.passing gate.now) (G.stops gate.now)) }
{
    let cut = Cut::new(job, from, classes, stretches);
    let gathered = gather(rt, alloc, job, &cut, workers, goal, gate)?;
    let Gathered { kept, ledger } = gathered;
    let Cut {
        from: _from,
        classes,
        stretches: _stretches,
        size: _size,
    } = cut;
    Ok(ListRun {
        classes,
        kept,
        ledger,
    })
}

/// Runs the classes of a list for a goal, by workers in a number of stretches that suits them
/// ([`stretches_for`]), as [`crate::run_goal`] runs all classes. Returns what the goal keeps of
/// each class, of all tests, in the order of the list. Adjacent classes of a region are simulated
/// together.
///
/// # Errors
///
/// The errors of [`crate::run_goal`]: the class of [`RunFault::Unfinished`] is the lowest unsettled
/// one of the list.
pub fn run_list<A: Goal + Sync, G: Gate + Sync, R: Threads + Wait>(
    rt: &R,
    alloc: Global,
    job: &Job,
    classes: &[u32],
    workers: u32,
    goal: &A,
    gate: &G,
) -> Result<Vec<A::Kept>, RunFault>
where
    A::Kept: Send,
    requires few { length classes.now ≤ length job.now.classes.representative }
    requires within { All (λ class. class < length job.now.classes.representative) classes.now }
    requires wanted { IsOpenAtFirst (task_of job.now 0 (A.wants goal.now) (A.means goal.now)) }
    ensures kept { IfOk result (λ kept. AreKept (task_of job.now 0 (A.wants goal.now)
        (A.means goal.now)) classes.now kept.items) }
    ensures workers { OnOk result ((0 < workers) × (workers ≤ 64)) }
    ensures ledger { IfOk result (λ kept. (ledger : ClosedFace) × AreFoundByLedger
        (task_of job.now 0 (A.wants goal.now) (A.means goal.now)) workers classes.now kept.items
        ledger) }
    ensures refused { IfErr result (IsListFault (task_of job.now 0 (A.wants goal.now)
        (A.means goal.now)) classes.now workers (G.passing gate.now) (G.stops gate.now)) }
{
    check_workers(workers)?;
    let own = Vec::from_slice(alloc, classes)?;
    let stretches = stretches_for(count_in(job, classes), workers);
    let done = run_list_for(rt, alloc, job, 0, own, stretches, workers, goal, gate)?;
    let ListRun {
        classes: _classes,
        kept,
        ledger: _ledger,
    } = done;
    Ok(kept)
}
