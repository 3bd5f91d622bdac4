//! The run of one worker by itself over a list of classes, without a ledger.

ghost use Rattle.std.specs.Prelude.{◌≡◌, ◌<◌, ◌≤◌, ◌+◌, ℕ, All, None, Some};
ghost use Rattle.std.specs.Prelude.{length, slice_get};
ghost use Rattle.patterns.specs.Tests.{blocks};
ghost use Rattle.block_sim.specs.Listed.{IsListed};
ghost use Rattle.flat_circuit.specs.BlockSpans.{one_block};
ghost use Rattle.region_sim.specs.ClassOrder.{classes_of};
ghost use Rattle.region_sim.specs.Goals.{HasTakenAt, IsSweep};
ghost use Rattle.region_sim.specs.OpenPlaces.{AreNextOpen, AreSuccessors};
ghost use Rattle.region_sim.specs.RegionHits.{ServesRegions};
ghost use Rattle.region_runs.specs.BlockSweeps.{AreAllNotStopped, AreDeadFrom, AreNotStopped};
ghost use Rattle.region_runs.specs.BlockSweeps.{IsStoppedAt};
ghost use Rattle.region_runs.specs.StretchRuns.{AreEarlier, AreKeptUpTo, HasEnded, IsLowerOf};
ghost use Rattle.region_runs.specs.StretchRuns.{IsLowest, IsOpenIn};
ghost use Rattle.region_runs.specs.Tasks.{task_of};

use crate::open_classes::{follow_all, leave_out, next_open};
use block_sim::block_span::BlockSpan;
use block_sim::{Job, ListedClass};
use region_sim::{FirstUnit, Goal, RegionSimulation, sweep_from};
use workers::Gate;

/// The point at which its gate stopped a worker that goes over a list: before the class at this
/// place of the list, counted from 0, on this block.
#[derive(Clone, Copy, Debug, PartialEq, Eq)]
pub(crate) struct Stop {
    pub(crate) place: usize,
    pub(crate) block: u32,
}

/// A class that isn't settled, and the block that it waits for.
#[derive(Clone, Copy, Debug, PartialEq, Eq)]
pub(crate) struct Waiting {
    pub(crate) class: u32,
    pub(crate) block: u32,
}

/// Simulates the classes of a list on every block from one on, one block after another, until the
/// gate stops the worker. It skips a class that more tests can't change. If the gate lets every
/// piece pass, it leaves out the dead classes at the end of the list.
pub(crate) fn run_list<A: Goal, G: Gate>(
    job: &Job,
    from: u32,
    first_unit: FirstUnit,
    rows: &[ListedClass],
    worker: u32,
    simulation: &mut RegionSimulation,
    goal: &A,
    gate: &G,
    next: &mut [usize],
    kept: &mut [A::Kept],
) -> Option<Stop>
    requires from { from ≤ blocks (length job.now.tests.tests) }
    requires rows { All (IsListed job.now) rows.now }
    requires serves { ServesRegions simulation.old job.now (length rows.now) }
    requires none { AreKeptUpTo (task_of job.now from (A.wants goal.now) (A.means goal.now))
        (classes_of rows.now) 0 from kept.old }
    requires next { AreSuccessors next.old }
    requires places { length next.old ≡ length rows.now }
    ensures ended { HasEnded (task_of job.now from (A.wants goal.now) (A.means goal.now))
        (classes_of rows.now) worker (G.stops gate.now) result kept.new }
    ensures passing { G.passing gate.now → result ≡ None }
    ensures serves { ServesRegions simulation.new job.now 0 }
{
    if !gate.lets_all_pass() {
        return run_rows(
            job, from, first_unit, rows, worker, simulation, goal, gate, next, kept,
        );
    }
    let blocks = job.tests().blocks();
    let (live, dead) = rows.split_at(live_end(job, rows));
    let (open, _dead) = next.split_at_mut(live.len());
    let (found, _dead) = kept.split_at_mut(live.len());
    let stop = run_rows(
        job, from, first_unit, live, worker, simulation, goal, gate, open, found,
    );
    ask_dead(dead, worker, from, blocks, gate);
    stop
}

/// Returns the place after the last class of a list that isn't dead.
fn live_end(job: &Job, rows: &[ListedClass]) -> usize
    requires { All (IsListed job.now) rows.now }
    ensures within { result ≤ length rows.now }
    ensures dead { AreDeadFrom job.now rows.now result }
{
    let mut end = rows.len();
    while end > 0 && job.is_dead(row_at(rows, end - 1)) {
        end -= 1;
    }
    end
}

/// Asks the gate, which lets every piece pass, for the dead classes of a list on the blocks from
/// one up to another, which is not included. A gate that draws the progress takes them for a
/// stretch of their own.
fn ask_dead<G: Gate>(rows: &[ListedClass], worker: u32, from: u32, blocks: u32, gate: &G)
    requires { G.passing gate.now }
    ensures { (block : ℕ) → from ≤ block → block < blocks
        → AreAllNotStopped rows.now worker (G.stops gate.now) block (length rows.now) }
{
    for block in from..blocks {
        ask_rows(rows, worker, block, gate);
    }
}

/// Asks the gate, which lets every piece pass, for the classes of a list on a block.
#[inline(always)]
fn ask_rows<G: Gate>(rows: &[ListedClass], worker: u32, block: u32, gate: &G)
    requires { G.passing gate.now }
    ensures { AreAllNotStopped rows.now worker (G.stops gate.now) block (length rows.now) }
{
    for row in rows {
        gate.pass(worker, row.class, block);
    }
}

/// Simulates the classes of a list on every block, as [`run_list`] does, but leaves out no dead
/// class. The gate is asked for all open classes on the blocks that are simulated at once, and then
/// these are simulated. A gate that may stop the worker gets one block at a time.
fn run_rows<A: Goal, G: Gate>(
    job: &Job,
    from: u32,
    first_unit: FirstUnit,
    rows: &[ListedClass],
    worker: u32,
    simulation: &mut RegionSimulation,
    goal: &A,
    gate: &G,
    next: &mut [usize],
    kept: &mut [A::Kept],
) -> Option<Stop>
    requires from { from ≤ blocks (length job.now.tests.tests) }
    requires rows { All (IsListed job.now) rows.now }
    requires serves { ServesRegions simulation.old job.now (length rows.now) }
    requires none { AreKeptUpTo (task_of job.now from (A.wants goal.now) (A.means goal.now))
        (classes_of rows.now) 0 from kept.old }
    requires next { AreSuccessors next.old }
    requires places { length next.old ≡ length rows.now }
    ensures ended { HasEnded (task_of job.now from (A.wants goal.now) (A.means goal.now))
        (classes_of rows.now) worker (G.stops gate.now) result kept.new }
    ensures passing { G.passing gate.now → result ≡ None }
    ensures serves { ServesRegions simulation.new job.now 0 }
{
    let mut block = from;
    while block < job.tests().blocks() {
        let span = span_from(job, block, first_unit, gate);
        let place = ask_open(rows, worker, block, goal, gate, next, kept);
        if place < rows.len() {
            simulate_before(job, block, rows, place, simulation, goal, next, kept);
            return Some(Stop { place, block });
        }
        ask_rest(rows, worker, span, goal, gate, next, kept);
        simulation.simulate(job, span, rows, next, goal, kept);
        block = span.last + 1;
    }
    None
}

/// Returns the blocks that are simulated at once from a block on: this block alone if the gate may
/// stop the worker.
fn span_from<G: Gate>(job: &Job, block: u32, first_unit: FirstUnit, gate: &G) -> BlockSpan
    requires { block < blocks (length job.now.tests.tests) }
    ensures sweep { IsSweep (length job.now.tests.tests) result }
    ensures first { result.first ≡ block }
    ensures ordered { block ≤ result.last }
    ensures within { result.last < blocks (length job.now.tests.tests) }
    ensures passing { block < result.last → G.passing gate.now }
{
    if gate.lets_all_pass() {
        return sweep_from(job, block, first_unit);
    }
    BlockSpan {
        first: block,
        last: block,
    }
}

/// Takes the classes that more tests can't change out of a list, and asks the gate for all others
/// on a block. Returns the place at which the gate stopped the worker, or the end of the list.
fn ask_open<A: Goal, G: Gate>(
    rows: &[ListedClass],
    worker: u32,
    block: u32,
    goal: &A,
    gate: &G,
    next: &mut [usize],
    kept: &[A::Kept],
) -> usize
    requires kept { length kept.now ≡ length rows.now }
    requires next { AreNextOpen (A.wants goal.now) kept.now next.old }
    ensures within { result ≤ length rows.now }
    ensures next { AreNextOpen (A.wants goal.now) kept.now next.new }
    ensures asked { AreNotStopped (A.wants goal.now) rows.now kept.now worker (G.stops gate.now)
        block result }
    ensures stopped { result < length rows.now
        → IsStoppedAt (A.wants goal.now) rows.now kept.now worker (G.stops gate.now) block
        result }
    ensures passing { G.passing gate.now → result ≡ length rows.now }
{
    let mut before = 0;
    let mut place = 0;
    while place < rows.len() {
        if !goal.is_open(&kept[place]) {
            place = leave_out(next, before, place);
            continue;
        }
        if !gate.pass(worker, row_at(rows, place).class, block) {
            return place;
        }
        before = place;
        place = next_open(next, before);
    }
    rows.len()
}

/// Simulates the classes of a list before a place on a block alone.
fn simulate_before<A: Goal>(
    job: &Job,
    block: u32,
    rows: &[ListedClass],
    place: usize,
    simulation: &mut RegionSimulation,
    goal: &A,
    next: &mut [usize],
    kept: &mut [A::Kept],
)
    requires rows { All (IsListed job.now) rows.now }
    requires block { block < blocks (length job.now.tests.tests) }
    requires place { place ≤ length rows.now }
    requires serves { ServesRegions simulation.old job.now (length rows.now) }
    requires kept { length kept.old ≡ length rows.now }
    requires next { length next.old ≡ length rows.now }
    ensures taken { (k : ℕ) (row : ListedClass) → k < place → slice_get rows.now k ≡ Some row
        → HasTakenAt (A.means goal.now) job.now (one_block block) row kept.old kept.new k }
    ensures others { (k : ℕ) → place ≤ k → slice_get kept.new k ≡ slice_get kept.old k }
    ensures places { length kept.new ≡ length kept.old }
    ensures serves { ServesRegions simulation.new job.now 0 }
{
    let (asked, _rest) = rows.split_at(place);
    let (own, _rest) = next.split_at_mut(place);
    follow_all(own);
    let (found, _rest) = kept.split_at_mut(place);
    let span = BlockSpan {
        first: block,
        last: block,
    };
    simulation.simulate(job, span, asked, own, goal, found);
}

/// Asks the gate, which lets every piece pass if there are more blocks than one, for the open
/// classes of a list on the later blocks of a span. It asks block after block, as a gate that draws
/// the progress expects.
fn ask_rest<A: Goal, G: Gate>(
    rows: &[ListedClass],
    worker: u32,
    span: BlockSpan,
    goal: &A,
    gate: &G,
    next: &[usize],
    kept: &[A::Kept],
)
    requires passing { span.first < span.last → G.passing gate.now }
    requires ordered { span.first ≤ span.last }
    requires last { span.last < 1024 }
    requires kept { length kept.now ≡ length rows.now }
    requires next { AreNextOpen (A.wants goal.now) kept.now next.now }
    ensures { (block : ℕ) → span.first < block → block ≤ span.last
        → AreNotStopped (A.wants goal.now) rows.now kept.now worker (G.stops gate.now) block
        (length rows.now) }
{
    for block in span.first + 1..span.last + 1 {
        ask_block(rows, worker, block, goal, gate, next, kept);
    }
}

/// Asks the gate, which lets every piece pass, for the open classes of a list on a block.
#[inline(always)]
fn ask_block<A: Goal, G: Gate>(
    rows: &[ListedClass],
    worker: u32,
    block: u32,
    goal: &A,
    gate: &G,
    next: &[usize],
    kept: &[A::Kept],
)
    requires passing { G.passing gate.now }
    requires kept { length kept.now ≡ length rows.now }
    requires next { AreNextOpen (A.wants goal.now) kept.now next.now }
    ensures { AreNotStopped (A.wants goal.now) rows.now kept.now worker (G.stops gate.now) block
        (length rows.now) }
{
    let (_goal, _kept) = (goal, kept);
    let mut place = 0;
    while place < rows.len() {
        gate.pass(worker, row_at(rows, place).class, block);
        place = next_open(next, place);
    }
}

/// Returns the class at a place of a list, with the start of its simulation.
fn row_at(rows: &[ListedClass], place: usize) -> ListedClass
    requires { place < length rows.now }
    ensures { slice_get rows.now place ≡ Some result }
{
    rows[place]
}

/// Returns the lowest class of a list that wasn't settled when the worker was stopped, and the
/// block that it waits for.
pub(crate) fn lowest_open<A: Goal>(
    job: &Job,
    classes: &[u32],
    from: u32,
    stop: Stop,
    goal: &A,
    kept: &[A::Kept],
) -> Option<Waiting>
    requires classes { All (λ class. class < length job.now.classes.representative) classes.now }
    requires found { AreKeptUpTo (task_of job.now from (A.wants goal.now) (A.means goal.now))
        classes.now stop.place stop.block kept.now }
    requires block { stop.block < blocks (length job.now.tests.tests) }
    ensures { IsLowest (IsOpenIn (task_of job.now from (A.wants goal.now) (A.means goal.now))
        classes.now (Some stop)) result }
{
    let _from = from;
    let blocks = job.tests().blocks();
    let mut lowest = None;
    for place in 0..classes.len() {
        let class = class_at(classes, place);
        let block = done_before(stop, place);
        if !goal.is_open(&kept[place]) {
            continue;
        }
        if block >= blocks {
            continue;
        }
        lowest = lower_of(lowest, Some(Waiting { class, block }));
    }
    lowest
}

/// Returns the class at a place of a list.
fn class_at(classes: &[u32], place: usize) -> u32
    requires { place < length classes.now }
    ensures { slice_get classes.now place ≡ Some result }
{
    classes[place]
}

/// Returns the number of first blocks of the class at a place that were done when the worker was
/// stopped.
fn done_before(stop: Stop, place: usize) -> u32
    requires { stop.block < 1024 }
    ensures { AreEarlier stop.place stop.block place result }
{
    if place < stop.place {
        stop.block + 1
    } else {
        stop.block
    }
}

/// Returns the waiting class with the lower number.
pub(crate) fn lower_of(first: Option<Waiting>, second: Option<Waiting>) -> Option<Waiting>
    ensures { IsLowerOf first second result }
{
    match (first, second) {
        (Some(one), Some(other)) if other.class < one.class => second,
        (None, _) => second,
        (Some(_), _) => first,
    }
}
