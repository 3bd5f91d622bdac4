//! Runs of all classes for a goal.

ghost use Rattle.std.specs.Prelude.{◌≡◌, ◌<◌, ◌≤◌, IfErr, IfOk, OnOk, length};
ghost use Rattle.counting_sort.specs.SortedPlaces.{ArePositions};
ghost use Rattle.fault_ledger.specs.Seats.{ClosedFace};
ghost use Rattle.region_sim.specs.ClassOrder.{AreAllByRegion};
ghost use Rattle.region_runs.specs.Part.{stretch_size};
ghost use Rattle.region_runs.specs.Refused.{IsGoalFault};
ghost use Rattle.region_runs.specs.Stretches.{AreByStretches};
ghost use Rattle.region_runs.specs.Tasks.{AreKept, IsOpenAtFirst, task_of};

use crate::list_run::{ListRun, run_list_for};
use block_sim::Job;
use region_sim::Goal;
use region_sim::class_order::{ClassOrder, class_order};
use std::alloc::Global;
use std::sync::Wait;
use std::thread::Threads;
use workers::{Gate, RunFault, check_workers};

/// What a goal keeps of all classes of a job.
#[derive(Drop)]
pub struct GoalRun<K> {
    /// The classes, region by region, in the order of the visits.
    pub classes: Vec<u32>,
    /// For each class, by its number, its position in this order.
    pub positions: Vec<u32>,
    /// At each position, what the goal keeps of the class there, of all tests.
    pub kept: Vec<K>,
}

/// Runs all classes of a job for a goal, by workers numbered from 0, in threads of their own.
///
/// The classes, region by region in the order of the visits, are cut into this number of stretches
/// of one size, so that the data that a worker reads for one region are near to the data for the
/// next; the last stretches have fewer classes, or none. A worker claims a stretch at a ledger that
/// all share, which has a piece for each stretch with a class. It simulates the stretch by itself,
/// block after block, reports it, and goes on to the next. A class is skipped as soon as more tests
/// can't change what the goal keeps of it. What is kept is the same for every number of stretches
/// and of workers, in whatever order the workers run. The classes and blocks have no limit here. A
/// single worker runs in the thread of the caller.
///
/// # Errors
///
/// [`RunFault::NoWorkers`]; [`RunFault::TooManyWorkers`] above 64 workers. [`RunFault::Memory`] or
/// [`RunFault::Threads`] if memory runs out or a thread doesn't start, after the started threads
/// are joined.
///
/// A worker that the gate stops ends, and if it stops all of them, some stretches may never begin.
/// If not all classes are settled, the error is [`RunFault::Unfinished`]. It names the lowest
/// unsettled class, by the job's number, and the block that it waits for. A class is settled once
/// more tests can't change what the goal keeps of it.
pub fn run_goal<A: Goal + Sync, G: Gate + Sync, R: Threads + Wait>(
    rt: &R,
    alloc: Global,
    job: &Job,
    stretches: u32,
    workers: u32,
    goal: &A,
    gate: &G,
) -> Result<GoalRun<A::Kept>, RunFault>
where
    A::Kept: Send,
    requires stretches { 0 < stretches }
    requires wanted { IsOpenAtFirst (task_of job.now 0 (A.wants goal.now) (A.means goal.now)) }
    ensures classes { IfOk result (λ run. AreAllByRegion job.now run.classes.items) }
    ensures positions { IfOk result (λ run.
        ArePositions run.classes.items run.positions.items) }
    ensures count { IfOk result (λ run.
        length run.positions.items ≡ length job.now.classes.representative) }
    ensures kept { IfOk result (λ run. AreKept (task_of job.now 0 (A.wants goal.now)
        (A.means goal.now)) run.classes.items run.kept.items) }
    ensures workers { OnOk result ((0 < workers) × (workers ≤ 64)) }
    ensures stretches { IfOk result (λ run. (ledger : ClosedFace) × AreByStretches
        (task_of job.now 0 (A.wants goal.now) (A.means goal.now))
        (stretch_size (length run.classes.items) stretches) run.classes.items workers run.kept.items
        ledger) }
    ensures refused { IfErr result (IsGoalFault (task_of job.now 0 (A.wants goal.now)
        (A.means goal.now)) stretches workers (G.passing gate.now) (G.stops gate.now)) }
{
    check_workers(workers)?;
    let order = class_order(alloc, job)?;
    let ClassOrder { classes, positions } = order;
    let done = run_list_for(rt, alloc, job, 0, classes, stretches, workers, goal, gate)?;
    let ListRun {
        classes,
        kept,
        ledger: _ledger,
    } = done;
    Ok(GoalRun {
        classes,
        positions,
        kept,
    })
}
