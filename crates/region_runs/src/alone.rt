//! The run of a list of classes in the thread of the caller.

ghost use Rattle.std.specs.Prelude.{◌≡◌, ◌<◌, ◌≤◌, All, IfOk, None, length};
ghost use Rattle.patterns.specs.Tests.{blocks};
ghost use Rattle.region_sim.specs.RegionHits.{ServesRegions};
ghost use Rattle.region_runs.specs.StretchRuns.{HasEnded};
ghost use Rattle.region_runs.specs.Tasks.{AreKept, task_of};

use crate::open_classes::all_open;
use crate::stretch_run::{Stop, run_list};
use crate::stretch_workers::starts;
use block_sim::Job;
use region_sim::class_order::rows_of;
use region_sim::{FirstUnit, Goal, RegionSimulation};
use std::alloc::{AllocError, Global};
use workers::{Gate, OpenGate};

/// Runs a list of classes for a goal on all tests of a job, in the thread of the caller, and
/// returns what the goal keeps of each class, at its place in the list. The list may have any
/// order, and name a class more than once. Adjacent classes of a region are simulated together. How
/// it takes the first 512 tests changes the time that it needs, and nothing else.
///
/// The simulation keeps its room from one run to the next, so a run takes time and memory for the
/// classes of its list alone.
///
/// # Errors
///
/// It fails only for memory.
pub fn run_alone<A: Goal>(
    alloc: Global,
    job: &Job,
    classes: &[u32],
    first_unit: FirstUnit,
    simulation: &mut RegionSimulation,
    goal: &A,
) -> Result<Vec<A::Kept>, AllocError>
    requires classes { All (λ class. class < length job.now.classes.representative) classes.now }
    requires serves { ServesRegions simulation.old job.now 0 }
    ensures kept { IfOk result (λ kept. AreKept (task_of job.now 0 (A.wants goal.now)
        (A.means goal.now)) classes.now kept.items) }
    ensures serves { ServesRegions simulation.new job.now 0 }
{
    let ended = run_from(
        alloc, job, 0, first_unit, classes, 0, simulation, goal, &OpenGate,
    )?;
    let Ended { kept, stop: _stop } = ended;
    Ok(kept)
}

/// The end of a worker's run of a list of classes.
#[derive(Drop)]
pub(crate) struct Ended<K> {
    /// What the goal keeps of each class, as far as the worker got.
    pub(crate) kept: Vec<K>,
    /// The point at which the gate stopped the worker, if it did.
    pub(crate) stop: Option<Stop>,
}

/// Lets a worker run a list of classes for a goal on every block from one on, until the gate stops
/// it.
pub(crate) fn run_from<A: Goal, G: Gate>(
    alloc: Global,
    job: &Job,
    from: u32,
    first_unit: FirstUnit,
    classes: &[u32],
    worker: u32,
    simulation: &mut RegionSimulation,
    goal: &A,
    gate: &G,
) -> Result<Ended<A::Kept>, AllocError>
    requires from { from ≤ blocks (length job.now.tests.tests) }
    requires classes { All (λ class. class < length job.now.classes.representative) classes.now }
    requires serves { ServesRegions simulation.old job.now 0 }
    ensures ended { IfOk result (λ ended. HasEnded (task_of job.now from (A.wants goal.now)
        (A.means goal.now)) classes.now worker (G.stops gate.now) ended.stop
        ended.kept.items) }
    ensures passing { IfOk result (λ ended. G.passing gate.now → ended.stop ≡ None) }
    ensures serves { ServesRegions simulation.new job.now 0 }
{
    simulation.make_room(classes.len())?;
    let rows = rows_of(alloc, job, classes)?;
    let mut kept = starts(alloc, goal, classes.len())?;
    let mut open = all_open(alloc, classes.len())?;
    let listed = rows.as_slice();
    let next = open.as_mut_slice();
    let found = kept.as_mut_slice();
    let stop = run_list(
        job, from, first_unit, listed, worker, simulation, goal, gate, next, found,
    );
    Ok(Ended { kept, stop })
}
