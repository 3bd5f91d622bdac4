//! Counts of the tests that detect each fault.

ghost use Rattle.std.specs.Prelude.{◌≡◌, ◌<◌, ◌≤◌, IfErr, IfOk, OnOk, length};
ghost use Rattle.region_runs.specs.Refused.{IsOpenFault};
ghost use Rattle.n_detect.specs.Detections.{AreCounts, AreCountsAt, IsClassCount};

use crate::count::{Count, ones_of};
use region_runs::{RunJob, Watch};
use region_sim::FirstTest;
use std::alloc::{AllocError, Global};
use std::sync::Wait;
use std::thread::Threads;
use workers::RunFault;

/// Counts, for each fault of the uncollapsed list of a job, the tests that detect it. The count
/// ends at `most`, so more tests may detect a fault with `most`. Counts up to 1 take a run for
/// first tests, which leaves out the lanes behind the first test of a class.
///
/// A transition fault is counted at the capture test of each pair that detects it. The classes run
/// in stretches, which workers claim, each in a thread of its own ([`RunJob::run_goal`]); the
/// counts are the same for every number of stretches and of workers. Beside the rooms of the
/// workers it takes a few numbers for each class and fault.
///
/// # Errors
///
/// [`RunFault::NoWorkers`]; [`RunFault::TooManyWorkers`] above 64 workers; [`RunFault::Memory`] or
/// [`RunFault::Threads`] if memory runs out or a thread doesn't start.
pub fn detections<G: Watch + Sync, R: Threads + Wait>(
    rt: &R,
    alloc: Global,
    run: &mut RunJob,
    most: u32,
    stretches: u32,
    workers: u32,
    gate: &G,
) -> Result<Vec<u32>, RunFault>
    requires passing { G.passing gate.now }
    requires stretches { 0 < stretches }
    ensures counts { IfOk result (λ counts. AreCounts run.old.whole.list.model
        run.old.whole.circuit run.old.whole.tests.tests most counts.items) }
    ensures workers { OnOk result ((0 < workers) × (workers ≤ 64)) }
    ensures refused { IfErr result (IsOpenFault workers) }
    ensures same { run.new ≡ run.old }
{
    let _tests = run.tests();
    if most < 2 {
        let done = run.run_goal(rt, alloc, stretches, workers, &FirstTest, gate)?;
        let ones = ones_of(alloc, done.kept.as_slice(), most)?;
        let positions = done.positions.as_slice();
        let counts = by_fault(alloc, run, most, positions, ones.as_slice())?;
        return Ok(counts);
    }
    let done = run.run_goal(rt, alloc, stretches, workers, &Count { most }, gate)?;
    let positions = done.positions.as_slice();
    let counts = by_fault(alloc, run, most, positions, done.kept.as_slice())?;
    Ok(counts)
}

/// Returns the count of each fault, which is the count of its class. Each class has its count at
/// its position.
fn by_fault(
    alloc: Global,
    run: &RunJob,
    most: u32,
    positions: &[u32],
    kept: &[u32],
) -> Result<Vec<u32>, AllocError>
    requires { AreCountsAt run.now.whole most positions.now kept.now }
    ensures { IfOk result (λ counts. AreCounts run.now.whole.list.model run.now.whole.circuit
        run.now.whole.tests.tests most counts.items) }
{
    let _tests = run.tests();
    let job = run.job();
    let count = job.faults().count();
    let mut counts = Vec::with_capacity(alloc, count as usize)?;
    for fault in 0..count {
        let class = job.classes().class_of(fault);
        counts.push(count_of(run, most, positions, kept, class))?;
    }
    Ok(counts)
}

/// Returns the count of a class.
fn count_of(run: &RunJob, most: u32, positions: &[u32], kept: &[u32], class: u32) -> u32
    requires class { class < length run.now.whole.classes.representative }
    requires counted { AreCountsAt run.now.whole most positions.now kept.now }
    ensures { IsClassCount run.now.whole most class result }
{
    let (_run, _most) = (run, most);
    kept[positions[class as usize] as usize]
}
