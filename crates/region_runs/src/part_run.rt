//! Runs over one part of the classes.

ghost use Rattle.std.specs.Prelude.{◌≡◌, ◌<◌, ◌≤◌, IfErr, IfOk, OnOk, true};
ghost use Rattle.region_runs.specs.Part.{ArePartVerdicts};
ghost use Rattle.region_runs.specs.Refused.{IsPartFault};
ghost use Rattle.region_runs.specs.RunJobs.{IsPartByLedgers};

use crate::class_order::{count_in, part_classes};
use crate::parts::{PartVerdict, by_class, of_faults};
use crate::run_job::RunJob;
use crate::stretches::stretches_for;
use region_sim::FirstTest;
use std::alloc::Global;
use std::sync::Wait;
use std::thread::Threads;
use workers::{Gate, RunFault, check_workers};

/// Runs the classes of a part, counted from 0, of this number of parts, in a number of stretches
/// that suits the workers. Returns for each fault of the uncollapsed list the first test that
/// detects it, or none, if its class is in the part. Any other fault is in another part. If the
/// tests stand apart, it runs window by window, under a gate that lets each piece pass.
///
/// # Errors
///
/// The errors of [`crate::run_goal`]: the class of [`RunFault::Unfinished`] is the lowest unsettled
/// one of the part.
pub fn run_part<G: Gate + Sync, R: Threads + Wait>(
    rt: &R,
    alloc: Global,
    run: &mut RunJob,
    part: u32,
    parts: u32,
    workers: u32,
    gate: &G,
) -> Result<Vec<PartVerdict>, RunFault>
    requires gate { run.old.apart ≡ true → G.passing gate.now }
    requires part { part < parts }
    ensures verdicts { IfOk result (λ verdicts.
        ArePartVerdicts run.old.whole parts part verdicts.items) }
    ensures workers { OnOk result ((0 < workers) × (workers ≤ 64)) }
    ensures ledgers { IfOk result (λ verdicts.
        IsPartByLedgers run.old.whole parts part workers verdicts.items) }
    ensures refused { IfErr result (IsPartFault run.old.whole parts part workers
        (G.passing gate.now) (G.stops gate.now)) }
    ensures kept { run.new ≡ run.old }
{
    check_workers(workers)?;
    let _tests = run.tests();
    let own = part_classes(alloc, run.job(), part, parts)?;
    let few = count_in(run.job(), own.as_slice());
    let stretches = stretches_for(few, workers);
    let found = run.run_list(rt, alloc, own, stretches, workers, &FirstTest, gate)?;
    let job = run.job();
    let count = job.classes().count();
    let table = by_class(
        alloc,
        count,
        found.classes.as_slice(),
        found.kept.as_slice(),
    )?;
    let verdicts = of_faults(alloc, job, table.as_slice())?;
    Ok(verdicts)
}
