//! The two passes of a compaction.

ghost use Rattle.std.specs.Prelude.{◌≡◌, ◌<◌, ◌≤◌, IfErr, IfOk, OnOk, length};
ghost use Rattle.block_sim.specs.Parts.{BelongTogether, with_tests};
ghost use Rattle.compaction.specs.Compaction.{IsNumbered};
ghost use Rattle.compaction.specs.Marks.{AreLastOf, AreLastPairsOf};
ghost use Rattle.patterns.specs.Tests.{IsTestList};
ghost use Rattle.fault_model.specs.declared.Model.TheVariants as model;
ghost use Rattle.region_runs.specs.Refused.{IsOpenFault};

use crate::Kept;
use crate::finding::{finding_tests, mark_before};
use crate::lasting::lasting_tests;
use crate::rows::{all_numbers, kept_tests, reversed_tests};
use fault_model::Model;
use region_runs::{RunJob, Watch};
use std::alloc::Global;
use std::sync::Wait;
use std::thread::Threads;
use workers::RunFault;

/// Returns some tests of a job, in order, which detect each fault that a test of the job detects,
/// each with its number in the list.
///
/// The first pass keeps the tests that are the first to detect some fault. The second pass visits
/// these from the last to the first, and keeps each that still detects a new fault: reverse-order
/// fault simulation (Schulz, Trischler and Sarfert, SOCRATES: A Highly Efficient Automatic Test
/// Pattern Generation System, 1988). Under transition faults a test that a pass keeps also keeps
/// the test before it. Under [`Model::TransitionPairs`] only the capture test detects a fault, so
/// pairs are kept and left out whole.
///
/// A pass for first tests is a run in this number of stretches, and fails as [`RunJob::run`] does.
/// Under transition faults the second pass takes the tests from the last on, some at a turn.
pub(crate) fn compact_as_listed<G: Watch + Sync, R: Threads + Wait>(
    rt: &R,
    alloc: Global,
    run: &mut RunJob,
    stretches: u32,
    workers: u32,
    gate: &G,
) -> Result<Kept, RunFault>
    requires passing { G.passing gate.now }
    requires stretches { 0 < stretches }
    ensures compacted { IfOk result (λ kept. IsNumbered run.old.whole.list.model
        run.old.whole.circuit run.old.whole.tests.tests kept.tests.tests kept.numbers.items) }
    ensures list { IfOk result (λ kept. IsTestList kept.tests) }
    ensures width { IfOk result (λ kept. kept.tests.width ≡ run.old.whole.tests.width) }
    ensures job { run.new.whole ≡ with_tests run.old.whole run.new.whole.tests }
    ensures workers { OnOk result ((0 < workers) × (workers ≤ 64)) }
    ensures refused { IfErr result (IsOpenFault workers) }
{
    let mut found = finding_tests(rt, alloc, run, stretches, workers, gate)?;
    let numbers = all_numbers(alloc, run.tests().count())?;
    match run.job().faults().model() {
        Model::StuckAt => {
            let kept = kept_tests(alloc, run.tests(), &numbers, &found)?;
            last_tests(rt, alloc, run, &kept, stretches, workers, gate)
        }
        Model::Transition | Model::TransitionPairs => {
            mark_before(&mut found);
            let kept = kept_tests(alloc, run.tests(), &numbers, &found)?;
            last_pairs(rt, alloc, run, kept, workers, gate)
        }
    }
}

/// Returns the tests that detect a fault which no later one detects: the first ones for some fault
/// in the reversed list.
fn last_tests<G: Watch + Sync, R: Threads + Wait>(
    rt: &R,
    alloc: Global,
    run: &mut RunJob,
    given: &Kept,
    stretches: u32,
    workers: u32,
    gate: &G,
) -> Result<Kept, RunFault>
    requires passing { G.passing gate.now }
    requires job { BelongTogether run.old.whole }
    requires model { run.old.whole.list.model ≡ model.StuckAt }
    requires width { given.now.tests.width ≡ run.old.whole.tests.width }
    requires few { length given.now.tests.tests ≤ length run.old.whole.tests.tests }
    requires numbers { length given.now.numbers.items ≡ length given.now.tests.tests }
    requires stretches { 0 < stretches }
    requires workers { (0 < workers) × (workers ≤ 64) }
    ensures last { IfOk result (λ kept. AreLastOf run.old.whole.circuit given.now.tests.tests
        kept.tests.tests given.now.numbers.items kept.numbers.items) }
    ensures list { IfOk result (λ kept. IsTestList kept.tests) }
    ensures width { IfOk result (λ kept. kept.tests.width ≡ run.old.whole.tests.width) }
    ensures job { run.new.whole ≡ with_tests run.old.whole run.new.whole.tests }
    ensures refused { IfErr result (IsOpenFault workers) }
{
    let reversed = reversed_tests(alloc, &given.tests)?;
    run.set_tests(rt, alloc, reversed, workers)?;
    let mut found = finding_tests(rt, alloc, run, stretches, workers, gate)?;
    found.reverse();
    Ok(kept_tests(alloc, &given.tests, &given.numbers, &found)?)
}

/// Returns the tests that detect a fault which no later one detects, each with the test before it.
fn last_pairs<G: Watch + Sync, R: Threads + Wait>(
    rt: &R,
    alloc: Global,
    run: &mut RunJob,
    given: Kept,
    workers: u32,
    gate: &G,
) -> Result<Kept, RunFault>
    requires job { BelongTogether run.old.whole }
    requires list { IsTestList given.tests }
    requires width { given.tests.width ≡ run.old.whole.tests.width }
    requires numbers { length given.numbers.items ≡ length given.tests.tests }
    requires workers { (0 < workers) × (workers ≤ 64) }
    ensures last { IfOk result (λ kept. AreLastPairsOf run.old.whole.list.model
        run.old.whole.circuit given.tests.tests kept.tests.tests given.numbers.items
        kept.numbers.items) }
    ensures list { IfOk result (λ kept. IsTestList kept.tests) }
    ensures width { IfOk result (λ kept. kept.tests.width ≡ run.old.whole.tests.width) }
    ensures job { run.new.whole ≡ with_tests run.old.whole run.new.whole.tests }
    ensures refused { IfErr result (IsOpenFault workers) }
{
    let Kept { tests, numbers } = given;
    let mut last = lasting_tests(rt, alloc, run, &tests, workers, gate)?;
    mark_before(&mut last);
    Ok(kept_tests(alloc, &tests, &numbers, &last)?)
}
