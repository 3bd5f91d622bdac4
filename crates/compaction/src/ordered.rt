//! Kept tests in another order than their list.

ghost use Rattle.std.specs.Prelude.{◌≡◌, ◌≢◌, ◌<◌, ◌≤◌, [], All, IfErr, IfOk, OnOk};
ghost use Rattle.std.specs.Prelude.{length};
ghost use Rattle.block_sim.specs.Parts.{BelongTogether, with_tests};
ghost use Rattle.compaction.specs.Steepest.{IsOrdered, IsSteepestCompaction, at_places};
ghost use Rattle.compaction.specs.Steepest.{with_launches};
ghost use Rattle.fault_model.specs.declared.Model.TheVariants as model;
ghost use Rattle.patterns.specs.Tests.{IsTestList};
ghost use Rattle.region_runs.specs.Refused.{IsOpenFault};

use crate::detections::Detections;
use crate::passes::compact_as_listed;
use crate::rows::push_test;
use crate::steepest::steepest_order;
use crate::{Kept, TestOrder};
use fault_model::Model;
use patterns::Tests;
use region_runs::{RunJob, Watch};
use std::alloc::{AllocError, Global};
use std::sync::Wait;
use std::thread::Threads;
use workers::RunFault;

/// Compacts a job's tests: returns some of them, in an order, which detect each fault that a test
/// of the job detects, each with its number in the list.
///
/// The order of the list is that of two passes, for the first tests that detect some fault and for
/// the last ones of these. Under transition faults a test that a pass keeps also keeps the test
/// before it.
///
/// Steepest order leaves out a test that detects no class anew. Under [`Model::TransitionPairs`]
/// the pairs are in this order. Under [`Model::Transition`] a test makes a pair with the test
/// before it, so the tests stay in the order of the list. It takes 16 bytes for each class and 128
/// of the kept tests.
///
/// Each pass is a run in this number of stretches, and window by window if its tests have more
/// blocks than a window ([`region_runs::window_blocks`]). Under transition faults the second pass
/// takes the tests from the last on, some at a turn, in stretches that suit the workers. The gate
/// observes each pass, and lets each piece pass. The job keeps its circuit, its faults and its
/// classes; its tests are others afterwards.
///
/// # Errors
///
/// The errors of [`RunJob::run`].
pub fn compact<G: Watch + Sync, R: Threads + Wait>(
    rt: &R,
    alloc: Global,
    run: &mut RunJob,
    order: TestOrder,
    stretches: u32,
    workers: u32,
    gate: &G,
) -> Result<Kept, RunFault>
    requires passing { G.passing gate.now }
    requires stretches { 0 < stretches }
    ensures ordered { IfOk result (λ kept. IsOrdered order run.old.whole.list.model
        run.old.whole.circuit run.old.whole.tests.tests kept.tests.tests kept.numbers.items) }
    ensures list { IfOk result (λ kept. IsTestList kept.tests) }
    ensures width { IfOk result (λ kept. kept.tests.width ≡ run.old.whole.tests.width) }
    ensures job { run.new.whole ≡ with_tests run.old.whole run.new.whole.tests }
    ensures workers { OnOk result ((0 < workers) × (workers ≤ 64)) }
    ensures refused { IfErr result (IsOpenFault workers) }
{
    let _tests = run.tests();
    match order {
        TestOrder::AsListed => compact_as_listed(rt, alloc, run, stretches, workers, gate),
        TestOrder::Steepest => match run.job().faults().model() {
            Model::Transition => compact_as_listed(rt, alloc, run, stretches, workers, gate),
            Model::StuckAt | Model::TransitionPairs => {
                compact_steepest(rt, alloc, run, stretches, workers, gate)
            }
        },
    }
}

/// Returns the tests that [`compact_as_listed`] keeps, in steepest order.
fn compact_steepest<G: Watch + Sync, R: Threads + Wait>(
    rt: &R,
    alloc: Global,
    run: &mut RunJob,
    stretches: u32,
    workers: u32,
    gate: &G,
) -> Result<Kept, RunFault>
    requires passing { G.passing gate.now }
    requires job { BelongTogether run.old.whole }
    requires stretches { 0 < stretches }
    requires model { run.old.whole.list.model ≢ model.Transition }
    ensures compacted { IfOk result (λ kept. IsSteepestCompaction run.old.whole.list.model
        run.old.whole.circuit run.old.whole.tests.tests kept.tests.tests kept.numbers.items) }
    ensures list { IfOk result (λ kept. IsTestList kept.tests) }
    ensures width { IfOk result (λ kept. kept.tests.width ≡ run.old.whole.tests.width) }
    ensures job { run.new.whole ≡ with_tests run.old.whole run.new.whole.tests }
    ensures workers { OnOk result ((0 < workers) × (workers ≤ 64)) }
    ensures refused { IfErr result (IsOpenFault workers) }
{
    let Kept { tests, numbers } = compact_as_listed(rt, alloc, run, stretches, workers, gate)?;
    run.set_own_tests(rt, alloc, tests, workers)?;
    let job = run.job();
    let detections = Detections::new(rt, alloc, job, stretches, workers, gate)?;
    let order = steepest_order(alloc, &detections)?;
    let places = places_of(alloc, job.faults().model(), &order)?;
    Ok(kept_at(alloc, job.tests(), &numbers, &places)?)
}

/// Returns the places of the tests of an order; in a list of pairs each follows its launch test.
fn places_of(alloc: Global, model: Model, order: &[u32]) -> Result<Vec<u32>, AllocError>
    ensures { IfOk result (λ places. places.items ≡ with_launches model order.now) }
{
    match model {
        Model::StuckAt | Model::Transition => Vec::from_slice(alloc, order),
        Model::TransitionPairs => pairs_of(alloc, order),
    }
}

/// Returns each test of an order after the test before it in the list.
fn pairs_of(alloc: Global, order: &[u32]) -> Result<Vec<u32>, AllocError>
    ensures { IfOk result (λ places. places.items
        ≡ with_launches model.TransitionPairs order.now) }
{
    let mut places = Vec::new(alloc);
    for test in order {
        places.push(test.saturating_sub(1))?;
        places.push(*test)?;
    }
    Ok(places)
}

/// Returns the tests of a list at some places, each with its number.
fn kept_at(
    alloc: Global,
    tests: &Tests,
    numbers: &[u32],
    places: &[u32],
) -> Result<Kept, AllocError>
    requires places { All (λ place. place < length tests.now.tests) places.now }
    requires few { length places.now ≤ length tests.now.tests }
    requires numbers { length numbers.now ≡ length tests.now.tests }
    ensures rows { IfOk result (λ kept.
        kept.tests.tests ≡ at_places [] tests.now.tests places.now) }
    ensures numbers { IfOk result (λ kept.
        kept.numbers.items ≡ at_places 0 numbers.now places.now) }
    ensures list { IfOk result (λ kept. IsTestList kept.tests) }
    ensures width { IfOk result (λ kept. kept.tests.width ≡ tests.now.width) }
{
    let numbers = numbers_at(alloc, numbers, places)?;
    let tests = tests_at(alloc, tests, places)?;
    Ok(Kept { tests, numbers })
}

/// Returns the numbers at some places.
fn numbers_at(alloc: Global, numbers: &[u32], places: &[u32]) -> Result<Vec<u32>, AllocError>
    requires { All (λ place. place < length numbers.now) places.now }
    ensures { IfOk result (λ at. at.items ≡ at_places 0 numbers.now places.now) }
{
    let mut at = Vec::with_capacity(alloc, places.len())?;
    for place in places {
        at.push(numbers[*place as usize])?;
    }
    Ok(at)
}

/// Returns the tests of a list at some places.
fn tests_at(alloc: Global, tests: &Tests, places: &[u32]) -> Result<Tests, AllocError>
    requires places { All (λ place. place < length tests.now.tests) places.now }
    requires few { length places.now ≤ length tests.now.tests }
    ensures rows { IfOk result (λ at. at.tests ≡ at_places [] tests.now.tests places.now) }
    ensures list { IfOk result (λ at. IsTestList at) }
    ensures width { IfOk result (λ at. at.width ≡ tests.now.width) }
{
    let mut at = Tests::new(alloc, tests.width());
    for place in places {
        push_test(alloc, tests, *place, &mut at)?;
    }
    Ok(at)
}
