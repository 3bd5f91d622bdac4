//! The tests of a list that are the first to detect some fault.

ghost use Rattle.std.specs.Prelude.{◌≡◌, ℕ, ◌+◌, ◌<◌, ◌≤◌, ◌||◌, false, IfErr, IfOk, OnOk};
ghost use Rattle.std.specs.Prelude.{length, slice_index_or};
ghost use Rattle.compaction.specs.Compaction.{finds, is_first};
ghost use Rattle.compaction.specs.Marks.{AreFinding};
ghost use Rattle.region_runs.specs.Refused.{IsOpenFault};

use region_runs::{RunJob, Watch};
use std::alloc::{AllocError, Global};
use std::sync::Wait;
use std::thread::Threads;
use workers::{RunFault, Verdicts};

/// Returns for each test of a job whether it is the first to detect some fault. The run is one in
/// this number of stretches, under a gate that lets each piece pass.
pub(crate) fn finding_tests<G: Watch + Sync, R: Threads + Wait>(
    rt: &R,
    alloc: Global,
    run: &mut RunJob,
    stretches: u32,
    workers: u32,
    gate: &G,
) -> Result<Vec<bool>, RunFault>
    requires passing { G.passing gate.now }
    requires stretches { 0 < stretches }
    ensures marks { IfOk result (λ marks. AreFinding run.old.whole.list.model
        run.old.whole.circuit run.old.whole.tests.tests marks.items) }
    ensures workers { OnOk result ((0 < workers) × (workers ≤ 64)) }
    ensures refused { IfErr result (IsOpenFault workers) }
    ensures same { run.new ≡ run.old }
{
    let verdicts = run.run(rt, alloc, stretches, workers, gate)?;
    Ok(marks_of(alloc, &verdicts, run.tests().count())?)
}

/// Returns for each of the tests whether some fault has it as its first test.
fn marks_of(alloc: Global, verdicts: &Verdicts, tests: u32) -> Result<Vec<bool>, AllocError>
    ensures count { IfOk result (λ marks. length marks.items ≡ tests) }
    ensures each { IfOk result (λ marks. (t : ℕ) → t < tests
        → slice_index_or marks.items t false ≡ finds verdicts.now.firsts t) }
{
    let mut marks = vec![in alloc; false; tests as usize]?;
    for fault in 0..verdicts.total() {
        mark_test(&mut marks, verdicts.first(fault));
    }
    Ok(marks)
}

/// Marks the first or the last test of a fault, if it is one of these tests.
pub(crate) fn mark_test(marks: &mut [bool], test: Option<u32>)
    ensures count { length marks.new ≡ length marks.old }
    ensures each { (t : ℕ) → t < length marks.old → slice_index_or marks.new t false
        ≡ (slice_index_or marks.old t false || is_first t test) }
{
    let Some(test) = test else {
        return;
    };
    let place = test as usize;
    if place < marks.len() {
        marks[place] = true;
    }
}

/// Marks the test before each marked test too.
pub(crate) fn mark_before(marks: &mut [bool])
    ensures count { length marks.new ≡ length marks.old }
    ensures each { (t : ℕ) → t < length marks.old → slice_index_or marks.new t false
        ≡ (slice_index_or marks.old t false || slice_index_or marks.old (t + 1) false) }
{
    for place in 1..marks.len() {
        if marks[place] {
            marks[place - 1] = true;
        }
    }
}
