//! The tests of a list that are the last to detect some fault.

ghost use Rattle.std.specs.Prelude.{◌≡◌, ◌⊎◌, ◌+◌, ◌*◌, ◌<◌, ◌≤◌, ℕ, IfErr, IfOk, Some, length};
ghost use Rattle.std.specs.Prelude.{false, slice_index_or, true};
ghost use Rattle.bench_net.specs.Scan.{sources};
ghost use Rattle.block_sim.specs.Parts.{BelongTogether, with_tests};
ghost use Rattle.patterns.specs.Tests.{IsTestList};
ghost use Rattle.region_runs.specs.Refused.{IsOpenFault};
ghost use Rattle.compaction.specs.LastHits.{IsLastHit};
ghost use Rattle.compaction.specs.LastHitLaws.{always_wanted, last_unchanged};
ghost use Rattle.compaction.specs.Marks.{AreLasting};
ghost use Rattle.compaction.specs.Turns.{AreLastFrom, AreLeftOpen, HaveMarked, IsNextEnd};

use crate::rows::tests_between;
use patterns::{BLOCK_SIZE, Tests};
use region_runs::{RunJob, Watch, run_list};
use region_sim::class_order::{ClassOrder, class_order};
use region_sim::{FirstUnit, Goal};
use std::alloc::{AllocError, Global};
use std::sync::Wait;
use std::thread::Threads;
use workers::{OpenGate, RunFault};

/// The number of tests of the first turn: most classes that some test detects have their last test
/// among the last 64.
const FIRST_TURN: u32 = 64;

/// The number of tests of each later turn, which are simulated at once.
const LATER_TURN: u32 = 512;

/// Returns for each test of a list whether it is the last to detect some fault of a job.
///
/// It takes the tests from the last on, some at a turn, and leaves out a class that a test of a
/// turn detects: the last one of the turn is its last test. A turn ends with the first test of the
/// turn before, because a transition fault looks back at the test before.
///
/// The workers run each turn in a number of stretches that suits them. The gate learns when the
/// first turn and each later one begins, and when the last one ends. The job has other tests
/// afterwards.
pub(crate) fn lasting_tests<G: Watch + Sync, R: Threads + Wait>(
    rt: &R,
    alloc: Global,
    run: &mut RunJob,
    tests: &Tests,
    workers: u32,
    gate: &G,
) -> Result<Vec<bool>, RunFault>
    requires job { BelongTogether run.old.whole }
    requires list { IsTestList tests.now }
    requires width { tests.now.width ≡ run.old.whole.tests.width }
    requires workers { (0 < workers) × (workers ≤ 64) }
    ensures marks { IfOk result (λ marks. AreLasting run.old.whole.list.model
        run.old.whole.circuit tests.now.tests marks.items) }
    ensures job { run.new.whole ≡ with_tests run.old.whole run.new.whole.tests }
    ensures refused { IfErr result (IsOpenFault workers) }
{
    let order = class_order(alloc, run.job())?;
    let ClassOrder {
        classes: mut open,
        positions: _positions,
    } = order;
    let mut marks = vec![in alloc; false; tests.count() as usize]?;
    let mut end = tests.count();
    let mut size = FIRST_TURN;
    gate.starts(run.job().classes().count(), tests.blocks());
    while end > 0 && !open.is_empty() {
        let done = (tests.count() - end) / BLOCK_SIZE;
        gate.opens(done, done);
        let start = start_of(end, size);
        let listed = open.as_slice();
        let left = take_turn(
            rt, alloc, run, tests, start, end, listed, &mut marks, workers,
        )?;
        open = left;
        end = next_end(start);
        size = LATER_TURN;
    }
    gate.ends();
    Ok(marks)
}

/// Returns the first test of a turn of about this number of tests before another one. Its number is
/// even, so that the pairs of a list of pairs stay together.
fn start_of(end: u32, size: u32) -> u32
    ensures even { (half : ℕ) × (result ≡ 2 * half) }
    ensures low { result ≤ end }
    ensures far { 0 < result → result + size ≤ end }
{
    end.saturating_sub(size) / 2 * 2
}

/// Returns the end of the turn after one that begins with this test: after the test, or 0 if the
/// turn has test 0.
fn next_end(start: u32) -> u32
    requires { start < 4294967295 }
    ensures { IsNextEnd start result }
{
    if start == 0 { 0 } else { start + 1 }
}

/// Takes the tests of a list from one up to another, and marks those of them that are the last test
/// of a class. Returns the classes that none of them detects.
fn take_turn<R: Threads + Wait>(
    rt: &R,
    alloc: Global,
    run: &mut RunJob,
    tests: &Tests,
    start: u32,
    end: u32,
    classes: &[u32],
    marks: &mut [bool],
    workers: u32,
) -> Result<Vec<u32>, RunFault>
    requires width { tests.now.width ≡ length (sources run.old.whole.circuit) }
    requires even { (half : ℕ) × (start ≡ 2 * half) }
    requires order { start ≤ end }
    requires within { end ≤ length tests.now.tests }
    requires workers { (0 < workers) × (workers ≤ 64) }
    requires last { AreLastFrom (with_tests run.old.whole tests.now) end classes.now marks.old }
    ensures last { IfOk result (λ left. (next : ℕ) → IsNextEnd start next
        → AreLastFrom (with_tests run.old.whole tests.now) next left.items marks.new) }
    ensures count { length marks.new ≡ length marks.old }
    ensures job { run.new.whole ≡ with_tests run.old.whole run.new.whole.tests }
    ensures refused { IfErr result (IsOpenFault workers) }
{
    let _tests = run.tests();
    let some = tests_between(alloc, tests, start, end)?;
    run.set_own_tests(rt, alloc, some, workers)?;
    let found = run_list(rt, alloc, run.job(), classes, workers, &LastTest, &OpenGate)?;
    mark_from(marks, start, found.as_slice());
    let left = left_open(alloc, classes, found.as_slice())?;
    Ok(left)
}

/// Marks the last test of each class that has one. They are numbered from this test on.
fn mark_from(marks: &mut [bool], start: u32, lasts: &[Option<u32>])
    ensures { HaveMarked start lasts.now (length lasts.now) marks.old marks.new }
{
    for last in lasts {
        mark_at(marks, start, *last);
    }
}

/// Marks a test that is numbered from another one on.
fn mark_at(marks: &mut [bool], start: u32, last: Option<u32>)
    ensures count { length marks.new ≡ length marks.old }
    ensures marked { (t : ℕ) → slice_index_or marks.new t false ≡ true
        → (slice_index_or marks.old t false ≡ true)
        ⊎ ((k : ℕ) × (last ≡ Some k) × (t ≡ start + k)) }
    ensures kept { (t : ℕ) → slice_index_or marks.old t false ≡ true
        → slice_index_or marks.new t false ≡ true }
    ensures all { (k : ℕ) → last ≡ Some k → start + k < length marks.old
        → slice_index_or marks.new (start + k) false ≡ true }
{
    let Some(test) = last else {
        return;
    };
    let place = start as usize + test as usize;
    if place < marks.len() {
        marks[place] = true;
    }
}

/// Returns the classes of a list that have no last test.
fn left_open(alloc: Global, classes: &[u32], lasts: &[Option<u32>]) -> Result<Vec<u32>, AllocError>
    requires { length lasts.now ≡ length classes.now }
    ensures { IfOk result (λ left.
        AreLeftOpen classes.now lasts.now (length classes.now) left.items) }
{
    let mut left = Vec::new(alloc);
    for place in 0..classes.len() {
        if lasts[place].is_none() {
            left.push(classes[place])?;
        }
    }
    Ok(left)
}

/// The last test that detects a class, counted from 0, or none, as the goal of a simulation.
#[derive(Clone, Copy)]
struct LastTest;

impl Goal for LastTest {
    ghost use Rattle.std.specs.Prelude.{refl, true};
    ghost use Rattle.compaction.specs.LastHits.{IsLastHit};
    ghost use Rattle.compaction.specs.LastHitLaws.{always_wanted, last_unchanged};

    type Kept = Option<u32>;

    ghost ALL_LANES = { true };

    const ALL_LANES: bool = true;

    ghost wants = { λ _ _. true };

    ghost means = { λ _ hits low high kept. IsLastHit hits low high kept };

    ghost stays = { λ _ kept hits low high more wanted le was. always_wanted wanted };

    ghost agrees = { λ _ one other hits low high a b. refl };

    ghost unchanged = { λ _ kept hits low high more. last_unchanged kept hits low high more };

    fn first_unit(&self) -> FirstUnit {
        FirstUnit::AtOnce
    }

    fn start(&self, _alloc: Global) -> Result<Option<u32>, AllocError> {
        Ok(None)
    }

    #[inline(always)]
    fn is_open(&self, _kept: &Option<u32>) -> bool {
        true
    }

    #[inline(always)]
    fn take(&self, kept: &mut Option<u32>, group: u32, lanes: u128) {
        match lanes.checked_ilog2() {
            Some(lane) => *kept = Some(128 * group + lane),
            None => {}
        }
    }
}
