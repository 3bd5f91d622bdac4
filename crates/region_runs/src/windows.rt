//! Runs over a long list of tests, window by window.
//!
//! The fault-free words of all tests take 16 bytes for each signal and 128 tests. A run in windows
//! has only those of some blocks at a time: it runs all classes on the blocks of the first window,
//! then those that no test detects yet on the next, and so on.

ghost use Rattle.std.specs.Prelude.{◌≡◌, ◌⊎◌, ◌<◌, ◌≤◌, ◌+◌, ◌*◌, ◌-◌, ◌^◌, All, IfErr, IfOk};
ghost use Rattle.std.specs.Prelude.{[], IsTrue, OnOk, ⊤, ℕ, length, min};
ghost use Rattle.bench_net.specs.Scan.{sources};
ghost use Rattle.patterns.specs.Tests.{IsTestList, TestList, blocks};
ghost use Rattle.block_sim.specs.Parts.{BelongTogether, with_tests};
ghost use Rattle.counting_sort.specs.SortedPlaces.{ArePositions, AreSortedPlaces};
ghost use Rattle.fault_ledger.specs.Seats.{ClosedFace};
ghost use Rattle.region_sim.specs.ClassOrder.{AreAllByRegion};
ghost use Rattle.region_runs.specs.Refused.{IsOpenFault};
ghost use Rattle.region_runs.specs.Tasks.{AreKept, IsOpenAtFirst, task_of};
ghost use Rattle.region_runs.specs.WindowLedgers.{AreFoundByLedger, AreOfWindows};
ghost use Rattle.region_runs.specs.Windows.{AreKeptBelow, AreWordsFrom, GoesOnFrom, IsWindowOf};

use crate::class_order::count_in;
use crate::goal_run::GoalRun;
use crate::list_run::{ListRun, run_list_for};
use crate::stretch_workers::starts;
use crate::stretches::stretches_for;
use crate::window_goal::{WindowGoal, join_window, open_classes};
use block_sim::Job;
use counting_sort::{SortedPlaces, sorted_places};
use patterns::{BLOCK_SIZE, Tests, WordsFault};
use region_sim::class_order::{ClassOrder, class_order, visits_of};
use std::alloc::{AllocError, Global};
use std::sync::Wait;
use std::thread;
use std::thread::Threads;
use workers::{Gate, RunFault, check_workers};

/// The most memory for the fault-free words of a window, in bytes: 256 MB.
const MOST_BYTES: u32 = 1 << 28;

/// The most groups of two blocks in a window. A window reuses the pages of the one before it. A run
/// of 16,384 tests has one window.
const MOST_GROUPS: u32 = 160;

/// Returns the number of blocks that a window goes on by, for this number of signals: as many as
/// [`MOST_BYTES`] have words for, and those of [`MOST_GROUPS`] at most, less the block before. It
/// is odd, so that the blocks of a window with the block before are whole groups of two.
pub fn window_blocks(signals: u32) -> u32
    ensures some { 0 < result }
    ensures few { result ≤ 319 }
    ensures fit { (result ≡ 1) ⊎ (8 * signals * (result + 1) ≤ 2 ^ 28) }
{
    let groups = MOST_BYTES / 16 / signals.max(1);
    2 * groups.clamp(1, MOST_GROUPS) - 1
}

/// The blocks of a window.
#[derive(Clone, Copy, Debug, PartialEq, Eq)]
pub(crate) struct Window {
    /// The block with which it begins: the one before its first, if there is one.
    pub(crate) from: u32,
    /// The first block that no window before has.
    pub(crate) first: u32,
    /// The block after its last.
    pub(crate) end: u32,
}

impl Window {
    /// Returns the window of a number, counted from 0, if windows go on by `step` blocks.
    pub(crate) fn new(number: u32, step: u32, blocks: u32) -> Window
        requires step { (0 < step) × (step ≤ 2047) }
        requires few { blocks ≤ 1024 }
        requires within { number * step < blocks }
        ensures window { GoesOnFrom blocks (number * step) result }
        ensures end { result.end ≡ min (number * step + step) blocks }
    {
        let first = number * step;
        Window {
            from: first.saturating_sub(1),
            first,
            end: (first + step).min(blocks),
        }
    }
}

/// Adds the words of a block of tests, one a source.
fn add_block(words: Vec<u64>, tests: &Tests, block: u32) -> Result<Vec<u64>, AllocError>
    requires { block < blocks (length tests.now.tests) }
    ensures { (from count : ℕ) → AreWordsFrom tests.now from count words.items
        → block ≡ from + count
        → IfOk result (λ more. AreWordsFrom tests.now from (count + 1) more.items) }
{
    let mut words = words;
    for source in 0..tests.width() {
        words.push(tests.word(block, source))?;
    }
    Ok(words)
}

/// Returns the tests of a window.
fn tests_of(alloc: Global, tests: &Tests, window: Window) -> Result<Tests, RunFault>
    requires list { IsTestList tests.now }
    requires window { (first : ℕ) × GoesOnFrom (blocks (length tests.now.tests)) first window }
    ensures tests { IfOk result (λ some.
        IsWindowOf tests.now.tests (64 * window.from) (64 * window.end) some.tests) }
    ensures list { IfOk result (λ some. IsTestList some) }
    ensures width { IfOk result (λ some. some.width ≡ tests.now.width) }
    ensures refused { IfErr result (λ fault. fault ≡ RunFault.Memory) }
{
    let blocks = window.end.saturating_sub(window.from) as usize;
    let mut words = Vec::with_capacity(alloc, blocks.saturating_mul(tests.width() as usize))?;
    for block in window.from..window.end {
        words = add_block(words, tests, block)?;
    }
    made_of(alloc, tests, window, words.as_slice())
}

/// Makes the tests of a window of the words of its blocks.
fn made_of(alloc: Global, tests: &Tests, window: Window, words: &[u64]) -> Result<Tests, RunFault>
    requires list { IsTestList tests.now }
    requires window { (first : ℕ) × GoesOnFrom (blocks (length tests.now.tests)) first window }
    requires words { AreWordsFrom tests.now window.from (window.end - window.from) words.now }
    ensures tests { IfOk result (λ some.
        IsWindowOf tests.now.tests (64 * window.from) (64 * window.end) some.tests) }
    ensures list { IfOk result (λ some. IsTestList some) }
    ensures width { IfOk result (λ some. some.width ≡ tests.now.width) }
    ensures refused { IfErr result (λ fault. fault ≡ RunFault.Memory) }
{
    let before = BLOCK_SIZE * window.from;
    let count = tests.count().min(BLOCK_SIZE * window.end) - before;
    match Tests::from_words(alloc, tests.width(), count, words) {
        Ok(some) => Ok(some),
        Err(WordsFault::Memory) => Err(RunFault::Memory),
        // The words are those of tests, so they fit.
        Err(_) => unreachable!(),
    }
}

/// A gate as a run on a window asks it: with the numbers of blocks of the whole list.
#[derive(Drop)]
struct Shifted<'g, G> {
    gate: &'g G,
    /// The block with which the window begins.
    from: u32,
}

impl<G: Gate> Gate for Shifted<'_, G> {
    ghost passing = { λ s. G.passing s.gate.now };

    ghost stops = { λ s. record {
      may = λ worker class block. ⊤;
      must = λ worker class block. ⊥;
    } };

    fn pass(&self, worker: u32, class: u32, block: u32) -> bool {
        self.gate
            .pass(worker, class, block.saturating_add(self.from))
    }

    fn lets_all_pass(&self) -> bool {
        self.gate.lets_all_pass()
    }
}

/// Runs classes on the tests of a job from a block on, in a number of stretches that suits the
/// workers. Returns what a goal keeps of each.
fn run_open_classes<A: WindowGoal + Sync, G: Gate + Sync, R: Threads + Wait>(
    rt: &R,
    alloc: Global,
    job: &Job,
    from: u32,
    classes: Vec<u32>,
    workers: u32,
    goal: &A,
    gate: &G,
) -> Result<Vec<A::Kept>, RunFault>
where
    A::Kept: Send,
    requires passing { G.passing gate.now }
    requires wanted { IsOpenAtFirst (task_of job.now from (A.wants goal.now) (A.means goal.now)) }
    requires from { from ≤ blocks (length job.now.tests.tests) }
    requires workers { (0 < workers) × (workers ≤ 64) }
    requires few { length classes.items ≤ length job.now.classes.representative }
    requires within { All (λ class. class < length job.now.classes.representative)
        classes.items }
    ensures kept { IfOk result (λ kept. AreKept (task_of job.now from (A.wants goal.now)
        (A.means goal.now)) classes.items kept.items) }
    ensures ledger { IfOk result (λ kept. (ledger : ClosedFace) × AreFoundByLedger
        (task_of job.now from (A.wants goal.now) (A.means goal.now)) workers classes.items
        kept.items ledger) }
    ensures refused { IfErr result (λ fault.
        (fault ≡ RunFault.Memory) ⊎ (fault ≡ RunFault.Threads)) }
    ensures together { BelongTogether job.now }
{
    let stretches = stretches_for(count_in(job, classes.as_slice()), workers);
    let done = run_list_for(
        rt, alloc, job, from, classes, stretches, workers, goal, gate,
    )?;
    let ListRun {
        classes: _classes,
        kept,
        ledger: _ledger,
    } = done;
    Ok(kept)
}

/// Gives a job no tests, so that its fault-free words take no memory.
pub(crate) fn forget_tests(alloc: Global, job: &mut Job) -> Result<(), AllocError>
    ensures none { OnOk result (job.new.tests.tests ≡ []) }
    ensures kept { job.new ≡ with_tests job.old job.new.tests }
{
    drop(job.give_tests(alloc)?);
    Ok(())
}

/// Gives a job the tests of a window. It forgets those of the window before first, and the
/// fault-free words of the window take the memory of those before.
pub(crate) fn take_window<R: Threads + Wait>(
    rt: &R,
    alloc: Global,
    job: &mut Job,
    tests: &Tests,
    window: Window,
    workers: u32,
) -> Result<(), RunFault>
    requires list { IsTestList tests.now }
    requires width { tests.now.width ≡ length (sources job.old.circuit) }
    requires window { (first : ℕ) × GoesOnFrom (blocks (length tests.now.tests)) first window }
    ensures tests { OnOk result (IsWindowOf tests.now.tests (64 * window.from)
        (64 * window.end) job.new.tests.tests) }
    ensures refused { IfErr result (λ fault. fault ≡ RunFault.Memory) }
    ensures kept { job.new ≡ with_tests job.old job.new.tests }
{
    let spare = job.give_words(alloc)?;
    let some = tests_of(alloc, tests, window)?;
    job.set_tests_over(rt, alloc, some, spare, workers)?;
    Ok(())
}

/// Gives a job the tests of a window as [`take_window`] does, unless it is ready: it has them.
fn have_window<R: Threads + Wait>(
    rt: &R,
    alloc: Global,
    job: &mut Job,
    tests: &Tests,
    window: Window,
    ready: bool,
    workers: u32,
) -> Result<(), RunFault>
    requires list { IsTestList tests.now }
    requires width { tests.now.width ≡ length (sources job.old.circuit) }
    requires window { (first : ℕ) × GoesOnFrom (blocks (length tests.now.tests)) first window }
    requires ready { IsTrue ready → IsWindowOf tests.now.tests (64 * window.from)
        (64 * window.end) job.old.tests.tests }
    ensures tests { OnOk result (IsWindowOf tests.now.tests (64 * window.from)
        (64 * window.end) job.new.tests.tests) }
    ensures refused { IfErr result (λ fault. fault ≡ RunFault.Memory) }
    ensures kept { job.new ≡ with_tests job.old job.new.tests }
{
    if ready {
        return Ok(());
    }
    take_window(rt, alloc, job, tests, window, workers)
}

/// Returns all classes of a job in order, as [`class_order`] does, and whether it has the tests of
/// the first window now: with a second worker a thread sorts the classes while the job takes them.
fn classes_and_window<R: Threads + Wait>(
    rt: &R,
    alloc: Global,
    job: &mut Job,
    tests: &Tests,
    step: u32,
    workers: u32,
) -> Result<(ClassOrder, bool), RunFault>
    requires list { IsTestList tests.now }
    requires width { tests.now.width ≡ length (sources job.old.circuit) }
    requires step { (0 < step) × (step ≤ 2047) }
    ensures classes { IfOk result (λ r. AreAllByRegion job.old r.0.classes.items) }
    ensures positions { IfOk result (λ r. ArePositions r.0.classes.items r.0.positions.items) }
    ensures count { IfOk result (λ r.
        length r.0.positions.items ≡ length job.old.classes.representative) }
    ensures ready { IfOk result (λ r. IsTrue r.1 → IsWindowOf tests.now.tests 0
        (64 * min step (blocks (length tests.now.tests))) job.new.tests.tests) }
    ensures refused { IfErr result (λ fault. fault ≡ RunFault.Memory) }
    ensures kept { job.new ≡ with_tests job.old job.new.tests }
{
    let blocks = tests.blocks();
    if workers < 2 || blocks == 0 {
        return Ok((class_order(alloc, job)?, false));
    }
    let visits = visits_of(alloc, job)?;
    let signals = job.circuit().signals();
    let window = Window::new(0, step, blocks);
    let (sorted, taken) = sort_and_take(rt, alloc, &visits, signals, job, tests, window, workers);
    taken?;
    let SortedPlaces { places, positions } = sorted?;
    let order = ClassOrder {
        classes: places,
        positions,
    };
    Ok((order, true))
}

/// Sorts keys below a bound while a job takes the tests of a window.
fn sort_and_take<R: Threads + Wait>(
    rt: &R,
    alloc: Global,
    keys: &[u32],
    bound: u32,
    job: &mut Job,
    tests: &Tests,
    window: Window,
    workers: u32,
) -> (Result<SortedPlaces, AllocError>, Result<(), RunFault>)
    requires keys { All (λ key. key < bound) keys.now }
    requires few { length keys.now < 2 ^ 32 }
    requires list { IsTestList tests.now }
    requires width { tests.now.width ≡ length (sources job.old.circuit) }
    requires window { (first : ℕ) × GoesOnFrom (blocks (length tests.now.tests)) first window }
    ensures sorted { IfOk result.0 (λ sorted. AreSortedPlaces keys.now sorted.places.items) }
    ensures positions { IfOk result.0 (λ sorted.
        ArePositions sorted.places.items sorted.positions.items) }
    ensures count { IfOk result.0 (λ sorted. length sorted.positions.items ≡ length keys.now) }
    ensures tests { OnOk result.1 (IsWindowOf tests.now.tests (64 * window.from)
        (64 * window.end) job.new.tests.tests) }
    ensures refused { IfErr result.1 (λ fault. fault ≡ RunFault.Memory) }
    ensures kept { job.new ≡ with_tests job.old job.new.tests }
{
    let mut sort = move || sorted_places(alloc, keys, bound);
    let mut take = move || take_window(rt, alloc, job, tests, window, workers);
    thread::join_mut(rt, &mut sort, &mut take)
}

/// Runs the classes of a list that more tests can change on a window, whose tests the job has if it
/// is ready. Returns what a goal keeps of all of them after it. The job has the tests of the window
/// then.
fn run_window<A: WindowGoal + Sync, G: Gate + Sync, R: Threads + Wait>(
    rt: &R,
    alloc: Global,
    job: &mut Job,
    tests: &Tests,
    window: Window,
    classes: &[u32],
    kept: Vec<A::Kept>,
    ready: bool,
    workers: u32,
    goal: &A,
    gate: &G,
) -> Result<Vec<A::Kept>, RunFault>
where
    A::Kept: Send,
    requires passing { G.passing gate.now }
    requires wanted { IsOpenAtFirst (task_of job.old 0 (A.wants goal.now) (A.means goal.now)) }
    requires list { IsTestList tests.now }
    requires ready { IsTrue ready → IsWindowOf tests.now.tests (64 * window.from)
        (64 * window.end) job.old.tests.tests }
    requires width { tests.now.width ≡ length (sources job.old.circuit) }
    requires workers { (0 < workers) × (workers ≤ 64) }
    requires few { length classes.now ≤ length job.old.classes.representative }
    requires within { All (λ class. class < length job.old.classes.representative) classes.now }
    requires window { GoesOnFrom (blocks (length tests.now.tests)) window.first window }
    requires kept { AreKeptBelow (task_of (with_tests job.old tests.now) 0 (A.wants goal.now)
        (A.means goal.now)) (64 * window.first) classes.now kept.items }
    ensures kept { IfOk result (λ next. AreKeptBelow (task_of (with_tests job.old tests.now) 0
        (A.wants goal.now) (A.means goal.now)) (64 * window.end) classes.now next.items) }
    ensures ledgers { AreOfWindows (task_of (with_tests job.old tests.now) 0 (A.wants goal.now)
        (A.means goal.now)) workers classes.now window.first kept.items
        → IfOk result (λ next. AreOfWindows (task_of (with_tests job.old tests.now) 0
        (A.wants goal.now) (A.means goal.now)) workers classes.now window.end next.items) }
    ensures refused { IfErr result (λ fault.
        (fault ≡ RunFault.Memory) ⊎ (fault ≡ RunFault.Threads)) }
    ensures job { (some : TestList) × (job.new ≡ with_tests job.old some) }
{
    let left = open_classes(alloc, goal, classes, kept.as_slice())?;
    if left.is_empty() {
        return Ok(kept);
    }
    have_window(rt, alloc, job, tests, window, ready, workers)?;
    gate.opens(window.first, window.end);
    let shifted = Shifted {
        gate,
        from: window.from,
    };
    let from = window.first - window.from;
    let found = run_open_classes(rt, alloc, job, from, left, workers, goal, &shifted)?;
    let start = BLOCK_SIZE * window.from;
    let mut kept = kept;
    join_window(goal, kept.as_mut_slice(), found.as_slice(), start);
    Ok(kept)
}

/// Runs classes on a list of tests, window by window. Returns what a goal keeps of each.
pub(crate) fn run_windows<A: WindowGoal + Sync, G: Gate + Sync, R: Threads + Wait>(
    rt: &R,
    alloc: Global,
    job: &mut Job,
    tests: &Tests,
    step: u32,
    classes: &[u32],
    ready: bool,
    workers: u32,
    goal: &A,
    gate: &G,
) -> Result<Vec<A::Kept>, RunFault>
where
    A::Kept: Send,
    requires passing { G.passing gate.now }
    requires wanted { IsOpenAtFirst (task_of job.old 0 (A.wants goal.now) (A.means goal.now)) }
    requires list { IsTestList tests.now }
    requires width { tests.now.width ≡ length (sources job.old.circuit) }
    requires step { (0 < step) × (step ≤ 2047) }
    requires ready { IsTrue ready → IsWindowOf tests.now.tests 0
        (64 * min step (blocks (length tests.now.tests))) job.old.tests.tests }
    requires workers { (0 < workers) × (workers ≤ 64) }
    requires few { length classes.now ≤ length job.old.classes.representative }
    requires within { All (λ class. class < length job.old.classes.representative) classes.now }
    ensures kept { IfOk result (λ kept. AreKept (task_of (with_tests job.old tests.now) 0
        (A.wants goal.now) (A.means goal.now)) classes.now kept.items) }
    ensures ledgers { IfOk result (λ kept. AreOfWindows (task_of (with_tests job.old tests.now) 0
        (A.wants goal.now) (A.means goal.now)) workers classes.now
        (blocks (length tests.now.tests)) kept.items) }
    ensures none { OnOk result (job.new.tests.tests ≡ []) }
    ensures refused { IfErr result (λ fault.
        (fault ≡ RunFault.Memory) ⊎ (fault ≡ RunFault.Threads)) }
    ensures job { (some : TestList) × (job.new ≡ with_tests job.old some) }
{
    let blocks = tests.blocks();
    let mut kept = starts(alloc, goal, classes.len())?;
    for number in 0..blocks.div_ceil(step) {
        let window = Window::new(number, step, blocks);
        let ready = ready && number == 0;
        kept = run_window(
            rt, alloc, job, tests, window, classes, kept, ready, workers, goal, gate,
        )?;
    }
    forget_tests(alloc, job)?;
    Ok(kept)
}

/// Runs all classes of a job for a goal on a list of tests that is not its own, window by window:
/// on this number of blocks at a time ([`window_blocks`] suits), with the fault-free words of these
/// and of the block before. The workers run the open classes of each window in a number of
/// stretches that suits them. The job has no tests then, so that no fault-free words take memory.
///
/// # Errors
///
/// [`RunFault::NoWorkers`]; [`RunFault::TooManyWorkers`] above 64 workers; [`RunFault::Memory`] or
/// [`RunFault::Threads`] if memory runs out or a thread doesn't start. The job then has its own
/// tests, those of some window, or none.
pub(crate) fn run_goal_in_windows<A: WindowGoal + Sync, G: Gate + Sync, R: Threads + Wait>(
    rt: &R,
    alloc: Global,
    job: &mut Job,
    tests: &Tests,
    step: u32,
    workers: u32,
    goal: &A,
    gate: &G,
) -> Result<GoalRun<A::Kept>, RunFault>
where
    A::Kept: Send,
    requires passing { G.passing gate.now }
    requires wanted { IsOpenAtFirst (task_of job.old 0 (A.wants goal.now) (A.means goal.now)) }
    requires list { IsTestList tests.now }
    requires width { tests.now.width ≡ length (sources job.old.circuit) }
    requires step { (0 < step) × (step ≤ 2047) }
    ensures classes { IfOk result (λ run. AreAllByRegion job.old run.classes.items) }
    ensures positions { IfOk result (λ run.
        ArePositions run.classes.items run.positions.items) }
    ensures count { IfOk result (λ run.
        length run.positions.items ≡ length job.old.classes.representative) }
    ensures kept { IfOk result (λ run. AreKept (task_of (with_tests job.old tests.now) 0
        (A.wants goal.now) (A.means goal.now)) run.classes.items run.kept.items) }
    ensures workers { OnOk result ((0 < workers) × (workers ≤ 64)) }
    ensures ledgers { IfOk result (λ run. AreOfWindows (task_of (with_tests job.old tests.now) 0
        (A.wants goal.now) (A.means goal.now)) workers run.classes.items
        (blocks (length tests.now.tests)) run.kept.items) }
    ensures none { OnOk result (job.new.tests.tests ≡ []) }
    ensures refused { IfErr result (IsOpenFault workers) }
    ensures job { (some : TestList) × (job.new ≡ with_tests job.old some) }
{
    check_workers(workers)?;
    let (order, ready) = classes_and_window(rt, alloc, job, tests, step, workers)?;
    let ClassOrder { classes, positions } = order;
    let all = classes.as_slice();
    let kept = run_windows(rt, alloc, job, tests, step, all, ready, workers, goal, gate)?;
    Ok(GoalRun {
        classes,
        positions,
        kept,
    })
}
