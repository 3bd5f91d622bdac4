//! Jobs that run window by window if their tests have more blocks than a window.

ghost use Rattle.std.specs.Prelude.{◌≡◌, ◌<◌, ◌≤◌, ◌*◌, All, IfErr, IfNone, IfOk, IfSome, OnOk};
ghost use Rattle.std.specs.Prelude.{[], false, length, true};
ghost use Rattle.bench_net.specs.Scan.{sources};
ghost use Rattle.counting_sort.specs.SortedPlaces.{ArePositions};
ghost use Rattle.patterns.specs.Tests.{IsTestList, TestList, blocks};
ghost use Rattle.block_sim.specs.Parts.{BelongTogether, with_tests};
ghost use Rattle.workers.specs.Verdict.{AreAfterHits, AreFirsts};
ghost use Rattle.region_sim.specs.ClassOrder.{AreAllByRegion};
ghost use Rattle.region_runs.specs.Part.{stretch_size, stretches_of};
ghost use Rattle.region_runs.specs.Refused.{IsGoalFault, IsOpenFault, IsFirstsFault};
ghost use Rattle.region_runs.specs.Refused.{IsStretchesFault};
ghost use Rattle.region_runs.specs.RunJobs.{AreByLedgers, AreKeptByLedgers};
ghost use Rattle.region_runs.specs.Tasks.{AreKept, IsOpenAtFirst, task_of};

use crate::fault_firsts::{OrderedFirsts, verdicts_in};
use crate::goal_run::{GoalRun, run_goal};
use crate::list_run::{ListRun, run_list_for};
use crate::stretches::stretches_for;
use crate::watch::Watch;
use crate::window_goal::WindowGoal;
use crate::windows::{
    Window, forget_tests, run_goal_in_windows, run_windows, take_window, window_blocks,
};
use crate::word_reader::{WordReader, read_in_windows};
use block_sim::{Job, SpareWords};
use patterns::{BLOCK_SIZE, MAX_TESTS, Tests};
use region_sim::FirstTest;
use std::alloc::{AllocError, Global};
use std::marker;
use std::sync::Wait;
use std::thread::Threads;
use workers::{Gate, RunFault, Verdicts};

/// What a goal keeps of the classes of a list, and the classes.
#[derive(Drop)]
pub(crate) struct ListKept<K> {
    /// The classes.
    pub(crate) classes: Vec<u32>,
    /// What the goal keeps of each, of all tests.
    pub(crate) kept: Vec<K>,
}

/// A job to be run. If its tests have more blocks than a window, they may stand apart, and it runs
/// window by window.
#[derive(Drop)]
pub struct RunJob {
    /// The job, with no tests or those of a window if its own stand apart.
    job: Job,
    /// The tests, if they stand apart.
    apart: Option<Tests>,
    /// The number of blocks of a window.
    window: u32,
}

impl marker::Model for RunJob {
    ghost use Rattle.std.specs.Prelude.{is_some};
    ghost use Rattle.region_runs.specs.RunJobs.{AreForCircuit, RunView, whole_of};

    ghost Value = { RunView };

    ghost view = { λ r. record { whole = whole_of r.job r.apart; apart = is_some r.apart } };

    ghost invariant = { λ r. AreForCircuit r.job r.apart };
}

impl RunJob {
    /// Makes a job whose tests are its own, with windows that suit its circuit ([`window_blocks`]).
    pub fn whole(job: Job) -> RunJob
        ensures whole { result.whole ≡ job }
        ensures apart { result.apart ≡ false }
    {
        let blocks = window_blocks(job.circuit().signals());
        RunJob::in_windows(job, blocks)
    }

    /// Makes a job whose tests are its own, with windows of this number of blocks, at least 1.
    pub fn in_windows(job: Job, blocks: u32) -> RunJob
        ensures whole { result.whole ≡ job }
        ensures apart { result.apart ≡ false }
    {
        RunJob {
            job,
            apart: None,
            window: blocks,
        }
    }

    /// Returns the number of blocks by which windows go on.
    fn step(&self) -> u32
        ensures some { 0 < result }
        ensures few { result ≤ 1024 }
    {
        self.window.clamp(1, MAX_TESTS / BLOCK_SIZE)
    }

    /// Returns the job without regard to its tests, if they may stand apart.
    pub fn job(&self) -> &Job
        ensures circuit { result.now.circuit ≡ self.now.whole.circuit }
        ensures list { result.now.list ≡ self.now.whole.list }
        ensures classes { result.now.classes ≡ self.now.whole.classes }
        ensures own { self.now.apart ≡ false → result.now ≡ self.now.whole }
    {
        &self.job
    }

    /// Returns the tests.
    pub fn tests(&self) -> &Tests
        ensures tests { result.now ≡ self.now.whole.tests }
        ensures together { BelongTogether self.now.whole }
    {
        let own = self.job.tests();
        match &self.apart {
            Some(tests) => tests,
            None => own,
        }
    }

    /// Returns the number of stretches of a run: the requested one, at least 1, or else one that
    /// suits the workers ([`stretches_for`]).
    pub fn stretches(&self, requested: Option<u32>, workers: u32) -> u32
        ensures count { result ≡ stretches_of requested self.now.whole workers }
        ensures some { 0 < result }
    {
        match requested {
            Some(count) => count.max(1),
            None => stretches_for(self.job().classes().count(), workers),
        }
    }

    /// Takes other tests. They stand apart if they have more blocks than a window. If not, at most
    /// as many threads as there are workers compute their fault-free words. It fails only for
    /// memory, and then the run is as it was.
    pub fn set_tests<R: Threads + Wait>(
        &mut self,
        rt: &R,
        alloc: Global,
        tests: Tests,
        workers: u32,
    ) -> Result<(), AllocError>
        requires list { IsTestList tests }
        requires width { tests.width ≡ length (sources self.old.whole.circuit) }
        ensures tests { OnOk result (self.new.whole ≡ with_tests self.old.whole tests) }
        ensures kept { IfErr result (λ fault. self.new ≡ self.old) }
    {
        if tests.blocks() <= self.step() {
            return self.set_own_tests(rt, alloc, tests, workers);
        }
        drop(self.job.give_tests(alloc)?);
        self.apart = Some(tests);
        Ok(())
    }

    /// Takes other tests as [`RunJob::set_tests`] does, but they never stand apart.
    pub fn set_own_tests<R: Threads + Wait>(
        &mut self,
        rt: &R,
        alloc: Global,
        tests: Tests,
        workers: u32,
    ) -> Result<(), AllocError>
        requires list { IsTestList tests }
        requires width { tests.width ≡ length (sources self.old.whole.circuit) }
        ensures tests { OnOk result (self.new.whole ≡ with_tests self.old.whole tests) }
        ensures own { OnOk result (self.new.apart ≡ false) }
        ensures kept { IfErr result (λ fault. self.new ≡ self.old) }
    {
        let none = SpareWords::none(alloc);
        self.job.set_tests_over(rt, alloc, tests, none, workers)?;
        self.apart = None;
        Ok(())
    }

    /// Takes the tests as its own if they stand apart: then the job has the fault-free words of all
    /// tests, 16 bytes for each signal and 128 tests. At most as many threads as there are workers
    /// compute the words. It fails only for memory, and then the run is as it was.
    pub fn hold_tests<R: Threads + Wait>(
        &mut self,
        rt: &R,
        alloc: Global,
        workers: u32,
    ) -> Result<(), AllocError>
        ensures whole { OnOk result (self.new.whole ≡ self.old.whole) }
        ensures own { OnOk result (self.new.apart ≡ false) }
        ensures kept { IfErr result (λ fault. self.new ≡ self.old) }
    {
        let Some(tests) = &self.apart else {
            return Ok(());
        };
        take_all(rt, alloc, &mut self.job, tests, workers)?;
        self.apart = None;
        Ok(())
    }

    /// Runs all classes in a number of stretches, by workers in threads of their own, and returns
    /// the verdicts: the first test of each fault. The skipped pieces are those after the first
    /// hits. It runs as [`RunJob::run_goal`] does, and lets the gate look at the verdicts, too.
    pub fn run<R: Threads + Wait, G: Watch + Sync>(
        &mut self,
        rt: &R,
        alloc: Global,
        stretches: u32,
        workers: u32,
        gate: &G,
    ) -> Result<Verdicts, RunFault>
        requires gate { self.old.apart ≡ true → G.passing gate.now }
        requires stretches { 0 < stretches }
        ensures firsts { IfOk result (λ v. AreFirsts self.old.whole.list.model
            self.old.whole.circuit self.old.whole.tests.tests v.firsts) }
        ensures skipped { IfOk result (λ v. AreAfterHits self.old.whole v.skipped) }
        ensures workers { OnOk result ((0 < workers) × (workers ≤ 64)) }
        ensures ledgers { IfOk result (AreByLedgers self.old.whole stretches workers) }
        ensures refused { IfErr result (IsFirstsFault self.old.whole stretches workers
            (G.passing gate.now) (G.stops gate.now)) }
        ensures open { G.passing gate.now → IfErr result (IsOpenFault workers) }
        ensures kept { self.new ≡ self.old }
    {
        let done = self.run_goal(rt, alloc, stretches, workers, &FirstTest, gate)?;
        let GoalRun {
            classes: _classes,
            positions,
            kept: firsts,
        } = done;
        let ordered = OrderedFirsts { positions, firsts };
        let tests = self.tests();
        let job = self.job();
        let _count = job.classes().count();
        let verdicts = verdicts_in(rt, alloc, job, &ordered, tests.blocks(), workers)?;
        gate.finds(job, tests, &verdicts);
        Ok(verdicts)
    }

    /// Runs a list of classes for a goal. If the tests are the job's own, workers claim stretches
    /// of the list at a ledger that all share ([`run_list_for`]). If not, it runs window by window,
    /// under a gate that lets each piece pass ([`run_windows`]).
    pub(crate) fn run_list<A: WindowGoal + Sync, R: Threads + Wait, G: Gate + Sync>(
        &mut self,
        rt: &R,
        alloc: Global,
        classes: Vec<u32>,
        stretches: u32,
        workers: u32,
        goal: &A,
        gate: &G,
    ) -> Result<ListKept<A::Kept>, RunFault>
    where
        A::Kept: Send,
        requires gate { self.old.apart ≡ true → G.passing gate.now }
        requires some { 0 < stretches }
        requires few { length classes.items ≤ length self.old.whole.classes.representative }
        requires within { All (λ class. class < length self.old.whole.classes.representative)
            classes.items }
        requires workers { (0 < workers) × (workers ≤ 64) }
        requires wanted { IsOpenAtFirst
            (task_of self.old.whole 0 (A.wants goal.now) (A.means goal.now)) }
        ensures classes { IfOk result (λ run. run.classes.items ≡ classes.items) }
        ensures kept { IfOk result (λ run. AreKept (task_of self.old.whole 0 (A.wants goal.now)
            (A.means goal.now)) classes.items run.kept.items) }
        ensures ledgers { IfOk result (λ run. AreKeptByLedgers (task_of self.old.whole 0
            (A.wants goal.now) (A.means goal.now)) stretches workers classes.items
            run.kept.items) }
        ensures refused { IfErr result (IsStretchesFault (task_of self.old.whole 0
            (A.wants goal.now) (A.means goal.now)) (stretch_size (length classes.items) stretches)
            classes.items stretches workers (G.passing gate.now) (G.stops gate.now)) }
        ensures same { self.new ≡ self.old }
    {
        let step = self.step();
        match &self.apart {
            None => {
                let done = run_list_for(
                    rt, alloc, &self.job, 0, classes, stretches, workers, goal, gate,
                )?;
                let ListRun {
                    classes,
                    kept,
                    ledger: _ledger,
                } = done;
                Ok(ListKept { classes, kept })
            }
            Some(tests) => {
                let job = &mut self.job;
                let all = classes.as_slice();
                let kept = run_windows(
                    rt, alloc, job, tests, step, all, false, workers, goal, gate,
                )?;
                Ok(ListKept { classes, kept })
            }
        }
    }

    /// Lets a reader read the fault-free words of all tests: of all blocks at once if the tests are
    /// the job's own, and else window by window. At most as many threads as there are workers
    /// compute the words of a window. It fails only for memory, and then the reader has read some
    /// of the windows.
    pub fn read_words<V: WordReader, R: Threads + Wait>(
        &mut self,
        rt: &R,
        alloc: Global,
        workers: u32,
        reader: &mut V,
    ) -> Result<(), RunFault>
        requires { V.gathered reader.old self.old.whole 0 }
        ensures gathered { OnOk result (V.gathered reader.new self.old.whole
            (64 * blocks (length self.old.whole.tests.tests))) }
        ensures refused { IfErr result (λ fault. fault ≡ RunFault.Memory) }
        ensures same { self.new ≡ self.old }
    {
        let step = self.step();
        match &self.apart {
            None => {
                let _tests = self.job.tests();
                reader.read(&self.job);
                Ok(())
            }
            Some(tests) => {
                read_in_windows(rt, alloc, &mut self.job, tests, step, workers, reader)
            }
        }
    }

    /// Runs all classes for a goal, in a number of stretches if the tests are the job's own
    /// ([`run_goal`]), and else window by window, under a gate that lets each piece pass. The gate
    /// learns when the run begins and when all is settled.
    ///
    /// # Errors
    ///
    /// Those of [`run_goal`].
    pub fn run_goal<A: WindowGoal + Sync, R: Threads + Wait, G: Watch + Sync>(
        &mut self,
        rt: &R,
        alloc: Global,
        stretches: u32,
        workers: u32,
        goal: &A,
        gate: &G,
    ) -> Result<GoalRun<A::Kept>, RunFault>
    where
        A::Kept: Send,
        requires gate { self.old.apart ≡ true → G.passing gate.now }
        requires stretches { 0 < stretches }
        requires wanted { IsOpenAtFirst
            (task_of self.old.whole 0 (A.wants goal.now) (A.means goal.now)) }
        ensures classes { IfOk result (λ run. AreAllByRegion self.old.whole run.classes.items) }
        ensures positions { IfOk result (λ run.
            ArePositions run.classes.items run.positions.items) }
        ensures count { IfOk result (λ run.
            length run.positions.items ≡ length self.old.whole.classes.representative) }
        ensures kept { IfOk result (λ run. AreKept (task_of self.old.whole 0 (A.wants goal.now)
            (A.means goal.now)) run.classes.items run.kept.items) }
        ensures workers { OnOk result ((0 < workers) × (workers ≤ 64)) }
        ensures ledgers { IfOk result (λ run. AreKeptByLedgers (task_of self.old.whole 0
            (A.wants goal.now) (A.means goal.now)) stretches workers run.classes.items
            run.kept.items) }
        ensures refused { IfErr result (IsGoalFault (task_of self.old.whole 0
            (A.wants goal.now) (A.means goal.now)) stretches workers (G.passing gate.now)
            (G.stops gate.now)) }
        ensures open { G.passing gate.now → IfErr result (IsOpenFault workers) }
        ensures same { self.new ≡ self.old }
    {
        gate.starts(self.job.classes().count(), self.tests().blocks());
        let run = self.run_goal_unwatched(rt, alloc, stretches, workers, goal, gate)?;
        gate.ends();
        Ok(run)
    }

    /// Runs all classes for a goal as [`RunJob::run_goal`] does, without a call of the gate beside
    /// those for pieces.
    fn run_goal_unwatched<A: WindowGoal + Sync, R: Threads + Wait, G: Gate + Sync>(
        &mut self,
        rt: &R,
        alloc: Global,
        stretches: u32,
        workers: u32,
        goal: &A,
        gate: &G,
    ) -> Result<GoalRun<A::Kept>, RunFault>
    where
        A::Kept: Send,
        requires gate { self.old.apart ≡ true → G.passing gate.now }
        requires stretches { 0 < stretches }
        requires wanted { IsOpenAtFirst
            (task_of self.old.whole 0 (A.wants goal.now) (A.means goal.now)) }
        ensures classes { IfOk result (λ run. AreAllByRegion self.old.whole run.classes.items) }
        ensures positions { IfOk result (λ run.
            ArePositions run.classes.items run.positions.items) }
        ensures count { IfOk result (λ run.
            length run.positions.items ≡ length self.old.whole.classes.representative) }
        ensures kept { IfOk result (λ run. AreKept (task_of self.old.whole 0 (A.wants goal.now)
            (A.means goal.now)) run.classes.items run.kept.items) }
        ensures workers { OnOk result ((0 < workers) × (workers ≤ 64)) }
        ensures ledgers { IfOk result (λ run. AreKeptByLedgers (task_of self.old.whole 0
            (A.wants goal.now) (A.means goal.now)) stretches workers run.classes.items
            run.kept.items) }
        ensures refused { IfErr result (IsGoalFault (task_of self.old.whole 0
            (A.wants goal.now) (A.means goal.now)) stretches workers (G.passing gate.now)
            (G.stops gate.now)) }
        ensures open { G.passing gate.now → IfErr result (IsOpenFault workers) }
        ensures same { self.new ≡ self.old }
    {
        let step = self.step();
        match &self.apart {
            None => run_goal(rt, alloc, &self.job, stretches, workers, goal, gate),
            Some(tests) => {
                let job = &mut self.job;
                run_goal_in_windows(rt, alloc, job, tests, step, workers, goal, gate)
            }
        }
    }
}

/// Gives a job all tests of a list.
fn take_all<R: Threads + Wait>(
    rt: &R,
    alloc: Global,
    job: &mut Job,
    tests: &Tests,
    workers: u32,
) -> Result<(), AllocError>
    requires list { IsTestList tests.now }
    requires width { tests.now.width ≡ length (sources job.old.circuit) }
    ensures taken { OnOk result (job.new ≡ with_tests job.old tests.now) }
    ensures kept { job.new ≡ with_tests job.old job.new.tests }
{
    take_rows(rt, alloc, job, tests, workers)?;
    let _taken = job.tests();
    Ok(())
}

/// Gives a job the rows of a list of tests, as a window of all blocks.
fn take_rows<R: Threads + Wait>(
    rt: &R,
    alloc: Global,
    job: &mut Job,
    tests: &Tests,
    workers: u32,
) -> Result<(), AllocError>
    requires list { IsTestList tests.now }
    requires width { tests.now.width ≡ length (sources job.old.circuit) }
    ensures taken { OnOk result (job.new.tests.tests ≡ tests.now.tests) }
    ensures kept { job.new ≡ with_tests job.old job.new.tests }
{
    let end = tests.blocks();
    if end == 0 {
        return forget_tests(alloc, job);
    }
    let all = Window {
        from: 0,
        first: 0,
        end,
    };
    match take_window(rt, alloc, job, tests, all, workers) {
        Ok(()) => Ok(()),
        // A window only lacks memory.
        Err(_) => Err(AllocError),
    }
}
