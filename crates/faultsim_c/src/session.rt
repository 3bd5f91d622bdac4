//! The session of a handle: a job with room to simulate it.

ghost use Rattle.std.specs.Prelude.{◌≡◌, ◌^◌, ◌<◌, All, IfErr, IfOk, length};
ghost use Rattle.bench_net.specs.Circuit.{IsCircuit};
ghost use Rattle.bench_net.specs.Scan.{names, sources};
ghost use Rattle.patterns.specs.Making.{IsMadeOf};
ghost use Rattle.patterns.specs.Tests.{HasTests, IsTestList, TestList, blocks};
ghost use Rattle.block_sim.specs.First.{AreDetecting};
ghost use Rattle.block_sim.specs.Flips.{AreObserving};
ghost use Rattle.block_sim.specs.Parts.{BelongTogether, with_tests};
ghost use Rattle.flat_circuit.specs.BlockSpans.{groups};
ghost use Rattle.workers.specs.Verdict.{AreClassFirsts, AreFirsts};
ghost use Rattle.n_detect.specs.ListLanes.{AreListLanes};
ghost use Rattle.class_lists.specs.Lists.{AreClassCounts, ServesClasses};
ghost use Rattle.faultsim_c.specs.Calls.{IsCircuitJob, IsJobOfTexts};
ghost use Rattle.faultsim_c.specs.Statuses.{IsBenchReply, IsTestsReply, IsTextsReply, IsUntaken};
ghost use Rattle.faultsim_c.specs.Statuses.{IsNextReply, IsWordsReply};
ghost use Rattle.faultsim_c.specs.Following.{following};

use crate::following::after_last;
use crate::status::Refusal;
use bench_net::{Circuit, read_bench};
use block_sim::{Job, Workspace, detecting, observing};
use class_lists::ListSimulation;
use fault_model::{Model as FaultModel, collapse, list_faults_in};
use patterns::{Tests, read_tests};
use std::alloc::{AllocError, Global};
use std::marker::Model;
use std::sync::Arc;

/// A job, which sessions of several threads share, and the session's own room to simulate it.
#[derive(Drop)]
pub(crate) struct Session {
    job: Arc<Job>,
    workspace: Workspace,
    lists: ListSimulation,
}

impl Model for Session {
    ghost use Rattle.block_sim.specs.Parts.{HasRoom, Parts};
    ghost use Rattle.class_lists.specs.Lists.{ServesClasses};

    ghost Value = { Parts };

    ghost view = { λ s. s.job.value };

    ghost invariant = { λ s. HasRoom s.workspace s.job.value × ServesClasses s.lists s.job.value };
}

impl Session {
    /// Reads a circuit. The session has no tests.
    pub(crate) fn read(alloc: Global, model: FaultModel, bench: &[u8]) -> Result<Session, Refusal>
        ensures read { IfOk result (IsCircuitJob model bench.now) }
        ensures refused { IfErr result (IsBenchReply bench.now) }
    {
        let circuit = read_bench(alloc, bench)?;
        let tests = Tests::new(alloc, circuit.sources());
        let job = job_of(alloc, model, circuit, tests)?;
        Ok(Session::of(alloc, job)?)
    }

    /// Reads a circuit and its tests.
    pub(crate) fn read_both(
        alloc: Global,
        model: FaultModel,
        bench: &[u8],
        text: &[u8],
    ) -> Result<Session, Refusal>
        ensures read { IfOk result (IsJobOfTexts model bench.now text.now) }
        ensures refused { IfErr result (IsTextsReply bench.now text.now) }
    {
        let circuit = read_bench(alloc, bench)?;
        let tests = read_tests(alloc, text, circuit.sources())?;
        let job = job_of(alloc, model, circuit, tests)?;
        Ok(Session::of(alloc, job)?)
    }

    /// Makes a session of a job.
    fn of(alloc: Global, job: Job) -> Result<Session, AllocError>
        ensures { IfOk result (λ session. session ≡ job) }
    {
        let workspace = Workspace::new(alloc, &job)?;
        let lists = ListSimulation::new(alloc, &job)?;
        let job = Arc::new(alloc, job)?;
        Ok(Session {
            job,
            workspace,
            lists,
        })
    }

    /// Makes a second session of the same job, for another thread.
    pub(crate) fn share(&self, alloc: Global) -> Result<Session, AllocError>
        ensures { IfOk result (λ session. session ≡ self.now) }
    {
        let workspace = Workspace::new(alloc, &self.job)?;
        let lists = ListSimulation::new(alloc, &self.job)?;
        let job = Arc::try_clone(&self.job)?;
        Ok(Session {
            job,
            workspace,
            lists,
        })
    }

    /// Returns the job.
    pub(crate) fn job(&self) -> &Job
        ensures { result.now ≡ self.now }
    {
        &self.job
    }

    /// Replaces the job's tests with tests in words.
    pub(crate) fn set_words(
        &mut self,
        alloc: Global,
        alone: bool,
        count: u32,
        words: &[u64],
    ) -> Result<(), Refusal>
        ensures done { IfOk result (λ _. (tests : TestList)
            × IsMadeOf (length (sources self.old.circuit)) count words.now tests
            × (self.new ≡ with_tests self.old tests)) }
        ensures refused { IfErr result
            (IsWordsReply alone (length (sources self.old.circuit)) count words.now) }
        ensures kept { IfErr result (λ _. self.new ≡ self.old) }
    {
        let tests = Tests::from_words(alloc, self.job.circuit().sources(), count, words)?;
        self.set_tests(alloc, alone, tests)
    }

    /// Replaces the job's tests with their last one and then tests in words.
    pub(crate) fn next_words(
        &mut self,
        alloc: Global,
        alone: bool,
        count: u32,
        words: &[u64],
    ) -> Result<(), Refusal>
        ensures done { IfOk result (λ _. (tests : TestList)
            × IsMadeOf (length (sources self.old.circuit)) count words.now tests
            × (self.new ≡ with_tests self.old (following self.old.tests tests))) }
        ensures refused { IfErr result (IsNextReply alone self.old.tests.tests
            (length (sources self.old.circuit)) count words.now) }
        ensures kept { IfErr result (λ _. self.new ≡ self.old) }
    {
        let new = Tests::from_words(alloc, self.job.circuit().sources(), count, words)?;
        let tests = after_last(alloc, self.job.tests(), new)?;
        self.set_tests(alloc, alone, tests)
    }

    /// Replaces the job's tests with the tests of a test file.
    pub(crate) fn set_text(
        &mut self,
        alloc: Global,
        alone: bool,
        text: &[u8],
    ) -> Result<(), Refusal>
        ensures done { IfOk result (λ _. (tests : TestList)
            × HasTests text.now (length (sources self.old.circuit)) tests
            × (self.new ≡ with_tests self.old tests)) }
        ensures refused { IfErr result
            (IsTestsReply alone (length (sources self.old.circuit)) text.now) }
        ensures kept { IfErr result (λ _. self.new ≡ self.old) }
    {
        let tests = read_tests(alloc, text, self.job.circuit().sources())?;
        self.set_tests(alloc, alone, tests)
    }

    /// Replaces the job's tests, unless another session shares the job.
    fn set_tests(&mut self, alloc: Global, alone: bool, tests: Tests) -> Result<(), Refusal>
        requires tests { IsTestList tests }
        requires width { tests.width ≡ length (sources self.old.circuit) }
        ensures done { IfOk result (λ _. self.new ≡ with_tests self.old tests) }
        ensures refused { IfErr result (IsUntaken alone) }
        ensures kept { IfErr result (λ _. self.new ≡ self.old) }
    {
        replace_tests(alloc, alone, &mut self.job, tests)
    }

    /// Returns the lanes of a block whose tests detect a class.
    pub(crate) fn detecting(&mut self, class: u32, block: u32) -> u64
        requires class { class < length self.old.classes.representative }
        requires block { block < blocks (length self.old.tests.tests) }
        ensures lanes { AreDetecting self.old.list.model self.old.circuit
            self.old.tests.tests class block result }
        ensures kept { self.new ≡ self.old }
    {
        detecting(&self.job, &mut self.workspace, class, block)
    }

    /// Returns the lanes of a block in which an observer sees a complemented signal.
    pub(crate) fn observing(&mut self, signal: u32, block: u32) -> u64
        requires signal { signal < length (names self.old.circuit) }
        requires block { block < blocks (length self.old.tests.tests) }
        ensures lanes { AreObserving self.old.circuit self.old.tests.tests signal block result }
        ensures kept { self.new ≡ self.old }
    {
        observing(&self.job, &mut self.workspace, signal, block)
    }

    /// Returns for each class of a list the number of tests that detect it. Counting ends at
    /// `most`.
    pub(crate) fn detections(
        &mut self,
        alloc: Global,
        classes: &[u32],
        most: u32,
    ) -> Result<Vec<u32>, AllocError>
        requires { All (λ class. class < length self.old.classes.representative) classes.now }
        ensures counts { IfOk result (λ counts.
            AreClassCounts self.old classes.now most counts.items) }
        ensures kept { self.new ≡ self.old }
    {
        self.lists.detections(alloc, &self.job, classes, most)
    }

    /// Returns the first test that detects each class of a list, or none.
    pub(crate) fn first_tests(
        &mut self,
        alloc: Global,
        classes: &[u32],
    ) -> Result<Vec<Option<u32>>, AllocError>
        requires { All (λ class. class < length self.old.classes.representative) classes.now }
        ensures firsts { IfOk result (λ firsts. AreClassFirsts self.old.list.model
            self.old.circuit self.old.tests.tests classes.now firsts.items) }
        ensures kept { self.new ≡ self.old }
    {
        self.lists.first_tests(alloc, &self.job, classes)
    }

    /// Returns the first test that detects each fault, or none.
    pub(crate) fn fault_firsts(&mut self, alloc: Global) -> Result<Vec<Option<u32>>, AllocError>
        ensures firsts { IfOk result (λ firsts. AreFirsts self.old.list.model self.old.circuit
            self.old.tests.tests firsts.items) }
        ensures few { IfOk result (λ firsts. length firsts.items < 2 ^ 32) }
        ensures kept { self.new ≡ self.old }
    {
        self.lists.fault_firsts(alloc, &self.job)
    }

    /// Returns for each class of a list the lanes of a group whose tests detect it.
    pub(crate) fn lanes(
        &mut self,
        alloc: Global,
        classes: &[u32],
        group: u32,
    ) -> Result<Vec<u128>, AllocError>
        requires group { group < groups (length self.old.tests.tests) }
        requires classes { All (λ class. class < length self.old.classes.representative)
            classes.now }
        ensures lanes { IfOk result (λ lanes.
            AreListLanes self.old group classes.now lanes.items) }
        ensures kept { self.new ≡ self.old }
    {
        self.lists.lanes(alloc, &self.job, classes, group)
    }
}

/// Replaces a job's tests, unless another session shares the job.
///
/// The contract of `Arc::get_mut` doesn't fix when it returns none. If it returned none for a job
/// of only one session, this call would report that memory ran out. It would not report that
/// another session shares the job.
fn replace_tests(
    alloc: Global,
    alone: bool,
    job: &mut Arc<Job>,
    tests: Tests,
) -> Result<(), Refusal>
    requires tests { IsTestList tests }
    requires width { tests.width ≡ length (sources job.old.value.circuit) }
    ensures done { IfOk result (λ _. job.new.value ≡ with_tests job.old.value tests) }
    ensures refused { IfErr result (IsUntaken alone) }
    ensures kept { IfErr result (λ _. job.new.value ≡ job.old.value) }
{
    match Arc::get_mut(job) {
        Some(job) => Ok(job.set_tests_of_any_size(alloc, tests)?),
        None if alone => Err(Refusal::Memory),
        None => Err(Refusal::Shared),
    }
}

/// Makes the job of a circuit and its tests: its faults under a model, and their classes.
fn job_of(
    alloc: Global,
    model: FaultModel,
    circuit: Circuit,
    tests: Tests,
) -> Result<Job, AllocError>
    requires circuit { IsCircuit circuit }
    requires tests { IsTestList tests }
    requires width { tests.width ≡ length (sources circuit) }
    ensures circuit { IfOk result (λ job. job.circuit ≡ circuit) }
    ensures model { IfOk result (λ job. job.list.model ≡ model) }
    ensures tests { IfOk result (λ job. job.tests ≡ tests) }
    ensures together { IfOk result (λ job. BelongTogether job) }
{
    let faults = list_faults_in(alloc, &circuit, model)?;
    let classes = collapse(alloc, &circuit, &faults)?;
    Job::of_any_size(alloc, circuit, faults, classes, tests)
}
