//! A job: a circuit with its faults, its classes and its tests.

ghost use Rattle.std.specs.Prelude.{◌≡◌, ◌↔◌, ◌<◌, ◌≤◌, ◌*◌, [], List, ℕ, None, length, map};
ghost use Rattle.std.specs.Prelude.{Err, IfErr, IfOk, IsTrue, OnOk, true};
ghost use Rattle.bench_net.specs.Scan.{names, sources};
ghost use Rattle.bench_net.specs.Statement.{Statement};
ghost use Rattle.patterns.specs.Tests.{IsTestList, blocks, max_pieces};
ghost use Rattle.flat_circuit.specs.GroupRows.{AreFaultFree};
ghost use Rattle.flat_circuit.specs.Arranged.{ArePlaces, IsArranged};
ghost use Rattle.block_sim.specs.Listed.{IsListed, IsRepresentativeOf};
ghost use Rattle.flat_circuit.specs.Classes.{AreClassLists};
ghost use Rattle.flat_circuit.specs.Flat.{AreFlatRows};
ghost use Rattle.block_sim.specs.JobParts.{IsJobUnder};
ghost use Rattle.block_sim.specs.First.{IsFirstOn};
ghost use Rattle.block_sim.specs.Parts.{BelongTogether, Parts, piece_count, with_tests};
ghost use Rattle.flat_circuit.specs.Regions.{IsStemOfClass};
ghost use Rattle.flat_circuit.specs.BlockSpans.{IsTogether, groups, unit_of};
ghost use Rattle.flat_circuit.specs.Words.{IsFaultFreeWord};

use crate::stand_in::StandIn;
use bench_net::Circuit;
use fault_model::{Classes, Faults};
use flat_circuit::block_lanes::block_word;
use flat_circuit::block_span::BlockSpan;
use flat_circuit::block_view::GroupWords;
use flat_circuit::class_lists::{ClassLists, class_lists, class_lists_under};
use flat_circuit::fault_free::{fault_free_rows, fault_free_rows_in_threads};
use flat_circuit::flat::{FlatCircuit, FlatRows, flat_rows, flat_rows_in_threads};
use flat_circuit::origin::ListedClass;
use flat_circuit::words::Stuck;
use patterns::{MAX_PIECES, Tests};
use std::alloc::{AllocError, Global};
use std::marker::Model;
use std::mem::replace;
use std::sync::Wait;
use std::thread;
use std::thread::Threads;
use thiserror::Error;

/// A circuit is large if it has this number of signals. One thread lists and collapses its faults
/// in about half a millisecond, 10 times as long as its start.
const LARGE_CIRCUIT: u32 = 1 << 10;

/// The number of workers from which on two threads make the lists of classes, beside those that
/// make the flat arrays.
const WORKERS_FOR_LISTS: u32 = 4;

/// An error of making a job.
#[derive(Clone, Copy, Debug, PartialEq, Eq, Error)]
pub enum JobFault {
    /// Classes times blocks are more than [`patterns::MAX_PIECES`].
    #[error("more than 16777216 pieces")]
    TooManyPieces,
    /// There is no memory for the job.
    #[error("out of memory")]
    Memory,
}

impl From<AllocError> for JobFault {
    ghost use Rattle.std.specs.Prelude.{◌≡◌};
    ghost use Rattle.block_sim.specs.declared.job.JobFault.TheVariants.{Memory};

    ghost from_gives = { λ _ fault. fault ≡ Memory };

    fn from(_refused: AllocError) -> JobFault {
        JobFault::Memory
    }
}

/// A circuit, its faults and classes, and tests for it.
///
/// A job also has the fault-free words of every block, and the stem and the representative of each
/// class. It links the classes of each fanout-free region in a circle. All of it is in one place of
/// memory, so a job moves as cheaply as a number.
#[derive(Drop)]
pub struct Job {
    parts: Box<JobParts>,
}

/// The parts of a job.
#[derive(Drop)]
struct JobParts {
    flat: FlatCircuit,
    faults: Faults,
    classes: Classes,
    tests: Tests,
    rows: Vec<Vec<u128>>,
    class_stems: Vec<u32>,
    next_in_region: Vec<u32>,
    representatives: Vec<Stuck>,
}

/// The tests of a job and their fault-free words, which the job no longer has. They take some
/// milliseconds to free.
#[derive(Drop)]
pub struct SpentTests {
    tests: Tests,
    rows: Vec<Vec<u128>>,
}

/// The memory of fault-free words that a job no longer has, for the words of other tests.
#[derive(Drop)]
pub struct SpareWords {
    rows: Vec<Vec<u128>>,
}

impl SpareWords {
    /// Returns no memory.
    pub fn none(alloc: Global) -> SpareWords {
        SpareWords {
            rows: Vec::new(alloc),
        }
    }
}

impl JobParts {
    /// Takes other tests and their words, and returns those before.
    fn exchange_tests(&mut self, tests: Tests, rows: Vec<Vec<u128>>) -> SpentTests
        ensures { self.new ≡ record self.old { tests = tests; rows = rows } }
    {
        SpentTests {
            tests: replace(&mut self.tests, tests),
            rows: replace(&mut self.rows, rows),
        }
    }

    /// Takes other tests and their words.
    fn take_tests(&mut self, tests: Tests, rows: Vec<Vec<u128>>)
        ensures { self.new ≡ record self.old { tests = tests; rows = rows } }
    {
        self.tests = tests;
        self.rows = rows;
    }
}

impl Model for Job {
    ghost use Rattle.std.specs.Prelude.{map};
    ghost use Rattle.block_sim.specs.Parts.{Parts};
    ghost use Rattle.block_sim.specs.Job.{IsJob};

    ghost Value = { Parts };

    ghost view = { λ j. record {
      circuit = j.parts.value.flat.statements;
      list = j.parts.value.faults;
      classes = j.parts.value.classes;
      tests = j.parts.value.tests;
    } };

    ghost invariant = { λ j. IsJob (record {
      circuit = j.parts.value.flat.statements;
      list = j.parts.value.faults;
      classes = j.parts.value.classes;
      tests = j.parts.value.tests;
    }) j.parts.value.flat.arranged
        (map (λ row. row.items) j.parts.value.rows.items) j.parts.value.class_stems.items
        j.parts.value.next_in_region.items j.parts.value.representatives.items };
}

impl Job {
    /// Makes a job of parts that belong together: the faults and classes of the circuit, and tests
    /// of its width. It takes a word for each signal and block, and a few numbers for each class.
    ///
    /// It fails with `TooManyPieces` exactly if classes times blocks are more than
    /// [`patterns::MAX_PIECES`], before it takes memory, and with `Memory` if an allocation fails.
    pub fn new(
        alloc: Global,
        circuit: Circuit,
        faults: Faults,
        classes: Classes,
        tests: Tests,
    ) -> Result<Job, JobFault>
        requires { BelongTogether (record {
          circuit = circuit;
          list = faults;
          classes = classes;
          tests = tests;
        }) }
        ensures too_many { (result ≡ Err JobFault.TooManyPieces)
            ↔ (max_pieces < piece_count (record {
              circuit = circuit;
              list = faults;
              classes = classes;
              tests = tests;
            })) }
        ensures few { IfOk result (λ job. piece_count job ≤ max_pieces) }
        ensures job { IfOk result (λ job. job ≡ record {
          circuit = circuit;
          list = faults;
          classes = classes;
          tests = tests;
        }) }
    {
        if has_too_many_pieces(&classes, &tests) {
            return Err(JobFault::TooManyPieces);
        }
        Ok(Job::of_any_size(alloc, circuit, faults, classes, tests)?)
    }

    /// Makes a job as [`Job::new`] does, for any number of pieces: for runs of some of its classes
    /// at a time. It fails only for memory.
    pub fn of_any_size(
        alloc: Global,
        circuit: Circuit,
        faults: Faults,
        classes: Classes,
        tests: Tests,
    ) -> Result<Job, AllocError>
        requires { BelongTogether (record {
          circuit = circuit;
          list = faults;
          classes = classes;
          tests = tests;
        }) }
        ensures { IfOk result (λ job. job ≡ record {
          circuit = circuit;
          list = faults;
          classes = classes;
          tests = tests;
        }) }
    {
        let flat = FlatCircuit::new(alloc, circuit)?;
        let rows = words_of(alloc, &flat, &tests)?;
        let lists = class_lists(alloc, flat.circuit(), faults, classes)?;
        Job::with_lists(alloc, flat, lists, tests, rows)
    }

    /// Makes the job of a circuit under a model, with tests of its width and any number of pieces,
    /// in at most as many threads as there are workers. If the circuit is large, one thread makes
    /// its flat arrays and another its fault list and classes. Then the threads share the words of
    /// its blocks. It fails only for memory.
    pub fn under_model<R: Threads + Wait>(
        rt: &R,
        alloc: Global,
        model: fault_model::Model,
        circuit: Circuit,
        tests: Tests,
        workers: u32,
    ) -> Result<Job, AllocError>
        requires tests { IsTestList tests }
        requires width { tests.width ≡ length (sources circuit) }
        ensures { IfOk result (IsJobUnder model circuit tests) }
    {
        let (flat, lists) = flat_and_lists(rt, alloc, circuit, model, workers)?;
        Job::with_words(rt, alloc, flat, lists, tests, workers)
    }

    /// Makes the job of a circuit in flat arrays and the lists of its classes. The threads share
    /// the words of its blocks.
    fn with_words<R: Threads + Wait>(
        rt: &R,
        alloc: Global,
        flat: FlatCircuit,
        lists: ClassLists,
        tests: Tests,
        workers: u32,
    ) -> Result<Job, AllocError>
        requires lists { AreClassLists flat.statements lists }
        requires tests { IsTestList tests }
        requires width { tests.width ≡ length (sources flat.statements) }
        ensures { IfOk result (λ job. job ≡ record {
          circuit = flat.statements;
          list = lists.faults;
          classes = lists.classes;
          tests = tests;
        }) }
    {
        let spare = Vec::new(alloc);
        let rows = fault_free_rows_in_threads(rt, alloc, &flat, &tests, spare, workers)?;
        Job::with_lists(alloc, flat, lists, tests, rows)
    }

    /// Makes the job of a circuit in flat arrays and the lists of its classes, with these
    /// fault-free words.
    fn with_lists(
        alloc: Global,
        flat: FlatCircuit,
        lists: ClassLists,
        tests: Tests,
        rows: Vec<Vec<u128>>,
    ) -> Result<Job, AllocError>
        requires lists { AreClassLists flat.statements lists }
        requires tests { IsTestList tests }
        requires width { tests.width ≡ length (sources flat.statements) }
        requires count { length (map (λ row. row.items) rows.items)
            ≡ groups (length tests.tests) }
        requires rows { AreFaultFree flat.arranged tests.tests
            (map (λ row. row.items) rows.items) }
        ensures { IfOk result (λ job. job ≡ record {
          circuit = flat.statements;
          list = lists.faults;
          classes = lists.classes;
          tests = tests;
        }) }
    {
        let _signals = flat.signals();
        let ClassLists {
            faults,
            classes,
            stems: class_stems,
            next_in_region,
            representatives,
        } = lists;
        let parts = Box::new(
            alloc,
            JobParts {
                flat,
                faults,
                classes,
                tests,
                rows,
                class_stems,
                next_in_region,
                representatives,
            },
        )?;
        Ok(Job { parts })
    }

    /// Takes other tests of the same width instead of the job's. The circuit, its faults and its
    /// classes stay, so every workspace that fitted still fits. It takes a word for each signal and
    /// block of the new tests.
    ///
    /// It fails as [`Job::new`] does, and then the job is as it was.
    pub fn set_tests(&mut self, alloc: Global, tests: Tests) -> Result<(), JobFault>
        requires tests { IsTestList tests }
        requires width { tests.width ≡ length (sources self.old.circuit) }
        ensures too_many { (result ≡ Err JobFault.TooManyPieces)
            ↔ (max_pieces < piece_count (with_tests self.old tests)) }
        ensures few { OnOk result (piece_count self.new ≤ max_pieces) }
        ensures job { OnOk result (self.new ≡ with_tests self.old tests) }
        ensures kept { IfErr result (λ fault. self.new ≡ self.old) }
    {
        if has_too_many_pieces(&self.parts.classes, &tests) {
            return Err(JobFault::TooManyPieces);
        }
        Ok(self.set_tests_of_any_size(alloc, tests)?)
    }

    /// Takes other tests as [`Job::set_tests`] does, for any number of pieces. It fails only for
    /// memory, and then the job is as it was.
    pub fn set_tests_of_any_size(&mut self, alloc: Global, tests: Tests) -> Result<(), AllocError>
        requires tests { IsTestList tests }
        requires width { tests.width ≡ length (sources self.old.circuit) }
        ensures job { OnOk result (self.new ≡ with_tests self.old tests) }
        ensures kept { IfErr result (λ fault. self.new ≡ self.old) }
    {
        let rows = words_of(alloc, &self.parts.flat, &tests)?;
        self.parts.take_tests(tests, rows);
        Ok(())
    }

    /// Takes other tests as [`Job::set_tests_of_any_size`] does, in at most as many threads as
    /// there are workers, which share the words of their blocks. The words take the memory of spare
    /// words, as far as these are of as many signals.
    pub fn set_tests_over<R: Threads + Wait>(
        &mut self,
        rt: &R,
        alloc: Global,
        tests: Tests,
        spare: SpareWords,
        workers: u32,
    ) -> Result<(), AllocError>
        requires tests { IsTestList tests }
        requires width { tests.width ≡ length (sources self.old.circuit) }
        ensures job { OnOk result (self.new ≡ with_tests self.old tests) }
        ensures kept { IfErr result (λ fault. self.new ≡ self.old) }
    {
        let flat = &self.parts.flat;
        let rows = fault_free_rows_in_threads(rt, alloc, flat, &tests, spare.rows, workers)?;
        self.parts.take_tests(tests, rows);
        Ok(())
    }

    /// Returns the tests and their fault-free words, so that another thread can free them. The job
    /// has no tests then. It fails only for memory, and then the job is as it was.
    pub fn give_tests(&mut self, alloc: Global) -> Result<SpentTests, AllocError>
        ensures job { OnOk result (self.new ≡ with_tests self.old
            (record { width = self.old.tests.width; tests = [] })) }
        ensures kept { IfErr result (λ fault. self.new ≡ self.old) }
    {
        let none = Tests::new(alloc, self.parts.tests.width());
        let rows = words_of(alloc, &self.parts.flat, &none)?;
        Ok(self.parts.exchange_tests(none, rows))
    }

    /// Forgets the tests, and returns the memory of their fault-free words. It fails only for
    /// memory, and then the job is as it was.
    pub fn give_words(&mut self, alloc: Global) -> Result<SpareWords, AllocError>
        ensures job { OnOk result (self.new ≡ with_tests self.old
            (record { width = self.old.tests.width; tests = [] })) }
        ensures kept { IfErr result (λ fault. self.new ≡ self.old) }
    {
        let spent = self.give_tests(alloc)?;
        Ok(SpareWords { rows: spent.rows })
    }

    /// Returns the circuit.
    pub fn circuit(&self) -> &Circuit
        ensures part { result.now ≡ self.now.circuit }
        ensures together { BelongTogether self.now }
    {
        self.parts.flat.circuit()
    }

    /// Returns the circuit in flat arrays, with the fault-free words of its signals.
    pub fn words(&self) -> GroupWords<'_>
        ensures part { result.circuit.now.statements ≡ self.now.circuit }
        ensures arranged { IsArranged self.now.circuit result.circuit.now.arranged }
        ensures together { BelongTogether self.now }
        ensures count { length result.rows.now ≡ groups (length self.now.tests.tests) }
        ensures fault_free { AreFaultFree result.circuit.now.arranged self.now.tests.tests
            (map (λ row. row.items) result.rows.now) }
    {
        let parts = &*self.parts;
        let _signals = parts.flat.signals();
        GroupWords {
            circuit: &parts.flat,
            rows: parts.rows.as_slice(),
        }
    }

    /// Returns for each signal its place, by the signal's number: its number in a topological order
    /// in which signals that are near in the circuit are near. A run that visits regions in the
    /// order of their stems' places finds its data in the caches.
    pub fn places(&self) -> &[u32]
        ensures count { length result.now ≡ length (names self.now.circuit) }
        ensures places { (arranged : List Statement) × IsArranged self.now.circuit arranged
            × ArePlaces self.now.circuit arranged result.now }
    {
        let parts = &*self.parts;
        parts.flat.places()
    }

    /// Returns the fault list.
    pub fn faults(&self) -> &Faults
        ensures part { result.now ≡ self.now.list }
        ensures together { BelongTogether self.now }
    {
        &self.parts.faults
    }

    /// Returns the classes of the faults.
    pub fn classes(&self) -> &Classes
        ensures part { result.now ≡ self.now.classes }
        ensures together { BelongTogether self.now }
    {
        &self.parts.classes
    }

    /// Returns the tests.
    pub fn tests(&self) -> &Tests
        ensures part { result.now ≡ self.now.tests }
        ensures together { BelongTogether self.now }
    {
        &self.parts.tests
    }

    /// Returns the representative of a class.
    pub fn representative(&self, class: u32) -> Stuck
        requires { class < length self.now.classes.representative }
        ensures { IsRepresentativeOf self.now class result }
    {
        let parts = &*self.parts;
        parts.representatives[class as usize]
    }

    /// Returns a class as an entry of a list of classes.
    pub fn listed(&self, class: u32) -> ListedClass
        requires { class < length self.now.classes.representative }
        ensures class { result.class ≡ class }
        ensures listed { IsListed self.now result }
    {
        ListedClass {
            class,
            stem: self.stem_of_class(class),
            representative: self.representative(class),
        }
    }

    /// Returns whether a class is dead: the stem of its region reaches no observer. No test of any
    /// blocks detects a dead class.
    pub fn is_dead(&self, row: ListedClass) -> bool
        requires { IsListed self.now row }
        ensures { result ≡ true → (span : BlockSpan) → IsFirstOn self.now span row.class None }
    {
        let parts = &*self.parts;
        let _signals = parts.flat.signals();
        let stem = parts.flat.place_of(row.stem);
        !parts.flat.is_live(stem)
    }

    /// Returns the last block that is simulated together with a block. If a unit of 512 tests
    /// begins with it, and 512 tests come before it, this is the last of the unit's eight blocks.
    /// Else, from the third block on, it is the other block of its group of two, if that comes
    /// after it. Otherwise it is the block itself.
    pub fn last_together(&self, block: u32) -> u32
        requires { block < blocks (length self.now.tests.tests) }
        ensures last { result ≡ (unit_of (length self.now.tests.tests) block).last }
        ensures together { (other : ℕ) → ((block ≤ other) × (other ≤ result))
            ↔ IsTogether (length self.now.tests.tests) block other }
    {
        BlockSpan::unit_from(&self.parts.tests, block).last
    }

    /// Returns the number, from 0, of the signal that is the stem of a class: the stem of the
    /// fanout-free region of its representative. A signal is a stem unless its fanout is one pin of
    /// one gate. A fault on a gate's pin lies in the region of the gate's signal. Any other fault
    /// lies in the region of the signal that its line carries. (Lee and Ha, HOPE: An Efficient
    /// Parallel Fault Simulator.)
    pub fn stem_of_class(&self, class: u32) -> u32
        requires { class < length self.now.classes.representative }
        ensures stem { IsStemOfClass self.now.list.model self.now.circuit class result }
        ensures within { result < length (names self.now.circuit) }
    {
        let parts = &*self.parts;
        parts.class_stems[class as usize]
    }

    /// Returns the class after this one in the circle of its region.
    pub fn next_in_region(&self, class: u32) -> u32
        requires { class < length self.now.classes.representative }
        ensures { result < length self.now.classes.representative }
    {
        let parts = &*self.parts;
        parts.next_in_region[class as usize]
    }

    /// Returns the fault-free word of a signal, by the signal's number from 0: bit k, from the
    /// least, is the signal's bit under test `64 * block + k`. Past the last test it is the bit
    /// under a test of zeros.
    pub fn word(&self, block: u32, signal: u32) -> u64
        requires block { block < blocks (length self.now.tests.tests) }
        requires signal { signal < length (names self.now.circuit) }
        ensures { IsFaultFreeWord self.now.circuit self.now.tests.tests block signal result }
    {
        let parts = &*self.parts;
        let _signals = parts.flat.signals();
        let place = parts.flat.place_of(signal);
        block_word(parts.rows[(block / 2) as usize][place as usize], block)
    }
}

/// Returns the fault-free words of tests, in memory of their own.
fn words_of(alloc: Global, flat: &FlatCircuit, tests: &Tests) -> Result<Vec<Vec<u128>>, AllocError>
    requires width { tests.now.width ≡ length (sources flat.now.statements) }
    ensures count { IfOk result (λ rows. length (map (λ row. row.items) rows.items)
        ≡ groups (length tests.now.tests)) }
    ensures rows { IfOk result (λ rows. AreFaultFree flat.now.arranged tests.now.tests
        (map (λ row. row.items) rows.items)) }
{
    fault_free_rows(alloc, flat, tests, Vec::new(alloc))
}

/// Makes the flat arrays of a circuit and the lists of its classes under a model. If the circuit is
/// large, and there is a second worker, a thread or two make the lists at the same time.
fn rows_and_lists<R: Threads + Wait>(
    rt: &R,
    alloc: Global,
    circuit: &Circuit,
    model: fault_model::Model,
    workers: u32,
) -> (Result<FlatRows, AllocError>, Result<ClassLists, AllocError>)
    ensures rows { IfOk result.0 (λ rows. AreFlatRows circuit.now rows) }
    ensures lists { IfOk result.1 (λ lists. AreClassLists circuit.now lists) }
    ensures model { IfOk result.1 (λ lists. lists.faults.model ≡ model) }
{
    if workers < 2 || circuit.signals() < LARGE_CIRCUIT {
        let rows = flat_rows(alloc, circuit);
        return (rows, class_lists_under(rt, alloc, circuit, model, 1));
    }
    let threads = if workers < WORKERS_FOR_LISTS { 1 } else { 2 };
    let (lists, rows) = thread::join(
        rt,
        move || class_lists_under(&StandIn::<R>::new(), alloc, circuit, model, threads),
        move || flat_rows_in_threads(rt, alloc, circuit, workers - threads),
    );
    (rows, lists)
}

/// Returns a circuit in flat arrays, with the lists of its classes under a model.
fn flat_and_lists<R: Threads + Wait>(
    rt: &R,
    alloc: Global,
    circuit: Circuit,
    model: fault_model::Model,
    workers: u32,
) -> Result<(FlatCircuit, ClassLists), AllocError>
    ensures flat { IfOk result (λ made. made.0.statements ≡ circuit) }
    ensures lists { IfOk result (λ made. AreClassLists circuit made.1) }
    ensures model { IfOk result (λ made. made.1.faults.model ≡ model) }
{
    let (rows, lists) = rows_and_lists(rt, alloc, &circuit, model, workers);
    let lists = lists?;
    Ok((FlatCircuit::with_rows(circuit, rows?), lists))
}

/// Returns whether classes times blocks are more than [`patterns::MAX_PIECES`].
pub fn has_too_many_pieces(classes: &Classes, tests: &Tests) -> bool
    ensures { IsTrue result ↔ (max_pieces
        < length classes.now.representative * blocks (length tests.now.tests)) }
{
    u64::from(classes.count()) * u64::from(tests.blocks()) > u64::from(MAX_PIECES)
}
