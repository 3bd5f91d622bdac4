//! The tests of a job that detect each class.

ghost use Rattle.std.specs.Prelude.{◌≡◌, ◌<◌, ◌≤◌, ◌/◌, ◌%◌, [], IfErr, IfOk, OnOk, length, map};
ghost use Rattle.std.specs.Prelude.{slice_index, slice_index_or};
ghost use Rattle.flat_circuit.specs.BlockSpans.{groups};
ghost use Rattle.flat_circuit.specs.Words.{lane};
ghost use Rattle.region_runs.specs.Refused.{IsOpenFault};
ghost use Rattle.compaction.specs.Detections.{detects_by, words_of};
ghost use Rattle.compaction.specs.Steepest.{DetectsClasses};

use block_sim::Job;
use n_detect::{ClassTests, class_tests};
use region_runs::Watch;
use std::alloc::Global;
use std::marker::Model;
use std::sync::Wait;
use std::thread::Threads;
use workers::RunFault;

/// The number of tests of which a word has the lanes.
pub(crate) const GROUP_SIZE: u32 = 128;

/// The tests of a job that detect each class: for each class a word for each group of 128 tests.
#[derive(Drop)]
pub(crate) struct Detections {
    /// For each class, by its number, its position.
    positions: Vec<u32>,
    /// At each position the words of the class there.
    rows: Vec<Vec<u128>>,
    tests: u32,
}

impl Model for Detections {
    ghost use Rattle.compaction.specs.Detections.{DetectionTable, HasGroups, words_of};

    ghost Value = { DetectionTable };

    ghost view = { λ d. record {
      words = words_of d.positions.items d.rows.items;
      tests = d.tests;
    } };

    ghost invariant = { λ d. HasGroups (record {
      words = words_of d.positions.items d.rows.items;
      tests = d.tests;
    }) };
}

impl Detections {
    /// Simulates each class of a job under all of its tests. The run is one in this number of
    /// stretches, under a gate that lets each piece pass.
    pub(crate) fn new<G: Watch + Sync, R: Threads + Wait>(
        rt: &R,
        alloc: Global,
        job: &Job,
        stretches: u32,
        workers: u32,
        gate: &G,
    ) -> Result<Detections, RunFault>
        requires passing { G.passing gate.now }
        requires stretches { 0 < stretches }
        ensures classes { IfOk result (λ d. length d.words
            ≡ length job.now.classes.representative) }
        ensures tests { IfOk result (λ d. d.tests ≡ length job.now.tests.tests) }
        ensures detects { IfOk result (λ d. DetectsClasses job.now.list.model job.now.circuit
            job.now.tests.tests (detects_by d)) }
        ensures workers { OnOk result ((0 < workers) × (workers ≤ 64)) }
        ensures refused { IfErr result (IsOpenFault workers) }
    {
        let found = class_tests(rt, alloc, job, stretches, workers, gate)?;
        let tests = job.tests().count();
        let ClassTests {
            positions,
            words: rows,
        } = found;
        Ok(Detections {
            positions,
            rows,
            tests,
        })
    }

    /// Returns the number of classes.
    pub(crate) fn classes(&self) -> usize
        ensures { result ≡ length self.now.words }
    {
        self.positions.len()
    }

    /// Returns the number of tests.
    pub(crate) fn tests(&self) -> u32
        ensures { result ≡ self.now.tests }
    {
        self.tests
    }

    /// Returns the number of groups of 128 tests.
    pub(crate) fn groups(&self) -> usize
        ensures { result ≡ groups self.now.tests }
    {
        self.tests.div_ceil(GROUP_SIZE) as usize
    }

    /// Returns whether a test detects a class.
    pub(crate) fn detects(&self, class: usize, test: u32) -> bool
        ensures { result ≡ detects_by self.now class test }
    {
        bit_of(self.row(class), test)
    }

    /// Returns the words of a class, one for each group of 128 tests. A lane is 1 if its test
    /// detects the class.
    pub(crate) fn row(&self, class: usize) -> &[u128]
        ensures words { result.now ≡ slice_index_or self.now.words class [] }
        ensures count { class < length self.now.words → length result.now ≡ groups self.now.tests }
    {
        row_of(self.positions.as_slice(), self.rows.as_slice(), class)
    }
}

/// Returns the words at the position of a class.
fn row_of<'r>(positions: &[u32], rows: &'r [Vec<u128>], class: usize) -> &'r [u128]
    ensures { result.now ≡ slice_index_or (words_of positions.now rows.now) class [] }
{
    match positions.get(class) {
        Some(position) => row_at(rows, *position),
        None => &[],
    }
}

/// Returns the words at a position.
fn row_at<'r>(rows: &'r [Vec<u128>], position: u32) -> &'r [u128]
    ensures { result.now ≡ slice_index_or (map (λ row. row.items) rows.now) position [] }
{
    match rows.get(position as usize) {
        Some(row) => row.as_slice(),
        None => &[],
    }
}

/// Returns the bit of a test in the words of a class.
fn bit_of(row: &[u128], test: u32) -> bool
    ensures { result ≡ lane (slice_index_or row.now (test / 128) 0) (test % 128) }
{
    match row.get((test / GROUP_SIZE) as usize) {
        Some(word) => lane_bit(*word, test % GROUP_SIZE),
        None => false,
    }
}

/// Returns the bit of a word at a lane.
pub(crate) fn lane_bit(word: u128, place: u32) -> bool
    requires { place < 128 }
    ensures { result ≡ lane word place }
{
    (word >> place) & 1 == 1
}
