//! A small test generator that uses the library's calls: random tests, of which it only keeps tests
//! that detect new faults.
//!
//! [`generate`] tries random tests in rounds, one block of 64 after another, on the classes that no
//! kept test detects. It ends if all classes are detected, if 20 blocks in a row detect nothing
//! new, or at the greatest number of tests. (Bushnell and Agrawal, Essentials of Electronic
//! Testing, the chapter on combinational ATPG, has random test generation.)
#![tactic(auto)]

mod arguments;
mod best;
mod command;
mod held;
mod keeping;
mod options;
mod search;

ghost use Rattle.std.specs.Prelude.{◌<◌, ◌≤◌, IfErr, IfOk, OnOk, false};
ghost use Rattle.report.specs.EndToEnd.{IsReportOf};
ghost use Rattle.report.specs.declared.contents.Lines.TheVariants.{Omitted};
ghost use Rattle.generator.specs.Generated.{DetectsIfFound, HasFewRows, HasJob, IsCompacted};
ghost use Rattle.generator.specs.Generated.{HoldsInputs, IsGeneratorFault, NamesColumns};

use crate::best::{best_tests, needed_of_best};
use crate::held::held_bits;
use crate::search::search;
pub use arguments::run_arguments;
use bench_net::one_answer;
pub use command::run_words;
use fault_model::Model;
pub use held::{Held, HeldFault, HeldReason};
use patterns::laws::one_answer_of_tests;
use region_runs::RunJob;
use report::{Contents, Lines, SimFault, job_of, report_bytes};
use std::alloc::{AllocError, Global};
use std::sync::Wait;
use std::thread::Threads;
use test_columns::{columns_line, test_file};

/// The settings of a generator.
#[derive(Clone, Copy, Debug, PartialEq, Eq)]
pub struct Settings {
    /// The faults to detect.
    pub model: Model,
    /// The seed of the random tests. The same seed gives the same tests.
    pub seed: u64,
    /// The greatest number of tests to keep.
    pub most: u32,
    /// The number of workers that share the simulation, 1 to 64. The tests are the same for every
    /// number.
    pub workers: u32,
}

/// An error of a generator.
#[derive(Clone, Copy, Debug, PartialEq, Eq)]
pub enum GeneratorFault {
    /// The bench file or the number of workers has an error, or memory or a thread is missing.
    Sim(SimFault),
    /// An input can't be held.
    Held(HeldFault),
}

impl From<SimFault> for GeneratorFault {
    ghost use Rattle.std.specs.Prelude.{◌≡◌};
    ghost use Rattle.generator.specs.declared.GeneratorFault.TheVariants as fault;

    ghost from_gives = { λ f g. g ≡ fault.Sim f };

    fn from(fault: SimFault) -> GeneratorFault {
        GeneratorFault::Sim(fault)
    }
}

impl From<AllocError> for GeneratorFault {
    ghost use Rattle.std.specs.Prelude.{◌≡◌};
    ghost use Rattle.generator.specs.declared.GeneratorFault.TheVariants as fault;
    ghost use Rattle.job_loading.specs.declared.fault.SimFault.TheVariants as sim_fault;

    ghost from_gives = { λ _ g. g ≡ fault.Sim sim_fault.Memory };

    fn from(_error: AllocError) -> GeneratorFault {
        GeneratorFault::Sim(SimFault::Memory)
    }
}

/// Tests for a circuit, and their coverage.
#[derive(Drop)]
pub struct Generated {
    /// The test file. Its first line names the columns.
    pub tests: Vec<u8>,
    /// The coverage line of the tests.
    pub coverage: Vec<u8>,
}

/// Makes tests for the circuit of a bench file. Their file begins with the line that names the
/// columns ([`columns_line`]). The held inputs have their bits in each test.
///
/// The coverage is the report of the returned tests by [`report::report_bytes`], from a run of its
/// own over their file. Tests that were tried and left out don't count. The tests are a compaction
/// of the best that were found ([`compaction::compact`]), so each is needed. If at least two tests
/// are requested, some returned test detects a fault. This doesn't hold if there is no fault, or if
/// the random tests that were tried, at least 20 blocks of them, detect none.
///
/// It fails first for the bench file, then for a held input, then for the number of workers.
pub fn generate<R: Threads + Wait>(
    rt: &R,
    alloc: Global,
    bench: &[u8],
    held: &[Held<'_>],
    settings: Settings,
) -> Result<Generated, GeneratorFault>
    ensures coverage { IfOk result (λ made. IsReportOf settings.model bench.now made.tests.items
        (record {
          lines = Omitted;
          classes = false;
        }) made.coverage.items) }
    ensures columns { IfOk result (λ made. NamesColumns bench.now made.tests.items) }
    ensures few { IfOk result (λ made. HasFewRows bench.now settings.most made.tests.items) }
    ensures compacted { IfOk result (λ made.
        IsCompacted settings.model bench.now made.tests.items) }
    ensures some { IfOk result (λ made. 2 ≤ settings.most
        → DetectsIfFound settings.model bench.now held.now settings.seed made.tests.items) }
    ensures held { IfOk result (λ made. HoldsInputs bench.now held.now made.tests.items) }
    ensures workers { OnOk result ((0 < settings.workers) × (settings.workers ≤ 64)) }
    ensures refused { IfErr result (IsGeneratorFault bench.now held.now settings.workers) }
{
    // Laws: the report reads the same circuit and tests.
    one_answer();
    one_answer_of_tests();
    let tests = test_rows(rt, alloc, bench, held, settings)?;
    let contents = Contents {
        lines: Lines::Omitted,
        classes: false,
    };
    let Settings { model, workers, .. } = settings;
    let coverage = report_bytes(rt, alloc, model, bench, &tests, workers, contents)?;
    Ok(Generated { tests, coverage })
}

/// Returns a file of tests for the circuit of a bench file, within the limit of pieces. Each test
/// is needed, and the held inputs have their bits.
fn test_rows<R: Threads + Wait>(
    rt: &R,
    alloc: Global,
    bench: &[u8],
    held: &[Held<'_>],
    settings: Settings,
) -> Result<Vec<u8>, GeneratorFault>
    ensures columns { IfOk result (λ text. NamesColumns bench.now text.items) }
    ensures few { IfOk result (λ text. HasFewRows bench.now settings.most text.items) }
    ensures compacted { IfOk result (λ text. IsCompacted settings.model bench.now text.items) }
    ensures some { IfOk result (λ text. 2 ≤ settings.most
        → DetectsIfFound settings.model bench.now held.now settings.seed text.items) }
    ensures held { IfOk result (λ text. HoldsInputs bench.now held.now text.items) }
    ensures job { IfOk result (λ text. HasJob settings.model bench.now text.items) }
    ensures refused { IfErr result (IsGeneratorFault bench.now held.now settings.workers) }
{
    let mut job = job_of(alloc, settings.model, bench, b"")?;
    let line = columns_line(alloc, job.circuit())?;
    let bits = held_bits(alloc, job.circuit(), held)?;
    let found = search(rt, alloc, &mut job, &bits, settings)?;
    let mut run = RunJob::whole(job);
    let best = best_tests(rt, alloc, &mut run, found, settings)?;
    let needed = needed_of_best(rt, alloc, run, best, settings.workers)?;
    let _width = needed.width();
    Ok(test_file(alloc, line, &needed)?)
}
