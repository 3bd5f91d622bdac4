//! The job of a bench file and a test file.

ghost use Rattle.std.specs.Prelude.{◌≡◌, ◌≤◌, ◌⊎◌, length, IfErr, IfOk, IfSome};
ghost use Rattle.bench_net.specs.Circuit.{IsCircuit};
ghost use Rattle.bench_net.specs.Refusal.{IsAccepted, IsRefused};
ghost use Rattle.bench_net.specs.Scan.{sources};
ghost use Rattle.patterns.specs.Tests.{HasTests, IsTestList, IsTestRefusal, max_pieces};
ghost use Rattle.block_sim.specs.Parts.{piece_count};
ghost use Rattle.block_sim.specs.JobParts.{IsJobUnder};
ghost use Rattle.job_loading.specs.Jobs.{AreTestsFor, IsInputFault, IsJobFault, IsJobOf};
ghost use Rattle.job_loading.specs.Jobs.{IsGuessOf, IsPiecesFault};

use crate::fault::SimFault;
use bench_net::{BenchFault, Circuit, read_bench};
use bench_threads::read_bench_in_threads;
use block_sim::Job;
use fault_model::{Model, collapse, list_faults_in};
use patterns::{TestFault, Tests, read_tests};
use std::alloc::Global;
use std::sync::Wait;
use std::thread;
use std::thread::Threads;
use test_threads::read_tests_in_threads;
use text_lines::Rows;

/// A bench file is long if it has this number of bytes. One thread reads them in about a
/// millisecond, 20 times as long as its start.
const LONG_BENCH: usize = 1 << 16;

/// The least number of workers with which one of them reads a bench file beside the others.
pub(crate) const WORKERS_APART: u32 = 4;

/// A test file is very long if it has this number of times as many bytes as the bench file. Two
/// threads then take about as long to read it as one thread takes to read the bench file. Piece by
/// piece, one thread takes about as long for it as one thread takes to make the job.
const TIMES_AS_LONG: u64 = 32;

/// The least number of bytes of the line that defines a source, as `INPUT(a)`.
pub(crate) const BYTES_OF_A_SOURCE: usize = 8;

/// Reads the job of a bench file and a test file under a model.
///
/// It reads the bench file before the tests. Then it checks the number of pieces: above
/// [`patterns::MAX_PIECES`] it fails with [`block_sim::JobFault::TooManyPieces`].
pub fn job_of(alloc: Global, model: Model, bench: &[u8], tests: &[u8]) -> Result<Job, SimFault>
    ensures job { IfOk result (IsJobOf model bench.now tests.now) }
    ensures few { IfOk result (λ job. piece_count job ≤ max_pieces) }
    ensures refused { IfErr result (IsJobFault model bench.now tests.now) }
{
    let (circuit, tests) = read_inputs(alloc, bench, tests)?;
    job_for(alloc, model, circuit, tests)
}

/// Reads the circuit of a bench file, and then the tests for it of a test file.
pub fn read_inputs(alloc: Global, bench: &[u8], tests: &[u8]) -> Result<(Circuit, Tests), SimFault>
    ensures circuit { IfOk result (λ read. IsAccepted bench.now read.0) }
    ensures tests { IfOk result (λ read. HasTests tests.now (length (sources read.0)) read.1) }
    ensures fit { IfOk result (λ read. AreTestsFor read.0 read.1) }
    ensures refused { IfErr result (IsInputFault bench.now tests.now) }
{
    let circuit = read_bench(alloc, bench)?;
    let tests = read_tests(alloc, tests, circuit.sources())?;
    Ok((circuit, tests))
}

/// Reads the circuit and the tests as [`read_inputs`] does, with the same errors, in about as many
/// threads as there are workers. All of them read the bench file, and then the tests. If the
/// bench file is long and the test file is very long, they read both at the same time: one thread
/// the bench file, and the others the tests, with the width of their first row as a guess. If the
/// circuit has another number of sources, they read the tests again.
pub(crate) fn read_inputs_in_threads<R: Threads + Wait>(
    rt: &R,
    alloc: Global,
    bench: &[u8],
    tests: &[u8],
    workers: u32,
) -> Result<(Circuit, Tests), SimFault>
    ensures circuit { IfOk result (λ read. IsAccepted bench.now read.0) }
    ensures tests { IfOk result (λ read. HasTests tests.now (length (sources read.0)) read.1) }
    ensures fit { IfOk result (λ read. AreTestsFor read.0 read.1) }
    ensures refused { IfErr result (IsInputFault bench.now tests.now) }
{
    let (circuit, guessed) = read_and_guess(rt, alloc, bench, tests, workers);
    let circuit = circuit?;
    let tests = tests_of_width(rt, alloc, tests, guessed, circuit.sources(), workers)?;
    Ok((circuit, tests))
}

/// Reads the circuit of a bench file, with all workers. If the bench file is long and the test file
/// is very long, one worker reads the circuit, and the others read the tests at the same time, with
/// a guessed width.
fn read_and_guess<R: Threads + Wait>(
    rt: &R,
    alloc: Global,
    bench: &[u8],
    tests: &[u8],
    workers: u32,
) -> (Result<Circuit, BenchFault>, Option<Tests>)
    ensures accepted { IfOk result.0 (λ c. IsAccepted bench.now c) }
    ensures circuit { IfOk result.0 (λ c. IsCircuit c) }
    ensures refused { IfErr result.0 (λ fault. (fault ≡ BenchFault.Memory)
        ⊎ IsRefused bench.now fault) }
    ensures guessed { IfSome result.1 (IsGuessOf tests.now) }
{
    if workers < WORKERS_APART || !is_very_long(bench.len(), tests.len() as u64) {
        return (read_bench_in_threads(rt, alloc, bench, workers), None);
    }
    let most = bench.len() / BYTES_OF_A_SOURCE;
    thread::join(
        rt,
        move || read_bench(alloc, bench),
        move || guess_tests(rt, alloc, tests, most, workers - 1),
    )
}

/// Returns whether a bench file of this number of bytes is long.
pub(crate) fn is_long(bench: usize) -> bool {
    bench >= LONG_BENCH
}

/// Returns whether a bench file of this number of bytes is long, and a test file beside it very
/// long.
pub(crate) fn is_very_long(bench: usize, tests: u64) -> bool {
    is_long(bench) && tests / TIMES_AS_LONG >= bench as u64
}

/// Reads tests with the width of their first row, if there is one. Returns `None` if the file has
/// an error at this width, or memory ran out. A row of more than `most` digits is no guess, so a
/// file without line feeds takes no memory.
fn guess_tests<R: Threads + Wait>(
    rt: &R,
    alloc: Global,
    text: &[u8],
    most: usize,
    workers: u32,
) -> Option<Tests>
    ensures { IfSome result (IsGuessOf text.now) }
{
    let first = Rows::new(text, 0).next()?;
    if first.bytes.len() > most {
        return None;
    }
    let width = u32::try_from(first.bytes.len()).ok()?;
    if width == 0 {
        return None;
    }
    read_tests_in_threads(rt, alloc, text, width, workers).ok()
}

/// Returns the tests of a file: the guessed ones if they have this width. If not, it lets them go
/// and reads the file.
fn tests_of_width<R: Threads + Wait>(
    rt: &R,
    alloc: Global,
    text: &[u8],
    guessed: Option<Tests>,
    width: u32,
    workers: u32,
) -> Result<Tests, TestFault>
    requires width { 1 ≤ width }
    requires guessed { IfSome guessed (IsGuessOf text.now) }
    ensures tests { IfOk result (λ t. HasTests text.now width t) }
    ensures list { IfOk result (λ t. IsTestList t) }
    ensures refused { IfErr result (λ fault.
        (fault ≡ TestFault.Memory) ⊎ IsTestRefusal text.now width fault) }
{
    if let Some(tests) = guessed {
        if tests.width() == width {
            return Ok(tests);
        }
    }
    read_tests_in_threads(rt, alloc, text, width, workers)
}

/// Makes the job of a circuit and of tests for it under a model. Only its number of pieces, or
/// memory, can make it fail.
pub fn job_for(alloc: Global, model: Model, circuit: Circuit, tests: Tests) -> Result<Job, SimFault>
    requires { AreTestsFor circuit tests }
    ensures job { IfOk result (IsJobUnder model circuit tests) }
    ensures few { IfOk result (λ job. piece_count job ≤ max_pieces) }
    ensures refused { IfErr result (IsPiecesFault model circuit tests) }
{
    let faults = list_faults_in(alloc, &circuit, model)?;
    let classes = collapse(alloc, &circuit, &faults)?;
    Ok(Job::new(alloc, circuit, faults, classes, tests)?)
}
