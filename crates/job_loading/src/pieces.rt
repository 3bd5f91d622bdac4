//! The job of a bench file, and the tests of a test file that is read piece by piece.

ghost use Rattle.std.specs.Prelude.{◌≡◌, ◌/◌, IfSome, is_some, length, max, min, string_bytes};
ghost use Rattle.bench_net.specs.Refusal.{IsAccepted};
ghost use Rattle.bench_net.specs.Scan.{sources};
ghost use Rattle.patterns.specs.Tests.{HasTests, IsTestList};
ghost use Rattle.test_threads.specs.Pieces.{IsEnded};
ghost use Rattle.job_loading.specs.Jobs.{AreTestsFor};
ghost use Rattle.job_loading.specs.Sums.{sum_text};

use crate::sums::{FileText, SummedFile};
use crate::texts::{BYTES_OF_A_SOURCE, WORKERS_APART, is_long, is_very_long};
use bench_net::Circuit;
use bench_threads::read_bench_in_threads;
use block_sim::Job;
use fault_model::Model;
use patterns::Tests;
use std::alloc::Global;
use std::io::Read;
use std::marker::Brand;
use std::sync::Wait;
use std::thread::Threads;
use test_threads::{read_tests_beside, read_tests_in_pieces};

/// The least number of bytes of a test file that is read piece by piece, 4 MiB. One thread reads it
/// in some milliseconds.
pub const LONG_TESTS: u64 = 1 << 22;

/// The least number of bytes of a piece of a test file. A thread reads it in half a millisecond.
const LEAST_PIECE: u64 = 1 << 20;

/// The greatest number of bytes of a piece. Threads take pieces in turn, and wait for each other
/// less often if these are large: 175 MB of tests for a system of 69,000 gates took 0.92 of their
/// time with pieces of 4 MiB in place of 1.
const GREATEST_PIECE: u64 = 1 << 22;

/// The number of pieces of a test file, if these have a size between both.
const PIECES: u64 = 32;

/// Returns the number of bytes of a piece of a test file of `size` bytes, of which each thread that
/// reads it has one in memory: a 32nd of the file, but at least 1 MiB and at most 4 MiB.
pub fn piece_bytes(size: u64) -> u64
    ensures { result ≡ max (min (size / 32) 4194304) 1048576 }
{
    (size / PIECES).min(GREATEST_PIECE).max(LEAST_PIECE)
}

/// Makes the job of a bench file under a model, with no tests, and reads the tests for it from a
/// file of `size` bytes, of which only one piece of each thread is in memory
/// ([`read_tests_in_pieces`]). At most as many threads as there are workers read.
///
/// It returns the sum of the test file, too, if `is_summed` is set.
///
/// It returns `None` if there is an error in a file, the tests can't be read so, or memory runs
/// out.
pub(crate) fn read_job_in_pieces<R: Threads + Wait, F: Read + Send>(
    rt: &R,
    alloc: Global,
    model: Model,
    bench: &[u8],
    file: F,
    size: u64,
    is_summed: bool,
    workers: u32,
) -> Option<(Job, Tests, Option<String>)>
where
    F: Drop,
    ensures circuit { IfSome result (λ read. IsAccepted bench.now read.0.circuit) }
    ensures model { IfSome result (λ read. read.0.list.model ≡ model) }
    ensures tests { IfSome result (λ read. IfSome (F.remaining file) (λ text.
        HasTests text (length (sources read.0.circuit)) read.1)) }
    ensures fit { IfSome result (λ read. AreTestsFor read.0.circuit read.1) }
    ensures sum { IfSome result (λ read. IfSome (F.remaining file) (λ text.
        IfSome read.2 (λ sum. string_bytes sum ≡ sum_text text))) }
    ensures summed { IfSome result (λ read. is_some read.2 ≡ is_summed) }
{
    read_summed::<R, F, Brand>(rt, alloc, model, bench, file, size, is_summed, workers)
}

/// Makes the job and reads the tests through a reader that sums the bytes, if that is requested.
fn read_summed<R: Threads + Wait, F: Read + Send, T: FileText + Send>(
    rt: &R,
    alloc: Global,
    model: Model,
    bench: &[u8],
    file: F,
    size: u64,
    is_summed: bool,
    workers: u32,
) -> Option<(Job, Tests, Option<String>)>
where
    F: Drop,
    requires text { T.text ≡ F.remaining file }
    requires summed { T.summed ≡ is_summed }
    ensures circuit { IfSome result (λ read. IsAccepted bench.now read.0.circuit) }
    ensures model { IfSome result (λ read. read.0.list.model ≡ model) }
    ensures tests { IfSome result (λ read. IfSome (F.remaining file) (λ text.
        HasTests text (length (sources read.0.circuit)) read.1)) }
    ensures fit { IfSome result (λ read. AreTestsFor read.0.circuit read.1) }
    ensures sum { IfSome result (λ read. IfSome (F.remaining file) (λ text.
        IfSome read.2 (λ sum. string_bytes sum ≡ sum_text text))) }
    ensures summed { IfSome result (λ read. is_some read.2 ≡ is_summed) }
{
    let summed: SummedFile<F, T> = SummedFile::new(file, is_summed);
    let (job, read) = read_both(rt, alloc, model, bench, summed, size, workers);
    let (job, (tests, ended)) = (job?, read?);
    if tests.width() != job.circuit().sources() {
        return None;
    }
    let sum = ended.sum(alloc).ok()?;
    Some((job, tests, sum))
}

/// Makes the job of a bench file and then reads the tests, with all workers. If the bench file is
/// long, it does both at the same time: some workers read the tests, and the others make the job
/// and then read, too ([`Shares`]).
fn read_both<R: Threads + Wait, F: Read + Send>(
    rt: &R,
    alloc: Global,
    model: Model,
    bench: &[u8],
    file: F,
    size: u64,
    workers: u32,
) -> (Option<Job>, Option<(Tests, F)>)
where
    F: Drop,
    ensures accepted { IfSome result.0 (λ job. IsAccepted bench.now job.circuit) }
    ensures model { IfSome result.0 (λ job. job.list.model ≡ model) }
    ensures tests { IfSome result.1 (λ read. IfSome (F.remaining file) (λ text.
        HasTests text read.0.width read.0)) }
    ensures list { IfSome result.1 (λ read. IsTestList read.0) }
    ensures ended { IfSome result.1 (λ read. IsEnded (F.remaining file) (F.remaining read.1)) }
{
    let most = u32::try_from(bench.len() / BYTES_OF_A_SOURCE).unwrap_or(u32::MAX);
    let piece = piece_bytes(size) as usize;
    if workers < WORKERS_APART || !is_long(bench.len()) {
        let job = job_without_tests(rt, alloc, model, bench, workers, workers);
        let read = read_tests_in_pieces(rt, alloc, file, most, piece, workers);
        return (job, read);
    }
    let Shares {
        tests,
        bench: readers,
        job: makers,
    } = Shares::new(bench.len(), size, workers);
    read_tests_beside(
        rt,
        alloc,
        file,
        most,
        piece,
        tests,
        move || job_without_tests(rt, alloc, model, bench, readers, makers),
    )
}

/// How workers share the reading of a bench file and a test file.
#[derive(Clone, Copy)]
struct Shares {
    /// The number of workers that read the tests.
    tests: u32,
    /// The number of workers that read the bench file meanwhile.
    bench: u32,
    /// The number of workers that then make the job.
    job: u32,
}

impl Shares {
    /// Shares the work for a bench file of some bytes, and a test file of `size` bytes. Half of the
    /// workers read a very long test file, and one reads others, which end before the bench file.
    fn new(bench: usize, size: u64, workers: u32) -> Shares {
        if is_very_long(bench, size) {
            let half = workers / 2;
            Shares {
                tests: half,
                bench: workers - half,
                job: workers - half,
            }
        } else {
            Shares {
                tests: 1,
                bench: workers.saturating_sub(1),
                job: workers,
            }
        }
    }
}

/// Makes the job of a bench file under a model, with no tests: at most `readers` threads read the
/// file, and at most `workers` threads make the job. Returns `None` if there is an error in the
/// file, or memory runs out.
fn job_without_tests<R: Threads + Wait>(
    rt: &R,
    alloc: Global,
    model: Model,
    bench: &[u8],
    readers: u32,
    workers: u32,
) -> Option<Job>
    ensures accepted { IfSome result (λ job. IsAccepted bench.now job.circuit) }
    ensures model { IfSome result (λ job. job.list.model ≡ model) }
{
    match read_bench_in_threads(rt, alloc, bench, readers) {
        Ok(circuit) => job_of_circuit(rt, alloc, model, circuit, workers),
        Err(_) => None,
    }
}

/// Makes the job of a circuit under a model, with no tests, in at most as many threads as there are
/// workers. Returns `None` if memory runs out.
fn job_of_circuit<R: Threads + Wait>(
    rt: &R,
    alloc: Global,
    model: Model,
    circuit: Circuit,
    workers: u32,
) -> Option<Job>
    ensures circuit { IfSome result (λ job. job.circuit ≡ circuit) }
    ensures model { IfSome result (λ job. job.list.model ≡ model) }
{
    let none = Tests::new(alloc, circuit.sources());
    Job::under_model(rt, alloc, model, circuit, none, workers).ok()
}
