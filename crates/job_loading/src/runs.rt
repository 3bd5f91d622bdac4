//! The runs of the jobs of two files.

ghost use Rattle.std.specs.Prelude.{◌≡◌, IfErr, IfOk, IfSome, is_some, string_bytes, true};
ghost use Rattle.bench_net.specs.Refusal.{IsAccepted};
ghost use Rattle.block_sim.specs.JobParts.{IsJobUnder};
ghost use Rattle.block_sim.specs.Parts.{BelongTogether, with_tests};
ghost use Rattle.job_loading.specs.Jobs.{AreTestsFor, IsJobOf};
ghost use Rattle.job_loading.specs.Limits.{IsLimitFault, IsLimitFaultFor, IsLimitFaultForSome};
ghost use Rattle.job_loading.specs.Limits.{IsWithinLimit};
ghost use Rattle.job_loading.specs.Sums.{sum_text};

use crate::fault::SimFault;
use crate::pieces::read_job_in_pieces;
use crate::texts::read_inputs_in_threads;
use bench_net::Circuit;
use block_sim::{Job, JobFault, has_too_many_pieces};
use fault_model::Model;
use patterns::Tests;
use region_runs::RunJob;
use std::alloc::{AllocError, Global};
use std::io::Read;
use std::sync::Wait;
use std::thread::Threads;

/// What limits the size of a job.
#[derive(Clone, Copy, Debug, PartialEq, Eq)]
pub enum Limit {
    /// It has at most as many pieces as a ledger takes, [`patterns::MAX_PIECES`].
    Pieces,
    /// Only memory limits it.
    None,
}

/// Reads the job of a bench file and a test file under a model, for a run of all its classes or of
/// a part of them.
///
/// It reads the files in about as many threads as there are workers, with the errors of
/// [`crate::read_inputs`]. Only with [`Limit::Pieces`] does it check the number of pieces. If
/// `apart` is set, the tests may stand apart, so that the run goes window by window.
pub fn read_run<R: Threads + Wait>(
    rt: &R,
    alloc: Global,
    model: Model,
    bench: &[u8],
    tests: &[u8],
    limit: Limit,
    apart: bool,
    workers: u32,
) -> Result<RunJob, SimFault>
    ensures job { IfOk result (λ run. IsJobOf model bench.now tests.now run.whole) }
    ensures within { IfOk result (λ run. IsWithinLimit limit run.whole) }
    ensures apart { IfOk result (λ run. run.apart ≡ true → apart ≡ true) }
    ensures refused { IfErr result (IsLimitFault model bench.now tests.now limit) }
{
    let (circuit, tests) = read_inputs_in_threads(rt, alloc, bench, tests, workers)?;
    run_for(rt, alloc, model, circuit, tests, limit, apart, workers)
}

/// Makes the job of a circuit and of tests for it under a model, as [`read_run`] does of files.
fn run_for<R: Threads + Wait>(
    rt: &R,
    alloc: Global,
    model: Model,
    circuit: Circuit,
    tests: Tests,
    limit: Limit,
    apart: bool,
    workers: u32,
) -> Result<RunJob, SimFault>
    requires tests { AreTestsFor circuit tests }
    ensures job { IfOk result (λ run. IsJobUnder model circuit tests run.whole) }
    ensures within { IfOk result (λ run. IsWithinLimit limit run.whole) }
    ensures apart { IfOk result (λ run. run.apart ≡ true → apart ≡ true) }
    ensures refused { IfErr result (IsLimitFaultFor model circuit tests limit) }
{
    let none = Tests::new(alloc, tests.width());
    let job = Job::under_model(rt, alloc, model, circuit, none, workers)?;
    run_within(rt, alloc, job, tests, limit, apart, workers)
}

/// Reads the job of a bench file and of a test file that is read piece by piece, as [`read_run`]
/// reads that of all bytes of the files, with the same errors.
///
/// It returns the sum of the test file ([`crate::sum_of`]), too, if `is_summed` is set.
///
/// It returns `None` if it can't read the files so: there is an error in a file, the tests can't be
/// read piece by piece ([`test_threads::read_tests_in_pieces`]), or memory runs out.
pub fn read_run_in_pieces<R: Threads + Wait, F: Read + Send>(
    rt: &R,
    alloc: Global,
    model: Model,
    bench: &[u8],
    tests: F,
    size: u64,
    is_summed: bool,
    limit: Limit,
    apart: bool,
    workers: u32,
) -> Option<Result<(RunJob, Option<String>), SimFault>>
where
    F: Drop,
    ensures job { IfSome (F.remaining tests) (λ text. IfSome result (λ read.
        IfOk read (λ made. IsJobOf model bench.now text made.0.whole))) }
    ensures circuit { IfSome result (λ read. IfOk read (λ made.
        IsAccepted bench.now made.0.whole.circuit)) }
    ensures model { IfSome result (λ read. IfOk read (λ made.
        made.0.whole.list.model ≡ model)) }
    ensures together { IfSome result (λ read. IfOk read (λ made. BelongTogether made.0.whole)) }
    ensures within { IfSome result (λ read. IfOk read (λ made.
        IsWithinLimit limit made.0.whole)) }
    ensures apart { IfSome result (λ read. IfOk read (λ made.
        made.0.apart ≡ true → apart ≡ true)) }
    ensures sum { IfSome (F.remaining tests) (λ text. IfSome result (λ read.
        IfOk read (λ made. IfSome made.1 (λ sum. string_bytes sum ≡ sum_text text)))) }
    ensures summed { IfSome result (λ read. IfOk read (λ made. is_some made.1 ≡ is_summed)) }
    ensures refused { IfSome (F.remaining tests) (λ text. IfSome result (λ read.
        IfErr read (IsLimitFault model bench.now text limit))) }
    ensures refused_for_some { IfSome result (λ read.
        IfErr read (IsLimitFaultForSome model bench.now limit)) }
{
    let (job, tests, sum) = read_job_in_pieces(
        rt, alloc, model, bench, tests, size, is_summed, workers,
    )?;
    match run_within(rt, alloc, job, tests, limit, apart, workers) {
        Ok(run) => Some(Ok((run, sum))),
        Err(fault) => Some(Err(fault)),
    }
}

/// Makes the run of a job with these tests in place of its own, within a limit. It computes no
/// fault-free words if there are too many pieces.
fn run_within<R: Threads + Wait>(
    rt: &R,
    alloc: Global,
    job: Job,
    tests: Tests,
    limit: Limit,
    apart: bool,
    workers: u32,
) -> Result<RunJob, SimFault>
    requires tests { AreTestsFor job.circuit tests }
    ensures job { IfOk result (λ run. IsJobUnder job.list.model job.circuit tests run.whole) }
    ensures within { IfOk result (λ run. IsWithinLimit limit run.whole) }
    ensures apart { IfOk result (λ run. run.apart ≡ true → apart ≡ true) }
    ensures refused { IfErr result (IsLimitFaultFor job.list.model job.circuit tests limit) }
{
    if limit == Limit::Pieces && has_too_many_pieces(job.classes(), &tests) {
        return Err(SimFault::Job(JobFault::TooManyPieces));
    }
    let run = run_with_tests(rt, alloc, job, tests, apart, workers)?;
    Ok(run)
}

/// Makes the run of a job with these tests in place of its own. They stand apart if they may, and
/// have more blocks than a window. If not, the threads compute the words of their blocks.
fn run_with_tests<R: Threads + Wait>(
    rt: &R,
    alloc: Global,
    job: Job,
    tests: Tests,
    apart: bool,
    workers: u32,
) -> Result<RunJob, AllocError>
    requires { AreTestsFor job.circuit tests }
    ensures job { IfOk result (λ run. IsJobUnder job.list.model job.circuit tests run.whole) }
    ensures kept { IfOk result (λ run. run.whole ≡ with_tests job tests) }
    ensures apart { IfOk result (λ run. run.apart ≡ true → apart ≡ true) }
{
    let mut run = RunJob::whole(job);
    if apart {
        run.set_tests(rt, alloc, tests, workers)?;
    } else {
        run.set_own_tests(rt, alloc, tests, workers)?;
    }
    Ok(run)
}
