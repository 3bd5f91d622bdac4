//! The report of a run that a gate watches.

ghost use Rattle.std.specs.Prelude.{◌≡◌, ◌<◌, ◌≤◌, IfErr, OnOk, true};
ghost use Rattle.block_sim.specs.Parts.{BelongTogether, Parts};
ghost use Rattle.job_loading.specs.Limits.{IsLimitedJob};
ghost use Rattle.region_runs.specs.Refused.{IsFirstsFault};
ghost use Rattle.report.specs.EndToEnd.{IsJobReportFault, IsReportByLedgers, IsReportOf};
ghost use Rattle.report.specs.EndToEnd.{IsReportOfByLedgers, IsReportOfJob};
ghost use Rattle.report.specs.EndToEnd.{IsWatchedFault, WritesOneOf};

use crate::contents::Contents;
use crate::in_threads::write_report_in_threads;
use byte_output::Out;
use fault_model::Model;
use job_loading::{Limit, RunJob, SimFault, Watch, read_run};
use std::alloc::Global;
use std::sync::Wait;
use std::thread::Threads;

/// Reads a circuit and tests for it, and writes the report of the faults of a model: the requested
/// faults with the first test that detects each, and then the coverage. Workers in threads of their
/// own do the work, and are joined before this returns. The report is the same for every number of
/// workers.
///
/// It reads the bench file before the tests, then checks the number of pieces, and then the number
/// of workers. It writes nothing before the verdicts are there.
///
/// It calls the gate when the run begins and when it ends, and asks it before each piece of work.
/// The gate decides whether there is a report, but not its bytes.
///
/// Under a gate that lets each piece pass it runs window by window if the tests have more blocks
/// than a window ([`region_runs::window_blocks`]).
///
/// The classes run in the requested number of stretches, or in one that suits the workers. The
/// report is the same for each. It fails with [`crate::RunFault::Unfinished`] if the gate stops
/// workers and not all classes are settled. With [`Limit::None`] it fails for no number of pieces.
pub fn simulate_text_watched<R: Threads + Wait, G: Watch + Sync, W: Out>(
    rt: &R,
    alloc: Global,
    model: Model,
    bench: &[u8],
    tests: &[u8],
    limit: Limit,
    stretches: Option<u32>,
    workers: u32,
    contents: Contents,
    gate: &G,
    out: &mut W,
) -> Result<(), SimFault>
    ensures written { WritesOneOf (IsReportOf model bench.now tests.now contents) result
        (W.seen out.old) (W.seen out.new) }
    ensures ledgers { WritesOneOf (IsReportOfByLedgers model bench.now tests.now stretches workers
        contents) result (W.seen out.old) (W.seen out.new) }
    ensures refused { IfErr result (IsWatchedFault model bench.now tests.now limit stretches workers
        (G.passing gate.now) (G.stops gate.now)) }
    ensures workers { OnOk result ((0 < workers) × (workers ≤ 64)) }
    ensures within { OnOk result
        ((job : Parts) × IsLimitedJob model bench.now tests.now limit job) }
{
    let apart = gate.lets_all_pass();
    let mut run = read_run(rt, alloc, model, bench, tests, limit, apart, workers)?;
    let count = run.stretches(stretches, workers);
    write_report_of_run(rt, alloc, &mut run, count, workers, contents, gate, out)
}

/// Runs a job in a number of stretches by workers in threads of their own, and writes its report.
/// It calls the gate when the run begins and when all is settled.
///
/// It is the second half of [`simulate_text_watched`], for a job that stands: such as that of a
/// test file that was read piece by piece ([`job_loading::read_run_in_pieces`]). It fails as
/// [`job_loading::RunJob::run`] does, or for the output.
pub fn write_report_of_run<R: Threads + Wait, G: Watch + Sync, W: Out>(
    rt: &R,
    alloc: Global,
    run: &mut RunJob,
    stretches: u32,
    workers: u32,
    contents: Contents,
    gate: &G,
    out: &mut W,
) -> Result<(), SimFault>
    requires job { BelongTogether run.old.whole }
    requires gate { run.old.apart ≡ true → G.passing gate.now }
    requires stretches { 0 < stretches }
    ensures written { WritesOneOf (IsReportOfJob run.old.whole contents) result
        (W.seen out.old) (W.seen out.new) }
    ensures ledgers { WritesOneOf (IsReportByLedgers run.old.whole stretches workers contents)
        result
        (W.seen out.old) (W.seen out.new) }
    ensures refused { IfErr result (IsJobReportFault workers
        (IsFirstsFault run.old.whole stretches workers (G.passing gate.now) (G.stops gate.now))) }
    ensures workers { OnOk result ((0 < workers) × (workers ≤ 64)) }
    ensures kept { run.new ≡ run.old }
{
    let verdicts = run.run(rt, alloc, stretches, workers, gate)?;
    write_report_in_threads(rt, alloc, run.job(), &verdicts, contents, workers, out)?;
    Ok(())
}
