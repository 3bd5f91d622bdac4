//! From the bytes of files to the bytes of the report or of the list of classes.

ghost use Rattle.std.specs.Prelude.{◌≢◌, ◌<◌, ◌≤◌, Err, IfOk, IfErr, OnOk};
ghost use Rattle.fault_model.specs.declared.Model.TheVariants as model;
ghost use Rattle.block_sim.specs.Parts.{BelongTogether, piece_count};
ghost use Rattle.report.specs.EndToEnd.{WritesOneOf, IsReportOf, IsReportFault, IsReportOfJob};
ghost use Rattle.report.specs.EndToEnd.{IsScheduleTextFault, HasSomeMoves, IsListingOf};
ghost use Rattle.report.specs.EndToEnd.{IsListFault, IsListingFault, IsListingOfCircuit};
ghost use Rattle.report.specs.EndToEnd.{IsScheduleReportFault};
ghost use Rattle.report.specs.Report.{contents_of};

use crate::contents::Contents;
use crate::report::{write_listing, write_report_with};
use crate::watched::simulate_text_watched;
use bench_net::{Circuit, read_bench};
use block_sim::Job;
use byte_output::{Out, Plain};
use fault_model::{Model, collapse, list_faults_in};
use job_loading::{Limit, ReportFault, SimFault, job_for, read_inputs};
use patterns::read_order;
use std::alloc::Global;
use std::sync::Wait;
use std::thread::Threads;
use workers::{OpenGate, run_schedule};

/// Reads a circuit and tests for it, and writes the report of the stuck-at faults:
/// [`simulate_text_in`] under [`Model::StuckAt`].
pub fn simulate_text<R: Threads + Wait, W: Out>(
    rt: &R,
    alloc: Global,
    bench: &[u8],
    tests: &[u8],
    workers: u32,
    list: bool,
    out: &mut W,
) -> Result<(), SimFault>
    ensures written { WritesOneOf (IsReportOf model.StuckAt bench.now tests.now (contents_of list))
        result
        (W.seen out.old) (W.seen out.new) }
    ensures refused { IfErr result (IsReportFault model.StuckAt bench.now tests.now workers) }
    ensures workers { OnOk result ((0 < workers) × (workers ≤ 64)) }
{
    let model = Model::StuckAt;
    simulate_text_in(rt, alloc, model, bench, tests, workers, list, out)
}

/// Reads a circuit and tests for it, and writes the report of the faults of a model: if `list` is
/// set, each fault with its first detecting test, and then the coverage. For other reports call
/// [`simulate_text_watched`], which does the work.
pub fn simulate_text_in<R: Threads + Wait, W: Out>(
    rt: &R,
    alloc: Global,
    model: Model,
    bench: &[u8],
    tests: &[u8],
    workers: u32,
    list: bool,
    out: &mut W,
) -> Result<(), SimFault>
    ensures written { WritesOneOf (IsReportOf model bench.now tests.now (contents_of list)) result
        (W.seen out.old) (W.seen out.new) }
    ensures refused { IfErr result (IsReportFault model bench.now tests.now workers) }
    ensures workers { OnOk result ((0 < workers) × (workers ≤ 64)) }
{
    let contents = Contents::of_list(list);
    simulate_text_with(rt, alloc, model, bench, tests, workers, contents, out)
}

/// Writes the report as [`simulate_text_watched`] does, with the limit on pieces and under a gate
/// that is open.
fn simulate_text_with<R: Threads + Wait, W: Out>(
    rt: &R,
    alloc: Global,
    model: Model,
    bench: &[u8],
    tests: &[u8],
    workers: u32,
    contents: Contents,
    out: &mut W,
) -> Result<(), SimFault>
    ensures written { WritesOneOf (IsReportOf model bench.now tests.now contents) result
        (W.seen out.old) (W.seen out.new) }
    ensures refused { IfErr result (IsReportFault model bench.now tests.now workers) }
    ensures workers { OnOk result ((0 < workers) × (workers ≤ 64)) }
{
    let limit = Limit::Pieces;
    simulate_text_watched(
        rt, alloc, model, bench, tests, limit, None, workers, contents, &OpenGate, out,
    )
}

/// Reads a circuit, tests for it and an order of moves, and writes the report of the stuck-at
/// faults: [`schedule_text_in`] under [`Model::StuckAt`].
pub fn schedule_text<W: Out>(
    alloc: Global,
    bench: &[u8],
    tests: &[u8],
    order: &[u8],
    workers: u32,
    list: bool,
    out: &mut W,
) -> Result<(), SimFault>
    ensures written { WritesOneOf (IsReportOf model.StuckAt bench.now tests.now (contents_of list))
        result
        (W.seen out.old) (W.seen out.new) }
    ensures refused { IfErr result
        (IsScheduleTextFault model.StuckAt bench.now tests.now order.now workers) }
    ensures order { OnOk result (HasSomeMoves order.now workers) }
    ensures workers { OnOk result ((0 < workers) × (workers ≤ 64)) }
{
    schedule_text_in(
        alloc,
        Model::StuckAt,
        bench,
        tests,
        order,
        workers,
        list,
        out,
    )
}

/// Reads a circuit, tests for it and an order of moves, and writes the report of the faults of a
/// model: if `list` is set, each fault with its first detecting test, and then the coverage. For
/// other reports call [`schedule_text_with`], which does the work.
pub fn schedule_text_in<W: Out>(
    alloc: Global,
    model: Model,
    bench: &[u8],
    tests: &[u8],
    order: &[u8],
    workers: u32,
    list: bool,
    out: &mut W,
) -> Result<(), SimFault>
    ensures written { WritesOneOf (IsReportOf model bench.now tests.now (contents_of list)) result
        (W.seen out.old) (W.seen out.new) }
    ensures refused { IfErr result
        (IsScheduleTextFault model bench.now tests.now order.now workers) }
    ensures order { OnOk result (HasSomeMoves order.now workers) }
    ensures workers { OnOk result ((0 < workers) × (workers ≤ 64)) }
{
    let contents = Contents::of_list(list);
    schedule_text_with(alloc, model, bench, tests, order, workers, contents, out)
}

/// Reads a circuit, tests for it and an order of moves, and writes the report of the faults of a
/// model, as [`simulate_text_watched`] does and with the same bytes. One thread does the work: it
/// makes the moves of the workers in the order of the file, and then lets all move in turn.
///
/// It reads the bench file before the tests, and the tests before the order. Then it checks the
/// number of pieces, and then the number of workers. With 0 workers each row of an order file has
/// an error already. It writes nothing before the verdicts are there.
pub fn schedule_text_with<W: Out>(
    alloc: Global,
    model: Model,
    bench: &[u8],
    tests: &[u8],
    order: &[u8],
    workers: u32,
    contents: Contents,
    out: &mut W,
) -> Result<(), SimFault>
    ensures written { WritesOneOf (IsReportOf model bench.now tests.now contents) result
        (W.seen out.old) (W.seen out.new) }
    ensures refused { IfErr result
        (IsScheduleTextFault model bench.now tests.now order.now workers) }
    ensures order { OnOk result (HasSomeMoves order.now workers) }
    ensures workers { OnOk result ((0 < workers) × (workers ≤ 64)) }
{
    let (circuit, tests) = read_inputs(alloc, bench, tests)?;
    let moves = read_order(alloc, order, workers)?;
    let job = job_for(alloc, model, circuit, tests)?;
    report_schedule(alloc, &job, &moves, workers, contents, out)
}

/// Runs a job by moves of workers on one thread, and writes its report.
fn report_schedule<W: Out>(
    alloc: Global,
    job: &Job,
    moves: &[u32],
    workers: u32,
    contents: Contents,
    out: &mut W,
) -> Result<(), SimFault>
    requires { BelongTogether job.now }
    ensures written { WritesOneOf (IsReportOfJob job.now contents) result
        (W.seen out.old) (W.seen out.new) }
    ensures refused { IfErr result
        (IsScheduleReportFault (piece_count job.now) moves.now workers) }
    ensures workers { OnOk result ((0 < workers) × (workers ≤ 64)) }
{
    let verdicts = run_schedule(alloc, job, workers, moves)?;
    write_report_with(job, &verdicts, contents, out)?;
    Ok(())
}

/// Reads a circuit and tests for it, and returns the report that [`simulate_text_watched`] writes
/// with the limit on pieces and under a gate that is open.
pub fn report_bytes<R: Threads + Wait>(
    rt: &R,
    alloc: Global,
    model: Model,
    bench: &[u8],
    tests: &[u8],
    workers: u32,
    contents: Contents,
) -> Result<Vec<u8>, SimFault>
    ensures report { IfOk result (λ bytes.
        IsReportOf model bench.now tests.now contents bytes.items) }
    ensures refused { IfErr result (IsReportFault model bench.now tests.now workers) }
    ensures unwritten { (fault : ReportFault) → result ≢ Err (SimFault.Report fault) }
    ensures workers { OnOk result ((0 < workers) × (workers ≤ 64)) }
{
    let mut out = Plain::new(Vec::new(alloc));
    match simulate_text_with(rt, alloc, model, bench, tests, workers, contents, &mut out) {
        Ok(()) => Ok(out.into_writer()),
        // A vector fails only for memory.
        Err(SimFault::Report(ReportFault::Write)) => Err(SimFault::Memory),
        Err(fault) => Err(fault),
    }
}

/// Reads a circuit, and writes its stuck-at faults with their classes: [`faults_text_in`] under
/// [`Model::StuckAt`].
pub fn faults_text<W: Out>(alloc: Global, bench: &[u8], out: &mut W) -> Result<(), SimFault>
    ensures written { WritesOneOf (IsListingOf model.StuckAt bench.now) result
        (W.seen out.old) (W.seen out.new) }
    ensures refused { IfErr result (IsListingFault bench.now) }
{
    faults_text_in(alloc, Model::StuckAt, bench, out)
}

/// Reads a circuit, and writes the faults of a model with their classes: each fault with its class,
/// and the number of both.
pub fn faults_text_in<W: Out>(
    alloc: Global,
    model: Model,
    bench: &[u8],
    out: &mut W,
) -> Result<(), SimFault>
    ensures written { WritesOneOf (IsListingOf model bench.now) result (W.seen out.old)
        (W.seen out.new) }
    ensures refused { IfErr result (IsListingFault bench.now) }
{
    let circuit = read_bench(alloc, bench)?;
    list_circuit(alloc, model, &circuit, out)
}

/// Lists the faults of a circuit, collapses them, and writes both.
fn list_circuit<W: Out>(
    alloc: Global,
    model: Model,
    circuit: &Circuit,
    out: &mut W,
) -> Result<(), SimFault>
    ensures written { WritesOneOf (IsListingOfCircuit model circuit.now) result (W.seen out.old)
        (W.seen out.new) }
    ensures refused { IfErr result IsListFault }
{
    let list = list_faults_in(alloc, circuit, model)?;
    let classes = collapse(alloc, circuit, &list)?;
    write_listing(circuit, &list, &classes, out)?;
    Ok(())
}

/// Reads a circuit, and returns the bytes that [`faults_text_in`] writes.
pub fn listing_bytes(alloc: Global, model: Model, bench: &[u8]) -> Result<Vec<u8>, SimFault>
    ensures listing { IfOk result (λ bytes. IsListingOf model bench.now bytes.items) }
    ensures refused { IfErr result (IsListingFault bench.now) }
    ensures unwritten { (fault : ReportFault) → result ≢ Err (SimFault.Report fault) }
{
    let mut out = Plain::new(Vec::new(alloc));
    match faults_text_in(alloc, model, bench, &mut out) {
        Ok(()) => Ok(out.into_writer()),
        // A vector fails only for memory.
        Err(SimFault::Report(_)) => Err(SimFault::Memory),
        Err(fault) => Err(fault),
    }
}
