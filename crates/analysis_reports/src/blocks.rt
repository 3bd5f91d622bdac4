//! The report of the coverage of each block.

ghost use Rattle.std.specs.Prelude.{◌≡◌, ◌<◌, ◌≤◌, ◌^◌, ◌++◌, All, IfErr, IfOk, OnOk, is_some};
ghost use Rattle.std.specs.Prelude.{length};
ghost use Rattle.std.specs.Prelude.{map, true};
ghost use Rattle.std.specs.List.{flat_map};
ghost use Rattle.fault_model.specs.Fault.{faults};
ghost use Rattle.block_coverage.specs.Blocks.{byte_of};
ghost use Rattle.block_sim.specs.Parts.{BelongTogether};
ghost use Rattle.byte_output.specs.Output.{Writes};
ghost use Rattle.region_runs.specs.Refused.{IsFirstsFault};
ghost use Rattle.report.specs.EndToEnd.{IsJobTextFault, IsListFault, WritesOneOf};
ghost use Rattle.analysis_reports.specs.Blocks.{IsBlockReport, IsBlockReportOfJob, flagged};
ghost use Rattle.analysis_reports.specs.Blocks.{row_line};
ghost use Rattle.report.specs.Report.{coverage_line};

use bench_net::Circuit;
use block_coverage::{BlockRow, Separator, block_rows};
use byte_output::{Out, OutFailed, put_pieces};
use fault_model::Faults;
use job_loading::{ReportFault, RunJob, SimFault, Watch};
use report::put_coverage;
use std::alloc::{AllocError, Global};
use std::sync::Wait;
use std::thread::Threads;
use workers::Verdicts;

/// Runs a job in a number of stretches by workers in threads of their own, and writes the coverage
/// of its faults and of each block, as [`report::write_report_of_run`] writes its report.
///
/// The first line is the coverage line. A line `block NAME D of T (P.PP%)` follows for each block:
/// a test detects D of its T faults. [`block_coverage::block_rows`] defines the blocks and their
/// order.
///
/// # Examples
///
/// `u.z = AND(a, u.b)` with the tests `00`, `01` and `11` gives, for the separator `.`,
///
/// ```text
/// 4 of 6 (66.66%)
/// block u 3 of 4 (75.00%)
/// ```
pub fn write_blocks_of_run<R: Threads + Wait, G: Watch + Sync, W: Out>(
    rt: &R,
    alloc: Global,
    run: &mut RunJob,
    stretches: u32,
    workers: u32,
    separator: Separator,
    gate: &G,
    out: &mut W,
) -> Result<(), SimFault>
    requires job { BelongTogether run.old.whole }
    requires gate { run.old.apart ≡ true → G.passing gate.now }
    requires stretches { 0 < stretches }
    ensures written { WritesOneOf (IsBlockReportOfJob run.old.whole (byte_of separator)) result
        (W.seen out.old) (W.seen out.new) }
    ensures refused { IfErr result (IsJobTextFault workers
        (IsFirstsFault run.old.whole stretches workers (G.passing gate.now) (G.stops gate.now))) }
    ensures workers { OnOk result ((0 < workers) × (workers ≤ 64)) }
    ensures kept { run.new ≡ run.old }
{
    let verdicts = run.run(rt, alloc, stretches, workers, gate)?;
    let detected = detected_flags(alloc, &verdicts)?;
    let job = run.job();
    write_blocks(
        alloc,
        job.circuit(),
        job.faults(),
        &detected,
        separator,
        out,
    )
}

/// Returns whether each fault is detected, by its number.
///
/// # Errors
///
/// `AllocError` if there is no memory for a byte for each fault.
pub fn detected_flags(alloc: Global, verdicts: &Verdicts) -> Result<Vec<bool>, AllocError>
    ensures { IfOk result (λ flags. flags.items ≡ map is_some verdicts.now.firsts) }
{
    let mut flags = Vec::with_capacity(alloc, verdicts.total() as usize)?;
    for fault in 0..verdicts.total() {
        flags.push(verdicts.first(fault).is_some())?;
    }
    Ok(flags)
}

/// Writes the coverage of a fault list and of each block, as [`write_blocks_of_run`] does.
/// `detected` has a flag for each fault of the list: whether a test detects it.
///
/// # Errors
///
/// [`SimFault::Memory`] if there is no memory; nothing was written. [`SimFault::Report`] if the
/// output failed; it has a beginning of the report.
pub fn write_blocks<W: Out>(
    alloc: Global,
    circuit: &Circuit,
    list: &Faults,
    detected: &[bool],
    separator: Separator,
    out: &mut W,
) -> Result<(), SimFault>
    requires list { list.now.list ≡ faults list.now.model circuit.now }
    requires count { length detected.now ≡ length list.now.list }
    ensures written { WritesOneOf (IsBlockReport (byte_of separator) circuit.now list.now.list
        detected.now) result (W.seen out.old) (W.seen out.new) }
    ensures refused { IfErr result IsListFault }
{
    let signals = circuit.signals();
    prove!(signals > 0);
    let total = list.count();
    let rows = block_rows(alloc, circuit, list, detected, separator)?;
    put_blocks(count_flags(detected), total, &rows, out)?;
    Ok(())
}

/// Returns how many flags are set, of less than 2^32.
pub fn count_flags(flags: &[bool]) -> u32
    requires { length flags.now < 2 ^ 32 }
    ensures { result ≡ flagged flags.now }
{
    flags.iter().filter(|flag| **flag).count() as u32
}

/// Writes the coverage line, and a line for each row.
fn put_blocks<W: Out>(
    detected: u32,
    faults: u32,
    rows: &[BlockRow],
    out: &mut W,
) -> Result<(), ReportFault>
    requires some { 0 < faults }
    requires each { All (λ row. 0 < row.faults) rows.now }
    ensures { Writes result (W.seen out.old) (W.seen out.new)
        (coverage_line detected faults ++ flat_map row_line rows.now) }
{
    put_coverage(detected, faults, "", out)?;
    put_lines(rows, out)?;
    Ok(())
}

/// Writes a line for each row.
fn put_lines<W: Out>(rows: &[BlockRow], out: &mut W) -> Result<(), OutFailed>
    requires { All (λ row. 0 < row.faults) rows.now }
    ensures { Writes result (W.seen out.old) (W.seen out.new)
        (flat_map row_line rows.now) }
{
    for row in rows {
        put_line(row, out)?;
    }
    Ok(())
}

/// Writes the line of a row.
fn put_line<W: Out>(row: &BlockRow, out: &mut W) -> Result<(), OutFailed>
    requires { 0 < row.now.faults }
    ensures { Writes result (W.seen out.old) (W.seen out.new) (row_line row.now) }
{
    put_pieces(&["block ", row.name, " "], out)?;
    put_coverage(row.detected, row.faults, "", out)
}
