//! The report with the lines of its faults put together by threads.

ghost use Rattle.std.specs.Prelude.{◌≡◌, length};
ghost use Rattle.fault_model.specs.Fault.{faults};
ghost use Rattle.byte_output.specs.Output.{Writes};
ghost use Rattle.report.specs.Report.{fault_lines, report, whole_report};

use crate::contents::{Contents, Lines};
use crate::fault_lines::FirstLines;
use crate::report::{put_class_coverage, put_firsts, put_total};
use bench_net::Circuit;
use block_sim::Job;
use byte_output::{Out, OutFailed};
use fault_model::Faults;
use job_loading::ReportFault;
use std::alloc::Global;
use std::sync::Wait;
use std::thread::Threads;
use threaded_lines::put_in_threads;
use workers::Verdicts;

/// Writes the report of a job and of the verdicts of its faults, with the same bytes as
/// [`crate::write_report_with`]. At most as many threads as there are workers put the lines of the
/// list together, in stretches of the list, which are written in order. If a thread doesn't start,
/// the caller's thread puts its lines together. If memory runs out, the caller's thread writes the
/// lines one by one, without memory.
///
/// # Errors
///
/// [`ReportFault::Write`] if the output takes nothing more. It has a beginning of the report.
pub(crate) fn write_report_in_threads<R: Threads + Wait, W: Out>(
    rt: &R,
    alloc: Global,
    job: &Job,
    verdicts: &Verdicts,
    contents: Contents,
    workers: u32,
    out: &mut W,
) -> Result<(), ReportFault>
    requires count { length verdicts.now.firsts ≡ length job.now.list.list }
    ensures { Writes result (W.seen out.old) (W.seen out.new)
        (whole_report job.now.list.model job.now.circuit job.now.classes verdicts.now.firsts
        contents) }
{
    put_report_in_threads(rt, alloc, job, verdicts, contents.lines, workers, out)?;
    put_class_coverage(job, verdicts, contents.classes, out)?;
    Ok(())
}

/// Writes the lines of the requested faults, and then the coverage line.
fn put_report_in_threads<R: Threads + Wait, W: Out>(
    rt: &R,
    alloc: Global,
    job: &Job,
    verdicts: &Verdicts,
    lines: Lines,
    workers: u32,
    out: &mut W,
) -> Result<(), OutFailed>
    requires count { length verdicts.now.firsts ≡ length job.now.list.list }
    ensures { Writes result (W.seen out.old) (W.seen out.new)
        (report job.now.list.model job.now.circuit verdicts.now.firsts lines) }
{
    let (circuit, list) = (job.circuit(), job.faults());
    put_firsts_in_threads(rt, alloc, circuit, list, verdicts, lines, workers, out)?;
    put_total(job, verdicts, out)
}

/// Writes the requested faults of the list, as [`put_firsts`] does and with the same bytes, by
/// [`put_in_threads`].
fn put_firsts_in_threads<R: Threads + Wait, W: Out>(
    rt: &R,
    alloc: Global,
    circuit: &Circuit,
    list: &Faults,
    verdicts: &Verdicts,
    lines: Lines,
    workers: u32,
    out: &mut W,
) -> Result<(), OutFailed>
    requires list { list.now.list ≡ faults list.now.model circuit.now }
    requires count { length verdicts.now.firsts ≡ length list.now.list }
    ensures { Writes result (W.seen out.old) (W.seen out.new)
        (fault_lines lines list.now.model circuit.now verdicts.now.firsts) }
{
    if lines == Lines::Omitted {
        return put_firsts(circuit, list, verdicts, lines, out);
    }
    let first_lines = FirstLines {
        circuit,
        list,
        verdicts,
        lines,
    };
    put_in_threads(rt, alloc, &first_lines, workers, out)
}
