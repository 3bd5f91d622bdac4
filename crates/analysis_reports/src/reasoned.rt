//! The report of the undetected faults with their reasons.

ghost use Rattle.std.specs.Prelude.{◌≡◌, ◌<◌, ◌≤◌, IfErr, OnOk, Some, true};
ghost use Rattle.std.specs.Prelude.{count_by, length, slice_get, zip};
ghost use Rattle.std.specs.List.{flat_map};
ghost use Rattle.fault_model.specs.Fault.{faults};
ghost use Rattle.block_sim.specs.Parts.{BelongTogether};
ghost use Rattle.byte_output.specs.Output.{Writes};
ghost use Rattle.region_runs.specs.Refused.{IsFirstsFault};
ghost use Rattle.analysis_reports.specs.Reasons.{reason_counts_of};
ghost use Rattle.report.specs.EndToEnd.{IsJobTextFault, WritesOneOf};
ghost use Rattle.analysis_reports.specs.Reasons.{IsReasonReportOfJob, has_reason};
ghost use Rattle.analysis_reports.specs.Reasons.{reason_line, reason_report, reason_text};
ghost use Rattle.analysis_reports.specs.Reasons.{reason_totals};
ghost use Rattle.analysis_reports.specs.Reasons.{reasons_between, reasons_line};

use crate::reason_lines::ReasonLines;
use bench_net::Circuit;
use block_sim::Job;
use byte_output::{Out, OutFailed, put_pieces};
use fault_model::Faults;
use itoa::Buffer;
use job_loading::{ReasonCounts, ReportFault, RunJob, SimFault, Watch};
use report::{Contents, Lines, put_fault_line, write_report_with};
use std::alloc::Global;
use std::sync::Wait;
use std::thread::Threads;
use threaded_lines::put_in_threads;
use undetected::{Reason, reasons};
use workers::Verdicts;

/// Runs a job in a number of stretches, and writes the report of the faults that no test detects,
/// each with the reason why none does. The report has a line for each of these faults, and then the
/// coverage line. With `classes` the coverage of the classes follows. Last comes the number of
/// faults for each reason, which the gate learns, too. Else it works and fails as
/// [`report::write_report_of_run`] does.
///
/// # Examples
///
/// `z = AND(a, b)` with the tests `00`, `01` and `10` gives
///
/// ```text
/// stem a sa0 none not observed
/// stem b sa0 none not observed
/// stem z sa0 none not activated
/// 3 of 6 (50.00%)
/// 0 no path, 1 not activated, 2 not observed
/// ```
pub fn write_reasons_of_run<R: Threads + Wait, G: Watch + Sync, W: Out>(
    rt: &R,
    alloc: Global,
    run: &mut RunJob,
    stretches: u32,
    workers: u32,
    classes: bool,
    gate: &G,
    out: &mut W,
) -> Result<(), SimFault>
    requires job { BelongTogether run.old.whole }
    requires gate { run.old.apart ≡ true → G.passing gate.now }
    requires stretches { 0 < stretches }
    ensures written { WritesOneOf (IsReasonReportOfJob run.old.whole classes) result
        (W.seen out.old) (W.seen out.new) }
    ensures refused { IfErr result (IsJobTextFault workers
        (IsFirstsFault run.old.whole stretches workers (G.passing gate.now) (G.stops gate.now))) }
    ensures workers { OnOk result ((0 < workers) × (workers ≤ 64)) }
    ensures kept { run.new ≡ run.old }
{
    let verdicts = run.run(rt, alloc, stretches, workers, gate)?;
    let reasons = reasons(rt, alloc, run, &verdicts, workers)?;
    gate.explains(reason_counts(&reasons));
    write_reasons(
        rt,
        alloc,
        run.job(),
        &verdicts,
        reasons.as_slice(),
        classes,
        workers,
        out,
    )?;
    Ok(())
}

/// Writes the report of the undetected faults of a job with their reasons, as
/// [`undetected::reasons`] returns them. At most as many threads as there are workers put the lines
/// together. If the output takes nothing more, it has a beginning of the report.
fn write_reasons<R: Threads + Wait, W: Out>(
    rt: &R,
    alloc: Global,
    job: &Job,
    verdicts: &Verdicts,
    reasons: &[Option<Reason>],
    classes: bool,
    workers: u32,
    out: &mut W,
) -> Result<(), ReportFault>
    requires verdicts { length verdicts.now.firsts ≡ length job.now.list.list }
    requires reasons { length reasons.now ≡ length job.now.list.list }
    ensures { Writes result (W.seen out.old) (W.seen out.new)
        (reason_report job.now.list.model job.now.circuit job.now.classes verdicts.now.firsts
        reasons.now classes) }
{
    let (circuit, list) = (job.circuit(), job.faults());
    put_reasons(rt, alloc, circuit, list, reasons, workers, out)?;
    write_totals(job, verdicts, reasons, classes, out)
}

/// Writes the report without lines of faults, and then the number of faults for each reason.
fn write_totals<W: Out>(
    job: &Job,
    verdicts: &Verdicts,
    reasons: &[Option<Reason>],
    classes: bool,
    out: &mut W,
) -> Result<(), ReportFault>
    requires { length verdicts.now.firsts ≡ length job.now.list.list }
    ensures { Writes result (W.seen out.old) (W.seen out.new)
        (reason_totals job.now.list.model job.now.circuit job.now.classes verdicts.now.firsts
        reasons.now classes) }
{
    let contents = Contents {
        lines: Lines::Omitted,
        classes,
    };
    write_report_with(job, verdicts, contents, out)?;
    put_reason_counts(reasons, out)?;
    Ok(())
}

/// Writes a line for each fault that has a reason, by [`put_in_threads`].
fn put_reasons<R: Threads + Wait, W: Out>(
    rt: &R,
    alloc: Global,
    circuit: &Circuit,
    list: &Faults,
    reasons: &[Option<Reason>],
    workers: u32,
    out: &mut W,
) -> Result<(), OutFailed>
    requires list { list.now.list ≡ faults list.now.model circuit.now }
    requires count { length reasons.now ≡ length list.now.list }
    ensures { Writes result (W.seen out.old) (W.seen out.new)
        (flat_map (reason_line circuit.now)
        (zip (faults list.now.model circuit.now) reasons.now)) }
{
    let lines = ReasonLines {
        circuit,
        list,
        reasons,
    };
    put_in_threads(rt, alloc, &lines, workers, out)
}

/// Writes a line for each fault of a stretch of the list that has a reason. The stretch has the
/// faults from one number up to another.
pub(crate) fn put_reason_lines<W: Out>(
    circuit: &Circuit,
    list: &Faults,
    reasons: &[Option<Reason>],
    start: u32,
    end: u32,
    out: &mut W,
) -> Result<(), OutFailed>
    requires list { list.now.list ≡ faults list.now.model circuit.now }
    requires count { length reasons.now ≡ length list.now.list }
    requires order { start ≤ end }
    requires within { end ≤ length list.now.list }
    ensures { Writes result (W.seen out.old) (W.seen out.new)
        (reasons_between circuit.now list.now.list reasons.now start end) }
{
    for fault in start..end {
        let Some(reason) = reason_at(reasons, fault) else {
            continue;
        };
        put_fault_line(circuit, list, fault, "none ", words_of(reason), out)?;
    }
    Ok(())
}

/// Returns the reason of the fault of a number.
fn reason_at(reasons: &[Option<Reason>], fault: u32) -> Option<Reason>
    requires { fault < length reasons.now }
    ensures { slice_get reasons.now fault ≡ Some result }
{
    reasons[fault as usize]
}

/// Returns the words of a reason.
pub fn words_of(reason: Reason) -> &'static str
    ensures { result.now ≡ reason_text reason }
{
    match reason {
        Reason::NoPath => "no path",
        Reason::NotActivated => "not activated",
        Reason::NotObserved => "not observed",
    }
}

/// Writes the number of faults for each reason.
fn put_reason_counts<W: Out>(reasons: &[Option<Reason>], out: &mut W) -> Result<(), OutFailed>
    ensures { Writes result (W.seen out.old) (W.seen out.new) (reasons_line reasons.now) }
{
    let mut no_path = Buffer::new();
    let mut not_activated = Buffer::new();
    let mut not_observed = Buffer::new();
    let pieces = [
        no_path.format(count_of(reasons, Reason::NoPath)),
        " no path, ",
        not_activated.format(count_of(reasons, Reason::NotActivated)),
        " not activated, ",
        not_observed.format(count_of(reasons, Reason::NotObserved)),
        " not observed\n",
    ];
    put_pieces(&pieces, out)
}

/// Returns how many faults have a reason.
fn count_of(reasons: &[Option<Reason>], reason: Reason) -> usize
    ensures { result ≡ count_by (has_reason reason) reasons.now }
{
    reasons.iter().filter(|own| **own == Some(reason)).count()
}

/// Counts the faults of each reason.
pub fn reason_counts(reasons: &[Option<Reason>]) -> ReasonCounts
    ensures { result ≡ reason_counts_of reasons.now }
{
    ReasonCounts {
        no_path: count_of(reasons, Reason::NoPath),
        not_activated: count_of(reasons, Reason::NotActivated),
        not_observed: count_of(reasons, Reason::NotObserved),
    }
}
