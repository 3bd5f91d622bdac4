//! The histogram of detections: how many faults each number of tests detects.

ghost use Rattle.std.specs.Prelude.{◌≡◌, ◌+◌, ◌-◌, ◌<◌, ◌≤◌, ◌^◌, ◌++◌, ℕ, IfErr, IfOk, OnOk};
ghost use Rattle.std.specs.Prelude.{get_or, length};
ghost use Rattle.block_sim.specs.Parts.{BelongTogether};
ghost use Rattle.byte_output.specs.Output.{Writes};
ghost use Rattle.analysis_reports.specs.Detected.{detection_report};
ghost use Rattle.region_runs.specs.Refused.{IsOpenFault};
ghost use Rattle.report.specs.EndToEnd.{IsJobReportFault, WritesOneOf};
ghost use Rattle.analysis_reports.specs.Histogram.{IsHistogramReportOfJob, histogram};
ghost use Rattle.analysis_reports.specs.Histogram.{histogram_line, histogram_text, one_with};

use crate::detected::write_detections;
use block_sim::Job;
use byte_output::{Out, OutFailed, put_pieces};
use itoa::Buffer;
use job_loading::{ReportFault, SimFault, Watch};
use n_detect::detections;
use region_runs::RunJob;
use std::alloc::{AllocError, Global};
use std::sync::Wait;
use std::thread::Threads;
use workers::RunFault;

/// Runs a job in a number of stretches, and writes how many tests detect each fault, as
/// [`crate::write_detections_of_run`] does, and then the histogram. The histogram has a line `COUNT
/// FAULTS` for each count from 0 to `most`, with the number of faults that this many tests detect.
/// The last line counts the faults that at least `most` tests detect.
///
/// The gate and the errors are those of that function.
///
/// # Examples
///
/// `z = AND(a, b)` with the tests `00`, `01`, `10` and `11` and a `most` of 3 gives, without a line
/// for each fault,
///
/// ```text
/// 1 of 6 (16.66%)
/// 0 0
/// 1 5
/// 2 0
/// 3 1
/// ```
pub fn write_histogram_of_run<R: Threads + Wait, G: Watch + Sync, W: Out>(
    rt: &R,
    alloc: Global,
    run: &mut RunJob,
    stretches: u32,
    workers: u32,
    most: u32,
    list: bool,
    gate: &G,
    out: &mut W,
) -> Result<(), SimFault>
    requires job { BelongTogether run.old.whole }
    requires stretches { 0 < stretches }
    requires passing { G.passing gate.now }
    ensures written { WritesOneOf (IsHistogramReportOfJob run.old.whole most list) result
        (W.seen out.old) (W.seen out.new) }
    ensures refused { IfErr result (IsJobReportFault workers (IsOpenFault workers)) }
    ensures workers { OnOk result ((0 < workers) × (workers ≤ 64)) }
{
    let counts = detections(rt, alloc, run, most, stretches, workers, gate)?;
    let job = run.job();
    let _faults = job.faults().count();
    let Ok(faults) = histogram_of(alloc, &counts, most) else {
        return Err(SimFault::Run(RunFault::Memory));
    };
    write_both(job, &counts, &faults, most, list, out)?;
    Ok(())
}

/// Writes the report of the counts of a job, and their histogram.
fn write_both<W: Out>(
    job: &Job,
    counts: &[u32],
    faults: &[u32],
    most: u32,
    list: bool,
    out: &mut W,
) -> Result<(), ReportFault>
    requires { length counts.now ≡ length job.now.list.list }
    ensures { Writes result (W.seen out.old) (W.seen out.new)
        (detection_report job.now.list.model job.now.circuit most counts.now list
        ++ histogram_text faults.now) }
{
    write_detections(job, counts, most, list, out)?;
    put_histogram(faults, out)?;
    Ok(())
}

/// Returns how many faults have each count of tests that detect them, from 0 to `most`, if no count
/// is above `most`. It takes 4 bytes for each.
pub fn histogram_of(alloc: Global, counts: &[u32], most: u32) -> Result<Vec<u32>, AllocError>
    requires { length counts.now < 2 ^ 32 }
    ensures { IfOk result (λ faults. faults.items ≡ histogram most counts.now) }
{
    let mut faults = vec![in alloc; 0u32; most as usize + 1]?;
    for count in counts {
        add_one(&mut faults, *count);
    }
    Ok(faults)
}

/// Counts a fault with `count` detections.
fn add_one(faults: &mut [u32], count: u32)
    requires { (n : ℕ) → n < length faults.old → get_or faults.old n 0 < 2 ^ 32 - 1 }
    ensures count { length faults.new ≡ length faults.old }
    ensures each { (n : ℕ) → n < length faults.old
        → get_or faults.new n 0 ≡ get_or faults.old n 0 + one_with n count }
{
    let place = count as usize;
    if place < faults.len() {
        faults[place] += 1;
    }
}

/// Writes a line for each count.
fn put_histogram<W: Out>(faults: &[u32], out: &mut W) -> Result<(), OutFailed>
    ensures { Writes result (W.seen out.old) (W.seen out.new) (histogram_text faults.now) }
{
    for count in 0..faults.len() {
        put_count(count, faults[count], out)?;
    }
    Ok(())
}

/// Writes the line of a count.
fn put_count<W: Out>(count: usize, faults: u32, out: &mut W) -> Result<(), OutFailed>
    ensures { Writes result (W.seen out.old) (W.seen out.new) (histogram_line (count, faults)) }
{
    let mut detections = Buffer::new();
    let mut number = Buffer::new();
    let pieces = [detections.format(count), " ", number.format(faults), "\n"];
    put_pieces(&pieces, out)
}
