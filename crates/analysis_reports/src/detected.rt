//! The number of tests that detect each fault, from the bytes of files to the bytes of a report.

ghost use Rattle.std.specs.Prelude.{◌≡◌, ◌<◌, ◌≤◌, IfErr, IfOk, OnOk, Some, length};
ghost use Rattle.std.specs.Prelude.{slice_get, zip};
ghost use Rattle.std.specs.List.{flat_map};
ghost use Rattle.fault_model.specs.Fault.{faults};
ghost use Rattle.block_sim.specs.Parts.{BelongTogether};
ghost use Rattle.byte_output.specs.Output.{Writes};
ghost use Rattle.region_runs.specs.Refused.{IsOpenFault};
ghost use Rattle.analysis_reports.specs.Detected.{IsDetectionReportOfJob};
ghost use Rattle.analysis_reports.specs.Detected.{count_line, detection_report, reached_count};
ghost use Rattle.report.specs.EndToEnd.{IsJobReportFault, WritesOneOf};

use bench_net::Circuit;
use block_sim::Job;
use byte_output::{Out, OutFailed};
use fault_model::Faults;
use itoa::Buffer;
use job_loading::{ReportFault, SimFault, Watch};
use n_detect::detections;
use region_runs::RunJob;
use report::{put_coverage, put_fault_line};
use std::alloc::Global;
use std::sync::Wait;
use std::thread::Threads;

/// Runs a job in a number of stretches, and writes how many tests detect each fault. With `list` it
/// writes a line for each fault. Then it writes how many faults at least `most` tests detect. The
/// count of a fault ends at `most`.
///
/// The gate observes the run, and lets each piece pass. If the tests stand apart, it runs window by
/// window. It fails as [`n_detect::detections`] does, and then the run is as it was, or for the
/// output.
///
/// # Examples
///
/// `z = AND(a, b)` with the tests `00`, `01`, `10` and `11`, a `most` of 3 and `list` gives
///
/// ```text
/// stem a sa0 1
/// stem a sa1 1
/// stem b sa0 1
/// stem b sa1 1
/// stem z sa0 1
/// stem z sa1 3
/// 1 of 6 (16.66%)
/// ```
pub fn write_detections_of_run<R: Threads + Wait, G: Watch + Sync, W: Out>(
    rt: &R,
    alloc: Global,
    run: &mut RunJob,
    stretches: u32,
    workers: u32,
    most: u32,
    list: bool,
    gate: &G,
    out: &mut W,
) -> Result<(), SimFault>
    requires job { BelongTogether run.old.whole }
    requires stretches { 0 < stretches }
    requires passing { G.passing gate.now }
    ensures written { WritesOneOf (IsDetectionReportOfJob run.old.whole most list) result
        (W.seen out.old) (W.seen out.new) }
    ensures refused { IfErr result (IsJobReportFault workers (IsOpenFault workers)) }
    ensures workers { OnOk result ((0 < workers) × (workers ≤ 64)) }
{
    let counts = detections(rt, alloc, run, most, stretches, workers, gate)?;
    write_detections(run.job(), counts.as_slice(), most, list, out)?;
    Ok(())
}

/// Writes the report of how many tests detect each fault of a job. With `listed` it writes a line
/// for each fault. Then it writes how many faults at least `most` tests detect. It takes no memory.
pub(crate) fn write_detections<W: Out>(
    job: &Job,
    counts: &[u32],
    most: u32,
    listed: bool,
    out: &mut W,
) -> Result<(), ReportFault>
    requires count { length counts.now ≡ length job.now.list.list }
    ensures { Writes result (W.seen out.old) (W.seen out.new)
        (detection_report job.now.list.model job.now.circuit most counts.now listed) }
{
    let circuit = job.circuit();
    let signals = circuit.signals();
    prove!(signals > 0);
    let list = job.faults();
    let found = count_reached(list, counts, most);
    if !listed {
        return Ok(put_coverage(found, list.count(), "", out)?);
    }
    put_lines(circuit, list, counts, out)?;
    put_coverage(found, list.count(), "", out)?;
    Ok(())
}

/// Returns how many faults of a list at least this number of tests detect.
fn count_reached(list: &Faults, counts: &[u32], most: u32) -> u32
    requires count { length counts.now ≡ length list.now.list }
    ensures { result ≡ reached_count most counts.now }
{
    let _all = list.count();
    counts.iter().filter(|count| most <= **count).count() as u32
}

/// Writes a line for each fault: the fault, and the number of tests that detect it.
fn put_lines<W: Out>(
    circuit: &Circuit,
    list: &Faults,
    counts: &[u32],
    out: &mut W,
) -> Result<(), OutFailed>
    requires list { list.now.list ≡ faults list.now.model circuit.now }
    requires count { length counts.now ≡ length list.now.list }
    ensures { Writes result (W.seen out.old) (W.seen out.new)
        (flat_map (count_line circuit.now)
        (zip (faults list.now.model circuit.now) counts.now)) }
{
    for fault in 0..list.count() {
        let mut number = Buffer::new();
        let count = number.format(count_at(counts, fault));
        put_fault_line(circuit, list, fault, "", count, out)?;
    }
    Ok(())
}

/// Returns the count of a fault.
fn count_at(counts: &[u32], fault: u32) -> u32
    requires { fault < length counts.now }
    ensures { slice_get counts.now fault ≡ Some result }
{
    counts[fault as usize]
}
