//! The other tables of a run: of its blocks, of the pins that block effects of undetected faults,
//! of its curve, and of its histogram.

ghost use Rattle.std.specs.Prelude.{◌≡◌, ◌<◌, ◌≤◌, ◌^◌, IfErr, IfOk, OnOk, length, true};
ghost use Rattle.std.specs.List.{flat_map};
ghost use Rattle.block_coverage.specs.Blocks.{byte_of};
ghost use Rattle.block_sim.specs.Parts.{BelongTogether};
ghost use Rattle.blocking_pins.specs.Blocking.{AreDetected};
ghost use Rattle.region_runs.specs.Refused.{IsFirstsFault, IsOpenFault};
ghost use Rattle.report.specs.EndToEnd.{IsJobReportFault, IsJobTextFault, IsListFault};
ghost use Rattle.report.specs.EndToEnd.{WritesOneOf};
ghost use Rattle.analysis_reports.specs.Detected.{reached_count};
ghost use Rattle.analysis_reports.specs.Histogram.{histogram};
ghost use Rattle.table_rows.specs.Table.{table_text};
ghost use Rattle.tables.specs.Lists.{IsBlockTableOfJob, IsBlockingTable, IsBlockingTableOfJob};
ghost use Rattle.tables.specs.Lists.{IsCurveTableOfJob, IsHistogramTableOfJob, histogram_table};

use crate::blocks::write_blocks;
use crate::column::{coverage, run_heading};
use crate::lists::{CurveRows, HistogramRows, PinRows};
use crate::write::{write_rows, write_texts};
use analysis_reports::{count_flags, detected_flags, histogram_of};
use block_coverage::Separator;
use block_sim::Job;
use job_loading::{RunJob, Watch};
use n_detect::detections;
use report::{Out, RunFault, SimFault, curve_of};
use std::alloc::{AllocError, Global};
use std::sync::Wait;
use std::thread::Threads;
use table_rows::{Format, table_texts};

/// Runs a job, and writes the table of its blocks.
pub(crate) fn write_blocks_of_run<R: Threads + Wait, G: Watch + Sync, W: Out>(
    rt: &R,
    alloc: Global,
    run: &mut RunJob,
    stretches: u32,
    workers: u32,
    separator: Separator,
    format: Format,
    gate: &G,
    out: &mut W,
) -> Result<(), SimFault>
    requires job { BelongTogether run.old.whole }
    requires gate { run.old.apart ≡ true → G.passing gate.now }
    requires stretches { 0 < stretches }
    ensures written { WritesOneOf
        (IsBlockTableOfJob run.old.whole (byte_of separator) format) result
        (W.seen out.old) (W.seen out.new) }
    ensures refused { IfErr result (IsJobTextFault workers
        (IsFirstsFault run.old.whole stretches workers (G.passing gate.now) (G.stops gate.now))) }
    ensures workers { OnOk result ((0 < workers) × (workers ≤ 64)) }
    ensures kept { run.new ≡ run.old }
{
    let verdicts = run.run(rt, alloc, stretches, workers, gate)?;
    let detected = detected_flags(alloc, &verdicts)?;
    let job = run.job();
    write_blocks(
        alloc,
        job.circuit(),
        job.faults(),
        &detected,
        separator,
        format,
        out,
    )
}

/// Runs a job, and writes the table of the pins that block effects of undetected faults.
pub(crate) fn write_pins_of_run<R: Threads + Wait, G: Watch + Sync, W: Out>(
    rt: &R,
    alloc: Global,
    run: &mut RunJob,
    stretches: u32,
    workers: u32,
    format: Format,
    gate: &G,
    out: &mut W,
) -> Result<(), SimFault>
    requires job { BelongTogether run.old.whole }
    requires gate { run.old.apart ≡ true → G.passing gate.now }
    requires stretches { 0 < stretches }
    ensures written { WritesOneOf (IsBlockingTableOfJob run.old.whole format) result
        (W.seen out.old) (W.seen out.new) }
    ensures refused { IfErr result (IsJobTextFault workers
        (IsFirstsFault run.old.whole stretches workers (G.passing gate.now) (G.stops gate.now))) }
    ensures workers { OnOk result ((0 < workers) × (workers ≤ 64)) }
    ensures kept { run.new.whole ≡ run.old.whole }
{
    let verdicts = run.run(rt, alloc, stretches, workers, gate)?;
    let detected = detected_flags(alloc, &verdicts)?;
    run.hold_tests(rt, alloc, workers)?;
    write_pins(alloc, run.job(), &detected, format, out)
}

/// Writes the table of the pins of a job that block effects of undetected faults. `detected` has a
/// flag for each fault of the list: whether a test detects it.
fn write_pins<W: Out>(
    alloc: Global,
    job: &Job,
    detected: &[bool],
    format: Format,
    out: &mut W,
) -> Result<(), SimFault>
    requires { AreDetected job.now detected.now }
    ensures written { WritesOneOf (IsBlockingTable format job.now detected.now) result
        (W.seen out.old) (W.seen out.new) }
    ensures refused { IfErr result IsListFault }
{
    let circuit = job.circuit();
    let pins = blocking_pins::blocking_pins(alloc, job, detected)?;
    let faults = job.faults().count();
    let sums = coverage(alloc, count_flags(detected), faults)?;
    let rows = PinRows {
        heading: run_heading(
            &["name", "pin", "net", "value", "faults", "tests"],
            "pins",
            &sums,
        ),
        circuit,
        pins: &pins,
    };
    write_rows(alloc, &rows, format, out)
}

/// Runs a job, and writes the table of its curve.
pub(crate) fn write_points_of_run<R: Threads + Wait, G: Watch + Sync, W: Out>(
    rt: &R,
    alloc: Global,
    run: &mut RunJob,
    stretches: u32,
    workers: u32,
    format: Format,
    gate: &G,
    out: &mut W,
) -> Result<(), SimFault>
    requires job { BelongTogether run.old.whole }
    requires gate { run.old.apart ≡ true → G.passing gate.now }
    requires stretches { 0 < stretches }
    ensures written { WritesOneOf (IsCurveTableOfJob run.old.whole format) result
        (W.seen out.old) (W.seen out.new) }
    ensures refused { IfErr result (IsJobTextFault workers
        (IsFirstsFault run.old.whole stretches workers (G.passing gate.now) (G.stops gate.now))) }
    ensures workers { OnOk result ((0 < workers) × (workers ≤ 64)) }
    ensures kept { run.new ≡ run.old }
{
    let verdicts = run.run(rt, alloc, stretches, workers, gate)?;
    let points = curve_of(alloc, &verdicts, run.tests().count())?;
    let faults = verdicts.total();
    let sums = coverage(alloc, verdicts.detected(), faults)?;
    let rows = CurveRows {
        heading: run_heading(&["test", "new", "detected", "percent"], "points", &sums),
        points: &points,
        faults,
    };
    write_rows(alloc, &rows, format, out)
}

/// Runs a job, and writes the table of the histogram of its counts up to `most`.
pub(crate) fn write_counts_of_run<R: Threads + Wait, G: Watch + Sync, W: Out>(
    rt: &R,
    alloc: Global,
    run: &mut RunJob,
    stretches: u32,
    workers: u32,
    most: u32,
    format: Format,
    gate: &G,
    out: &mut W,
) -> Result<(), SimFault>
    requires job { BelongTogether run.old.whole }
    requires passing { G.passing gate.now }
    requires stretches { 0 < stretches }
    ensures written { WritesOneOf (IsHistogramTableOfJob run.old.whole most format) result
        (W.seen out.old) (W.seen out.new) }
    ensures refused { IfErr result (IsJobReportFault workers (IsOpenFault workers)) }
    ensures workers { OnOk result ((0 < workers) × (workers ≤ 64)) }
    ensures kept { run.new ≡ run.old }
{
    let counts = detections(rt, alloc, run, most, stretches, workers, gate)?;
    let faults = run.job().faults().count();
    let Ok(texts) = histogram_texts(alloc, &counts, most, faults, format) else {
        return Err(SimFault::Run(RunFault::Memory));
    };
    write_texts(&texts, out)?;
    Ok(())
}

/// Returns the texts of the table of the histogram of counts, one for each of `total` faults.
fn histogram_texts(
    alloc: Global,
    counts: &[u32],
    most: u32,
    total: u32,
    format: Format,
) -> Result<Vec<Vec<u8>>, AllocError>
    requires { total ≡ length counts.now }
    ensures { IfOk result (λ texts. flat_map (λ text. text.items) texts.items
        ≡ table_text format (histogram_table (histogram most counts.now)
        (reached_count most counts.now) (length counts.now))) }
{
    let faults = histogram_of(alloc, counts, most)?;
    let sums = coverage(alloc, count_reached(counts, most), total)?;
    let rows = HistogramRows {
        heading: run_heading(&["detections", "faults"], "histogram", &sums),
        faults: &faults,
    };
    table_texts(alloc, &rows, format)
}

/// Returns how many of less than 2^32 faults at least this number of tests detect.
fn count_reached(counts: &[u32], most: u32) -> u32
    requires { length counts.now < 2 ^ 32 }
    ensures { result ≡ reached_count most counts.now }
{
    counts.iter().filter(|count| most <= **count).count() as u32
}
