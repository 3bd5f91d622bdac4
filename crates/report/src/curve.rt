//! The curve of a run: the number of detected faults after each test.

ghost use Rattle.std.specs.Prelude.{◌≡◌, ◌+◌, ◌-◌, ◌<◌, ◌≤◌, ◌^◌, ℕ, get_or, length, IfErr, IfOk};
ghost use Rattle.std.specs.Prelude.{OnOk, true};
ghost use Rattle.std.specs.List.{flat_map};
ghost use Rattle.block_sim.specs.Parts.{BelongTogether};
ghost use Rattle.byte_output.specs.Output.{Writes};
ghost use Rattle.report.specs.Curve.{IsCurveOfJob, curve, curve_text};
ghost use Rattle.report.specs.Curve.{counts_at, news_at, point_line};
ghost use Rattle.report.specs.EndToEnd.{IsJobTextFault, WritesOneOf};
ghost use Rattle.region_runs.specs.Refused.{IsFirstsFault};

use crate::report::{hundredths, put_coverage};
use block_sim::Job;
use byte_output::{Out, OutFailed, put_pieces};
use fault_model::laws::stems;
use itoa::Buffer;
use job_loading::{ReportFault, RunJob, SimFault, Watch};
use std::alloc::{AllocError, Global};
use std::sync::Wait;
use std::thread::Threads;
use workers::Verdicts;

/// A test that is the first to detect some fault, and the number of faults that this test and the
/// tests before it detect. Tests count from 0.
#[derive(Clone, Copy, Debug, PartialEq, Eq)]
pub struct CurvePoint {
    /// The number of the test.
    pub test: u32,
    /// The number of uncollapsed faults that this test is the first to detect.
    pub gained: u32,
    /// The number of uncollapsed faults whose first test is this one or an earlier one.
    pub detected: u32,
}

/// Runs a job in a number of stretches by workers in threads of their own, and writes its curve, as
/// [`crate::write_report_of_run`] writes its report. The curve has a line `TEST DETECTED P.PP` for
/// each test that is the first to detect some fault, in order. The coverage line follows.
///
/// # Examples
///
/// `z = AND(a, b)` with the tests `00`, `01`, `01` and `11` gives
///
/// ```text
/// 0 1 16.66
/// 1 2 33.33
/// 3 5 83.33
/// 5 of 6 (83.33%)
/// ```
pub fn write_curve_of_run<R: Threads + Wait, G: Watch + Sync, W: Out>(
    rt: &R,
    alloc: Global,
    run: &mut RunJob,
    stretches: u32,
    workers: u32,
    gate: &G,
    out: &mut W,
) -> Result<(), SimFault>
    requires job { BelongTogether run.old.whole }
    requires gate { run.old.apart ≡ true → G.passing gate.now }
    requires stretches { 0 < stretches }
    ensures written { WritesOneOf (IsCurveOfJob run.old.whole) result (W.seen out.old)
        (W.seen out.new) }
    ensures refused { IfErr result (IsJobTextFault workers
        (IsFirstsFault run.old.whole stretches workers (G.passing gate.now) (G.stops gate.now))) }
    ensures workers { OnOk result ((0 < workers) × (workers ≤ 64)) }
    ensures kept { run.new ≡ run.old }
{
    let verdicts = run.run(rt, alloc, stretches, workers, gate)?;
    let points = curve_of(alloc, &verdicts, run.tests().count())?;
    write_curve(run.job(), &verdicts, &points, out)?;
    Ok(())
}

/// Returns the points of the curve of a run over this number of tests, in the order of the tests.
/// Tests that detect no fault first have none.
///
/// It takes 4 bytes for each test, and 12 for each point.
pub fn curve_of(
    alloc: Global,
    verdicts: &Verdicts,
    tests: u32,
) -> Result<Vec<CurvePoint>, AllocError>
    ensures { IfOk result (λ points. points.items ≡ curve tests verdicts.now.firsts) }
{
    let news = news_of(alloc, verdicts, tests)?;
    points_of(alloc, verdicts, &news)
}

/// Returns how many faults each of the tests is the first to detect.
fn news_of(alloc: Global, verdicts: &Verdicts, tests: u32) -> Result<Vec<u32>, AllocError>
    ensures few { length verdicts.now.firsts < 2 ^ 32 }
    ensures count { IfOk result (λ news. length news.items ≡ tests) }
    ensures each { IfOk result (λ news. (t : ℕ) → t < tests
        → get_or news.items t 0 ≡ news_at verdicts.now.firsts t) }
{
    let faults = verdicts.total();
    let mut news = vec![in alloc; 0u32; tests as usize]?;
    for fault in 0..faults {
        count_first(&mut news, verdicts.first(fault));
    }
    Ok(news)
}

/// Counts a fault at its first test, if that is one of these tests.
fn count_first(news: &mut [u32], first: Option<u32>)
    requires { (t : ℕ) → t < length news.old → get_or news.old t 0 < 2 ^ 32 - 1 }
    ensures count { length news.new ≡ length news.old }
    ensures each { (t : ℕ) → t < length news.old
        → get_or news.new t 0 ≡ get_or news.old t 0 + counts_at t first }
{
    let Some(test) = first else {
        return;
    };
    let place = test as usize;
    if place < news.len() {
        news[place] += 1;
    }
}

/// Returns the points of tests from how many faults each is the first to detect.
fn points_of(
    alloc: Global,
    verdicts: &Verdicts,
    news: &[u32],
) -> Result<Vec<CurvePoint>, AllocError>
    requires tests { length news.now < 2 ^ 32 }
    requires faults { length verdicts.now.firsts < 2 ^ 32 }
    requires news { (t : ℕ) → t < length news.now
        → get_or news.now t 0 ≡ news_at verdicts.now.firsts t }
    ensures { IfOk result (λ points. points.items ≡ curve (length news.now) verdicts.now.firsts) }
{
    let mut points = Vec::new(alloc);
    let mut detected = 0;
    for test in 0..news.len() as u32 {
        let more = news[test as usize];
        if more > 0 {
            detected += more;
            points.push(CurvePoint {
                test,
                gained: more,
                detected,
            })?;
        }
    }
    Ok(points)
}

/// Writes the points of a curve of the verdicts of a job, one line for each, and then the coverage
/// line. It takes no memory.
///
/// If the output fails, it fails with [`ReportFault::Write`], and the output has a beginning of the
/// text.
fn write_curve<W: Out>(
    job: &Job,
    verdicts: &Verdicts,
    points: &[CurvePoint],
    out: &mut W,
) -> Result<(), ReportFault>
    requires { length verdicts.now.firsts ≡ length job.now.list.list }
    ensures { Writes result (W.seen out.old) (W.seen out.new)
        (curve_text points.now verdicts.now.firsts) }
{
    let _circuit = job.circuit();
    let total = verdicts.total();
    stems();
    prove!(total > 0);
    put_points(points, total, out)?;
    put_coverage(verdicts.detected(), total, "", out)?;
    Ok(())
}

/// Writes a line for each point, for this number of faults.
fn put_points<W: Out>(points: &[CurvePoint], total: u32, out: &mut W) -> Result<(), OutFailed>
    requires { 0 < total }
    ensures { Writes result (W.seen out.old) (W.seen out.new)
        (flat_map (point_line total) points.now) }
{
    for point in points {
        put_point(*point, total, out)?;
    }
    Ok(())
}

/// Writes the line of a point, for this number of faults.
fn put_point<W: Out>(point: CurvePoint, total: u32, out: &mut W) -> Result<(), OutFailed>
    requires { 0 < total }
    ensures { Writes result (W.seen out.old) (W.seen out.new) (point_line total point) }
{
    let hundredths = hundredths(point.detected, total);
    let decimals = hundredths % 100;
    let mut test = Buffer::new();
    let mut found = Buffer::new();
    let mut whole = Buffer::new();
    let mut tens = Buffer::new();
    let mut ones = Buffer::new();
    let pieces = [
        test.format(point.test),
        " ",
        found.format(point.detected),
        " ",
        whole.format(hundredths / 100),
        ".",
        tens.format(decimals / 10),
        ones.format(decimals % 10),
        "\n",
    ];
    put_pieces(&pieces, out)
}
