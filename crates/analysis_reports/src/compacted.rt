//! Fewer tests that detect the same faults, from the bytes of files to the bytes of rows or of
//! numbers.

ghost use Rattle.std.specs.Prelude.{◌≡◌, ◌<◌, ◌≤◌, IfErr, IfOk, OnOk};
ghost use Rattle.std.specs.List.{flat_map};
ghost use Rattle.byte_output.specs.Output.{Writes};
ghost use Rattle.analysis_reports.specs.Compacted.{GivesOneOf};
ghost use Rattle.analysis_reports.specs.Compacted.{IsKeptTextOfJob};
ghost use Rattle.analysis_reports.specs.Compacted.{kept_text, number_line};
ghost use Rattle.report.specs.EndToEnd.{IsJobTextFault, IsListFault, WritesOneOf};
ghost use Rattle.region_runs.specs.Refused.{IsOpenFault};
ghost use Rattle.test_columns.specs.Files.{file_text};

use crate::whole::put_text;
use bench_net::Circuit;
use byte_output::{Out, OutFailed, put_pieces};
use compaction::{Kept, TestOrder, compact};
use itoa::Buffer;
use job_loading::{ReportFault, RunJob, SimFault, Watch};
use patterns::Tests;
use std::alloc::{AllocError, Global};
use std::sync::Wait;
use std::thread::Threads;
use test_columns::{columns_line, test_file};

/// The form in which the tests that a compaction keeps are written.
#[derive(Clone, Copy, Debug, PartialEq, Eq)]
pub enum KeptForm {
    /// The tests: a test file.
    Rows,
    /// The number of each test in the list, from 0, on a line of its own.
    Numbers,
}

/// The order and the form in which the tests that a compaction keeps are written.
#[derive(Clone, Copy, Debug, PartialEq, Eq)]
pub struct KeptLayout {
    /// Their order. Under transition faults it is always the order of the list.
    pub order: TestOrder,
    /// Their form.
    pub form: KeptForm,
}

/// The number of tests that a compaction keeps, and the number of all tests.
#[derive(Clone, Copy, Debug, PartialEq, Eq)]
pub struct KeptCount {
    /// The number of kept tests.
    pub kept: u32,
    /// The number of all tests of the list.
    pub all: u32,
}

/// Runs a job in a number of stretches, and writes some of its tests, or their numbers in the list.
/// They detect each fault that all tests detect ([`compaction::compact`]). The tests are written as
/// a test file that names its columns ([`test_columns::columns_line`]). Returns the number of kept
/// tests.
///
/// The gate observes each pass, and lets each piece pass. If the tests stand apart, a pass goes
/// window by window. It fails as [`compaction::compact`] does, or for the output. It writes nothing
/// before all kept tests are known.
///
/// # Examples
///
/// `z = AND(a, b)` with the tests `00`, `01`, `10` and `11` gives, in the order of the list,
///
/// ```text
/// # columns: a b
/// 01
/// 10
/// 11
/// ```
pub fn write_kept_of_run<R: Threads + Wait, G: Watch + Sync, W: Out>(
    rt: &R,
    alloc: Global,
    run: &mut RunJob,
    stretches: u32,
    workers: u32,
    layout: KeptLayout,
    gate: &G,
    out: &mut W,
) -> Result<KeptCount, SimFault>
    requires passing { G.passing gate.now }
    requires stretches { 0 < stretches }
    ensures written { GivesOneOf (IsKeptTextOfJob run.old.whole layout) result (W.seen out.old)
        (W.seen out.new) }
    ensures refused { IfErr result (IsJobTextFault workers (IsOpenFault workers)) }
    ensures workers { OnOk result ((0 < workers) × (workers ≤ 64)) }
{
    let all = run.tests().count();
    let kept = compact(rt, alloc, run, layout.order, stretches, workers, gate)?;
    let count = KeptCount {
        kept: kept.tests.count(),
        all,
    };
    put_kept(alloc, run.job().circuit(), &kept, layout.form, out)?;
    Ok(count)
}

/// Writes the tests that are kept, or their numbers.
fn put_kept<W: Out>(
    alloc: Global,
    circuit: &Circuit,
    kept: &Kept,
    form: KeptForm,
    out: &mut W,
) -> Result<(), SimFault>
    ensures written { WritesOneOf
        (λ bytes. bytes ≡ kept_text form circuit.now kept.now.tests.tests kept.now.numbers.items)
        result (W.seen out.old) (W.seen out.new) }
    ensures refused { IfErr result IsListFault }
{
    match form {
        KeptForm::Rows => {
            let text = kept_file(alloc, circuit, &kept.tests)?;
            put_text(&text, out)?;
        }
        KeptForm::Numbers => write_numbers(&kept.numbers, out)?,
    }
    Ok(())
}

/// Returns the test file of tests for a circuit.
fn kept_file(alloc: Global, circuit: &Circuit, tests: &Tests) -> Result<Vec<u8>, AllocError>
    ensures { IfOk result (λ text. text.items ≡ file_text circuit.now tests.now.tests) }
{
    let line = columns_line(alloc, circuit)?;
    test_file(alloc, line, tests)
}

/// Writes numbers, each on a line of its own.
fn write_numbers<W: Out>(numbers: &[u32], out: &mut W) -> Result<(), ReportFault>
    ensures { Writes result (W.seen out.old) (W.seen out.new)
        (flat_map number_line numbers.now) }
{
    Ok(put_numbers(numbers, out)?)
}

/// Writes numbers. It only fails if the output does.
fn put_numbers<W: Out>(numbers: &[u32], out: &mut W) -> Result<(), OutFailed>
    ensures { Writes result (W.seen out.old) (W.seen out.new)
        (flat_map number_line numbers.now) }
{
    for number in numbers {
        put_number(*number, out)?;
    }
    Ok(())
}

/// Writes the line of a number.
fn put_number<W: Out>(number: u32, out: &mut W) -> Result<(), OutFailed>
    ensures { Writes result (W.seen out.old) (W.seen out.new) (number_line number) }
{
    let mut digits = Buffer::new();
    let pieces = [digits.format(number), "\n"];
    put_pieces(&pieces, out)
}
