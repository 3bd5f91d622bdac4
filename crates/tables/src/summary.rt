//! The summary of a run as JSON (RFC 8259).

ghost use Rattle.std.specs.Prelude.{◌≡◌, ◌++◌, IfOk, OnOk};
ghost use Rattle.tables.specs.Summaries.{counts_text, effort_text, found_text, inputs_of};
ghost use Rattle.tables.specs.Summaries.{reasons_text, seconds_text, summary_text, truth_text};

use fault_model::Model;
use itoa::Buffer;
use job_loading::FileSums;
use report::{ReasonCounts, RunCounts, model_name};
use std::alloc::{AllocError, Global};
use table_rows::{Cell, add_object, add_pieces};

/// The contents of the summary of a run.
#[derive(Clone, Copy)]
pub struct Summary<'a> {
    /// The version of the program.
    pub version: &'a str,
    /// Whether the program was proved.
    pub proved: bool,
    pub model: Model,
    /// The SHA-256 of both files.
    pub sums: FileSums<'a>,
    pub counts: RunCounts,
    /// The number of undetected faults for each reason, if the run writes reasons.
    pub reasons: Option<ReasonCounts>,
    pub workers: u32,
    /// The time that the run took, if there is a clock.
    pub milliseconds: Option<u64>,
}

/// Returns the summary of a run as a JSON object, one member on each line.
pub fn summary_text(alloc: Global, summary: &Summary<'_>) -> Result<Vec<u8>, AllocError>
    ensures { IfOk result (λ text. text.items ≡ summary_text summary.now) }
{
    let mut text = Vec::new(alloc);
    let mut number = Buffer::new();
    add_inputs(
        &mut text,
        summary.version,
        truth_text(summary.proved),
        model_name(summary.model),
        summary.sums.bench,
        summary.sums.tests,
        number.format(summary.counts.tests),
    )?;
    add_counts(alloc, &mut text, summary.counts)?;
    add_pieces(&mut text, &[",\n\"reasons\":"])?;
    add_reasons(alloc, &mut text, summary.reasons)?;
    add_effort(&mut text, summary.workers, summary.milliseconds)?;
    Ok(text)
}

/// Returns the word of a truth value.
fn truth_text(is_true: bool) -> &'static str
    ensures { result.now ≡ truth_text is_true }
{
    if is_true { "true" } else { "false" }
}

/// Adds the inputs of the run: the version of the program, whether it was proved, the name of the
/// model, the sums of both files and the number of tests.
fn add_inputs<'a>(
    text: &mut Vec<u8>,
    version: &'a str,
    proved: &'a str,
    model: &'a str,
    bench: &'a str,
    tests: &'a str,
    count: &'a str,
) -> Result<(), AllocError>
    ensures { OnOk result (text.new.items ≡ text.old.items
        ++ inputs_of version.now proved.now model.now bench.now tests.now count.now) }
{
    let pieces = [
        "{\n\"version\":\"",
        version,
        "\",\n\"proved\":",
        proved,
        ",\n\"model\":\"",
        model,
        "\",\n\"bench_sha256\":\"",
        bench,
        "\",\n\"tests_sha256\":\"",
        tests,
        "\",\n\"tests\":",
        count,
    ];
    add_pieces(text, &pieces)
}

/// Adds the numbers of faults and classes, and how many of them a test detects.
fn add_counts(alloc: Global, text: &mut Vec<u8>, counts: RunCounts) -> Result<(), AllocError>
    ensures { OnOk result (text.new.items ≡ text.old.items ++ counts_text counts) }
{
    add_pieces(text, &[",\n\"faults\":"])?;
    add_found(alloc, text, counts.detected, counts.faults)?;
    add_pieces(text, &[",\n\"classes\":"])?;
    add_found(alloc, text, counts.detected_classes, counts.classes)
}

/// Adds an object of a number of faults or classes and the number of them that a test detects. The
/// percentage is rounded down.
fn add_found(alloc: Global, text: &mut Vec<u8>, detected: u32, total: u32) -> Result<(), AllocError>
    ensures { OnOk result (text.new.items ≡ text.old.items ++ found_text detected total) }
{
    let names = ["total", "detected", "undetected", "percent"];
    let cells = [
        Cell::Number(u64::from(total)),
        Cell::Number(u64::from(detected)),
        Cell::Number(u64::from(total.saturating_sub(detected))),
        Cell::Percent {
            part: detected,
            whole: total,
        },
    ];
    add_object(alloc, text, &names, &cells)
}

/// Adds the number of undetected faults for each reason, or `null` if the run writes no reasons.
fn add_reasons(
    alloc: Global,
    text: &mut Vec<u8>,
    reasons: Option<ReasonCounts>,
) -> Result<(), AllocError>
    ensures { OnOk result (text.new.items ≡ text.old.items ++ reasons_text reasons) }
{
    let Some(counts) = reasons else {
        return add_pieces(text, &["null"]);
    };
    let names = ["no_path", "not_activated", "not_observed"];
    let cells = [
        Cell::Number(counts.no_path as u64),
        Cell::Number(counts.not_activated as u64),
        Cell::Number(counts.not_observed as u64),
    ];
    add_object(alloc, text, &names, &cells)
}

/// Adds the number of workers and the time of the run, and the end of the object.
fn add_effort(text: &mut Vec<u8>, workers: u32, milliseconds: Option<u64>) -> Result<(), AllocError>
    ensures { OnOk result (text.new.items ≡ text.old.items ++ effort_text workers milliseconds) }
{
    let mut number = Buffer::new();
    let pieces = [",\n\"workers\":", number.format(workers), ",\n\"seconds\":"];
    add_pieces(text, &pieces)?;
    add_seconds(text, milliseconds)?;
    add_pieces(text, &["\n}\n"])
}

/// Adds a time in seconds with three decimals, or `null` if it is not known.
fn add_seconds(text: &mut Vec<u8>, milliseconds: Option<u64>) -> Result<(), AllocError>
    ensures { OnOk result (text.new.items ≡ text.old.items ++ seconds_text milliseconds) }
{
    let Some(milliseconds) = milliseconds else {
        return add_pieces(text, &["null"]);
    };
    let decimals = milliseconds % 1000;
    let mut whole = Buffer::new();
    let mut tenths = Buffer::new();
    let mut hundredths = Buffer::new();
    let mut thousandths = Buffer::new();
    let pieces = [
        whole.format(milliseconds / 1000),
        ".",
        tenths.format(decimals / 100),
        hundredths.format(decimals / 10 % 10),
        thousandths.format(decimals % 10),
    ];
    add_pieces(text, &pieces)
}
