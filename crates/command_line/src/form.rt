//! Outputs of a run.

ghost use Rattle.std.specs.Prelude.{◌≡◌, ◌<◌, IsSome, true};
ghost use Rattle.block_sim.specs.Parts.{BelongTogether};
ghost use Rattle.report.specs.EndToEnd.{WritesOneOf};
ghost use Rattle.part_files.specs.PartText.{IsPartTextOfJob, head_with};
ghost use Rattle.command_line.specs.Form.{IsFormOfJob, IsKeptOfJob, NeedsSums};
ghost use Rattle.command_line.specs.Form.{bench_sum, test_sum};

use crate::part::Part;
use crate::tally::Tally;
use analysis_reports::{
    KeptLayout, write_blocking_of_run, write_blocks_of_run, write_detections_of_run,
    write_histogram_of_run, write_kept_of_run, write_reasons_of_run,
};
use block_coverage::Separator;
use job_loading::{FileSums, RunJob};
use part_files::write_part_of_run;
use report::{Contents, Out, SimFault, Watch, write_curve_of_run, write_report_of_run};
use std::alloc::Global;
use std::sync::Wait;
use std::thread::Threads;
use tables::{Format, View, write_view_of_run};

/// The output of a run, of all classes or of a part.
#[derive(Clone, Copy)]
pub(crate) enum Form {
    /// The report.
    Report(Contents),
    /// A table.
    View(View, Format),
    /// The report of the undetected faults with their reasons.
    Reasons { classes: bool },
    /// The coverage of each block.
    Blocks(Separator),
    /// The pins that block the effects of undetected faults.
    Blocking,
    /// The curve.
    Curve,
    /// The report of how many tests detect each fault, with a line for each if `list` is set.
    Detections { most: u32, list: bool },
    /// That report, and then the histogram.
    Histogram { most: u32, list: bool },
    /// The tests that a compaction keeps.
    Kept(KeptLayout),
    /// The file of one part of the classes.
    Part(Part),
}

/// Returns whether an output has the sums of the two files.
pub(crate) fn needs_sums(form: Form) -> bool
    ensures { NeedsSums form → result ≡ true }
{
    matches!(form, Form::Part(_))
}

/// Runs a job in a number of stretches, under a gate that lets each piece pass, and writes the
/// output. The file of a part has the sums of the two files.
pub(crate) fn write_form_of_run<R: Threads + Wait, G: Watch + Sync, W: Out>(
    rt: &R,
    alloc: Global,
    run: &mut RunJob,
    stretches: u32,
    workers: u32,
    form: Form,
    sums: Option<FileSums<'_>>,
    gate: &G,
    tally: &Tally,
    out: &mut W,
) -> Result<(), SimFault>
    requires job { BelongTogether run.old.whole }
    requires passing { G.passing gate.now }
    requires stretches { 0 < stretches }
    requires sums { NeedsSums form → IsSome sums }
    ensures { WritesOneOf (IsFormOfJob run.old.whole (bench_sum sums.entry)
        (test_sum sums.entry) form) result (W.seen out.old) (W.seen out.new) }
{
    match form {
        Form::Report(contents) => {
            write_report_of_run(rt, alloc, run, stretches, workers, contents, gate, out)
        }
        Form::View(view, format) => write_view_of_run(
            rt, alloc, run, stretches, workers, view, format, gate, out,
        ),
        Form::Reasons { classes } => {
            write_reasons_of_run(rt, alloc, run, stretches, workers, classes, gate, out)
        }
        Form::Blocks(separator) => {
            write_blocks_of_run(rt, alloc, run, stretches, workers, separator, gate, out)
        }
        Form::Blocking => write_blocking_of_run(rt, alloc, run, stretches, workers, gate, out),
        Form::Curve => write_curve_of_run(rt, alloc, run, stretches, workers, gate, out),
        Form::Detections { most, list } => {
            write_detections_of_run(rt, alloc, run, stretches, workers, most, list, gate, out)
        }
        Form::Histogram { most, list } => {
            write_histogram_of_run(rt, alloc, run, stretches, workers, most, list, gate, out)
        }
        Form::Kept(layout) => {
            write_kept(rt, alloc, run, stretches, workers, layout, gate, tally, out)
        }
        Form::Part(part) => write_part(rt, alloc, run, part, sums, workers, gate, out),
    }
}

/// Writes the tests that a compaction of a job keeps, and notes how many there are.
fn write_kept<R: Threads + Wait, G: Watch + Sync, W: Out>(
    rt: &R,
    alloc: Global,
    run: &mut RunJob,
    stretches: u32,
    workers: u32,
    layout: KeptLayout,
    gate: &G,
    tally: &Tally,
    out: &mut W,
) -> Result<(), SimFault>
    requires passing { G.passing gate.now }
    requires stretches { 0 < stretches }
    ensures { WritesOneOf (IsKeptOfJob run.old.whole layout) result (W.seen out.old)
        (W.seen out.new) }
{
    let count = write_kept_of_run(rt, alloc, run, stretches, workers, layout, gate, out)?;
    tally.note_kept(count);
    Ok(())
}

/// Runs a part of a job, and writes its file with the sums of the two files.
fn write_part<R: Threads + Wait, G: Watch + Sync, W: Out>(
    rt: &R,
    alloc: Global,
    run: &mut RunJob,
    part: Part,
    sums: Option<FileSums<'_>>,
    workers: u32,
    gate: &G,
    out: &mut W,
) -> Result<(), SimFault>
    requires job { BelongTogether run.old.whole }
    requires passing { G.passing gate.now }
    requires sums { IsSome sums }
    ensures { WritesOneOf (IsPartTextOfJob (head_with run.old.whole.list.model
        (bench_sum sums.entry) (test_sum sums.entry) part.part part.parts) run.old.whole) result
        (W.seen out.old) (W.seen out.new) }
{
    let Part { part, parts } = part;
    match sums {
        Some(sums) => write_part_of_run(rt, alloc, run, part, parts, sums, workers, gate, out),
        None => unreachable!(),
    }
}
