//! The coverage of the classes of a merged run.

ghost use Rattle.std.specs.Prelude.{◌≡◌, ◌<◌, ◌++◌, length};
ghost use Rattle.byte_output.specs.Output.{Writes};
ghost use Rattle.workers.specs.Verdict.{detected_count};
ghost use Rattle.report.specs.Report.{class_coverage_line, class_firsts, first_at};
ghost use Rattle.part_files.specs.Merging.{report_text, run_of};

use crate::ending::write_merged;
use crate::merged::Merged;
use byte_output::Out;
use fault_model::Classes;
use job_loading::ReportFault;
use report::{Lines, put_coverage};

/// Returns the first test of the fault of a number, or none if there is no such fault.
fn first_of(firsts: &[Option<u32>], fault: u32) -> Option<u32>
    ensures { result ≡ first_at firsts.now fault }
{
    match firsts.get(fault as usize) {
        Some(first) => *first,
        None => None,
    }
}

/// Returns the number of classes whose representative has a first test.
fn detected_classes_in(classes: &Classes, firsts: &[Option<u32>]) -> u32
    ensures { result ≡ detected_count (class_firsts classes.now firsts.now) }
{
    let mut found = 0;
    for class in 0..classes.count() {
        if first_of(firsts, classes.representative(class)).is_some() {
            found += 1;
        }
    }
    found
}

/// Writes the report that [`write_merged`] writes, and then the coverage of the classes, as a run
/// without parts writes it. It takes no memory.
///
/// # Errors
///
/// [`ReportFault::Write`] if the output takes nothing more. A beginning of the report went out.
pub fn write_merged_with_classes<W: Out>(
    merged: &Merged<'_>,
    classes: &Classes,
    lines: Lines,
    out: &mut W,
) -> Result<(), ReportFault>
    requires { 0 < length classes.now.representative }
    ensures { Writes result (W.seen out.old) (W.seen out.new)
        (report_text (run_of merged.now).faults (run_of merged.now).firsts lines
        ++ class_coverage_line classes.now (run_of merged.now).firsts) }
{
    write_merged(merged, lines, out)?;
    let detected = detected_classes_in(classes, merged.firsts());
    put_coverage(detected, classes.count(), " classes", out)?;
    Ok(())
}
