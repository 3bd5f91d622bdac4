//! The end of a merge: the missing part, the fault that no part contains, and the report.

ghost use Rattle.std.specs.Prelude.{◌≡◌, ◌<◌, [], ◌∷◌, ◌++◌, Contains, IfErr, IfOk};
ghost use Rattle.std.specs.Prelude.{MatchOption, OnOk, length, map, zip};
ghost use Rattle.std.specs.List.{flat_map};
ghost use Rattle.byte_output.specs.Output.{Writes};
ghost use Rattle.region_runs.specs.declared.parts.PartVerdict.TheVariants.{First};
ghost use Rattle.report.specs.Report.{name_line, wanted_name};
ghost use Rattle.part_files.specs.Merging.{HasParts, IsOpenRefusal, report_text, run_of};
ghost use Rattle.part_files.specs.PartReading.{texts_in};

use crate::joining::MergeFault;
use crate::merged::Merged;
use byte_output::{Out, OutFailed, put_all, put_pieces};
use itoa::Buffer;
use job_loading::ReportFault;
use region_runs::PartVerdict;
use report::{Lines, put_coverage};
use std::alloc::{AllocError, Global};

/// Returns the lowest of this number of parts, counted from 0, that is missing.
pub(crate) fn missing_part(seen: &[u32], parts: u32) -> Option<u32>
    ensures { MatchOption result (HasParts seen.now parts)
        (λ part. (part < parts) × HasParts seen.now part × (Contains seen.now part → ⊥)) }
{
    for part in 0..parts {
        if !seen.contains(&part) {
            return Some(part);
        }
    }
    None
}

/// Returns the first tests in verdicts. It fails with the line of the first fault that no part
/// contains.
pub(crate) fn firsts_of(
    alloc: Global,
    verdicts: &[PartVerdict],
) -> Result<Vec<Option<u32>>, MergeFault>
    ensures firsts { IfOk result (λ firsts. verdicts.now ≡ map First firsts.items) }
    ensures refused { IfErr result (IsOpenRefusal verdicts.now) }
{
    let mut firsts = Vec::with_capacity(alloc, verdicts.len())?;
    for place in 0..verdicts.len() {
        match verdicts[place] {
            PartVerdict::First(first) => add_first(&mut firsts, first)?,
            PartVerdict::OtherPart => return Err(MergeFault::NoPart(place as u64 + 2)),
        }
    }
    Ok(firsts)
}

/// Adds a first test to a list.
fn add_first(firsts: &mut Vec<Option<u32>>, first: Option<u32>) -> Result<(), AllocError>
    ensures { OnOk result (firsts.new.items ≡ firsts.old.items ++ first ∷ []) }
{
    Ok(firsts.push(first)?)
}

/// Writes the line of the report for a fault, given by its name: the fault, and its first detecting
/// test or `none`.
fn put_name_line<W: Out>(name: &[u8], first: Option<u32>, out: &mut W) -> Result<(), OutFailed>
    ensures { Writes result (W.seen out.old) (W.seen out.new) (name_line (name.now, first)) }
{
    put_all(name, out)?;
    match first {
        Some(test) => {
            let mut number = Buffer::new();
            put_pieces(&[" ", number.format(test), "\n"], out)
        }
        None => put_pieces(&[" none\n"], out),
    }
}

/// Writes the line of a fault, given by its name, if it is requested.
fn put_wanted_name<W: Out>(
    name: &[u8],
    first: Option<u32>,
    lines: Lines,
    out: &mut W,
) -> Result<(), OutFailed>
    ensures { Writes result (W.seen out.old) (W.seen out.new)
        (wanted_name lines (name.now, first)) }
{
    if !lines.has(first) {
        return Ok(());
    }
    put_name_line(name, first, out)
}

/// Writes the requested faults, each with its first detecting test, or `none`.
fn put_names<W: Out>(
    faults: &[&[u8]],
    firsts: &[Option<u32>],
    lines: Lines,
    out: &mut W,
) -> Result<(), OutFailed>
    requires { length firsts.now ≡ length faults.now }
    ensures { Writes result (W.seen out.old) (W.seen out.new)
        (flat_map (wanted_name lines) (zip (texts_in faults.now) firsts.now)) }
{
    for place in 0..faults.len() {
        put_wanted_name(faults[place], firsts[place], lines, out)?;
    }
    Ok(())
}

/// Writes the report of a whole run, as a run without parts does: the requested faults, each with
/// its first detecting test, then the coverage line. It takes no memory.
///
/// If the output takes nothing more, it fails with [`ReportFault::Write`], and the output has a
/// beginning of the report.
pub fn write_merged<W: Out>(
    merged: &Merged<'_>,
    lines: Lines,
    out: &mut W,
) -> Result<(), ReportFault>
    ensures { Writes result (W.seen out.old) (W.seen out.new)
        (report_text (run_of merged.now).faults (run_of merged.now).firsts lines) }
{
    let firsts = merged.firsts();
    put_names(merged.faults(), firsts, lines, out)?;
    put_coverage(merged.detected(), merged.total(), "", out)?;
    Ok(())
}
