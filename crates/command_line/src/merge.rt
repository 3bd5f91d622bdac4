//! The command `merge`.

ghost use Rattle.std.specs.Prelude.{◌≡◌, IfOk, OnOk, length};
ghost use Rattle.fault_model.specs.Fault.{faults};
ghost use Rattle.part_files.specs.Merging.{run_of};

use crate::inputs::InputFile;
use crate::status::CommandError;
use crate::threshold::{check_threshold, read_threshold};
use analysis_reports::write_blocks;
use bench_net::{Circuit, read_bench};
use block_coverage::Separator;
use clap::ArgMatches;
use command_basics::{Source, model_named};
use command_options::{Misuse, PART_FILES, read_format, read_lines, read_separator};
use fault_model::{Classes, Faults, Model, collapse, list_faults_in};
use job_loading::sum_of;
use part_files::{Merge, MergeFault, Merged, read_part, write_merged, write_merged_with_classes};
use report::{Lines, Out, SimFault};
use std::alloc::Global;
use std::str::from_utf8;
use tables::{Format, MergedView, merged_flags, write_view_of_merged};

/// An output of `merge` that needs the circuit.
#[derive(Clone, Copy)]
enum Outcome {
    /// The report with the coverage of the classes.
    Classes(Lines),
    /// A table.
    View(MergedView, Format),
    /// The coverage of each block.
    Blocks(Separator),
}

/// Reads from the command line the output that it requests, if that needs the circuit.
fn read_outcome(matches: &ArgMatches<'_>) -> Result<Option<Outcome>, Misuse> {
    let lines = read_lines(matches);
    let has_circuit = matches.get_str("bench").is_some();
    match (read_separator(matches)?, read_format(matches)) {
        (Some(separator), Some(format)) => {
            Ok(Some(Outcome::View(MergedView::Blocks(separator), format)))
        }
        (Some(separator), None) => Ok(Some(Outcome::Blocks(separator))),
        (None, Some(format)) if has_circuit => {
            Ok(Some(Outcome::View(MergedView::Faults(lines), format)))
        }
        (None, Some(_)) => Err(Misuse::NoCircuit),
        (None, None) if matches.get_flag("classes") => Ok(Some(Outcome::Classes(lines))),
        (None, None) if has_circuit => Err(Misuse::NoUse),
        (None, None) => Ok(None),
    }
}

/// Runs `merge`. It reads one file after another. The names of the faults stay in the bytes of the
/// first file. It frees each other file once its verdicts are taken over. It writes nothing before
/// all is known.
pub(crate) fn do_merge<S: Source, W: Out>(
    alloc: Global,
    matches: &ArgMatches<'_>,
    files: &mut S,
    out: &mut W,
) -> Result<(), CommandError> {
    let outcome = read_outcome(matches)?;
    let threshold = read_threshold(matches)?;
    let text = InputFile::Part(0).read(alloc, matches, files)?;
    let merged = merge_files(alloc, matches, &text, files)?;
    match outcome {
        None => write_merged(&merged, read_lines(matches), out)?,
        Some(outcome) => write_outcome(alloc, matches, &text, &merged, outcome, files, out)?,
    }
    check_threshold(threshold, merged.detected(), merged.total())
}

/// Returns the merged verdicts of the first part file, which has this text, and of the others.
fn merge_files<'t, S: Source>(
    alloc: Global,
    matches: &ArgMatches<'_>,
    text: &'t [u8],
    files: &mut S,
) -> Result<Merged<'t>, CommandError> {
    let count = matches.get_strs(PART_FILES).map_or(0, |paths| paths.len());
    let mut merge = match Merge::of(alloc, text) {
        Ok(merge) => merge,
        Err(fault) => return Err(CommandError::of_merge(Some(InputFile::Part(0)), fault)),
    };
    for place in 1..count {
        merge = merge_file(alloc, matches, merge, InputFile::Part(place), files)?;
    }
    match merge.end(alloc) {
        Ok(merged) => Ok(merged),
        Err(fault) => Err(CommandError::of_merge(None, fault)),
    }
}

/// Adds a part file to a merge.
fn merge_file<'t, S: Source>(
    alloc: Global,
    matches: &ArgMatches<'_>,
    merge: Merge<'t>,
    file: InputFile,
    files: &mut S,
) -> Result<Merge<'t>, CommandError> {
    let text = file.read(alloc, matches, files)?;
    match merge.add(alloc, &text) {
        Ok(sum) => Ok(sum),
        Err(fault) => Err(CommandError::of_merge(Some(file), fault)),
    }
}

/// Returns the model that bytes name, if it is a model of the program.
fn model_in(name: &[u8]) -> Option<Model> {
    model_named(from_utf8(name).ok()?)
}

/// Returns the model of the run that the first part file is of, which has this text, and checks
/// that the bench file is the run's.
fn model_of(alloc: Global, text: &[u8], bench: &[u8]) -> Result<Model, CommandError> {
    let first = InputFile::Part(0);
    let header = match read_part(alloc, text) {
        Ok(part) => part.header,
        Err(fault) => return Err(CommandError::of_merge(Some(first), MergeFault::Part(fault))),
    };
    let Some(model) = model_in(header.model) else {
        return Err(CommandError::Merge(Some(first), MergeFault::OtherModel));
    };
    if sum_of(alloc, bench)?.as_bytes() != header.bench {
        return Err(CommandError::Merge(Some(InputFile::Bench), MergeFault::OtherInputs));
    }
    Ok(model)
}

/// Returns the circuit of a bench file, and its faults under a model.
fn read_list(alloc: Global, model: Model, bench: &[u8]) -> Result<(Circuit, Faults), CommandError>
    ensures { IfOk result (λ read. read.1.list ≡ faults read.1.model read.0) }
{
    match read_bench(alloc, bench) {
        Ok(circuit) => {
            let list = list_faults_in(alloc, &circuit, model)?;
            Ok((circuit, list))
        }
        Err(fault) => Err(CommandError::Sim(SimFault::Bench(fault))),
    }
}

/// Checks that merged part files have as many faults as a list. Otherwise the error names the first
/// line of the first part file that only one has.
fn check_total(merged: &Merged<'_>, list: &Faults) -> Result<(), CommandError>
    ensures { OnOk result (length (run_of merged.now).firsts ≡ length list.now.list) }
{
    let (total, faults) = (merged.total(), list.count());
    if total == faults {
        return Ok(());
    }
    let line = u64::from(total.min(faults)) + 2;
    Err(CommandError::Merge(Some(InputFile::Part(0)), MergeFault::Differs(line)))
}

/// Writes an output of a merged run, whose first part file has this text, by the bench file of the
/// command line.
fn write_outcome<S: Source, W: Out>(
    alloc: Global,
    matches: &ArgMatches<'_>,
    text: &[u8],
    merged: &Merged<'_>,
    outcome: Outcome,
    files: &mut S,
    out: &mut W,
) -> Result<(), CommandError> {
    let bench = InputFile::Bench.read(alloc, matches, files)?;
    let model = model_of(alloc, text, &bench)?;
    let (circuit, list) = read_list(alloc, model, &bench)?;
    write_of_list(alloc, &circuit, &list, merged, outcome, out)
}

/// Writes an output of a merged run of a circuit and the list of its faults.
fn write_of_list<W: Out>(
    alloc: Global,
    circuit: &Circuit,
    list: &Faults,
    merged: &Merged<'_>,
    outcome: Outcome,
    out: &mut W,
) -> Result<(), CommandError>
    requires { list.now.list ≡ faults list.now.model circuit.now }
{
    if let Outcome::Classes(lines) = outcome {
        let classes = collapse(alloc, circuit, list)?;
        return write_classes(merged, &classes, lines, out);
    }
    check_total(merged, list)?;
    write_listed(alloc, circuit, list, merged, outcome, out)
}

/// Writes the report with the coverage of the classes. Each circuit has some class.
fn write_classes<W: Out>(
    merged: &Merged<'_>,
    classes: &Classes,
    lines: Lines,
    out: &mut W,
) -> Result<(), CommandError> {
    if classes.count() == 0 {
        write_merged(merged, lines, out)?;
    } else {
        write_merged_with_classes(merged, classes, lines, out)?;
    }
    Ok(())
}

/// Writes an output of a merged run of the faults of a circuit.
fn write_listed<W: Out>(
    alloc: Global,
    circuit: &Circuit,
    list: &Faults,
    merged: &Merged<'_>,
    outcome: Outcome,
    out: &mut W,
) -> Result<(), CommandError>
    requires list { list.now.list ≡ faults list.now.model circuit.now }
    requires count { length (run_of merged.now).firsts ≡ length list.now.list }
{
    match outcome {
        Outcome::Classes(lines) => write_merged(merged, lines, out)?,
        Outcome::View(view, format) => {
            write_view_of_merged(alloc, merged, circuit, list, view, format, out)?;
        }
        Outcome::Blocks(separator) => {
            let detected = merged_flags(alloc, merged)?;
            write_blocks(alloc, circuit, list, &detected, separator, out)?;
        }
    }
    Ok(())
}
