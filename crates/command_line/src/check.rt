//! The command `check`.

use crate::inputs::{InputFile, check_names};
use crate::status::{CommandError, UNWRITTEN};
use block_sim::JobFault;
use byte_output::put_all;
use clap::ArgMatches;
use command_basics::Source;
use command_options::read_model;
use input_check::{
    Answer, ErrorRow, Findings, InputError, Located, answer_object, check_texts, errors_object,
};
use report::{Formatted, Out, SimFault};
use std::alloc::Global;
use std::fmt::Write;
use test_columns::Mismatch;

/// Runs `check`. It reads the files before it checks either. The errors of a file go to standard
/// error, before the error that `run` prints. With `--format json` the result also goes to the
/// output, with errors or without.
pub(crate) fn do_check<S: Source, W: Out, E: Out>(
    alloc: Global,
    matches: &ArgMatches<'_>,
    files: &mut S,
    out: &mut W,
    err: &mut E,
) -> Result<(), CommandError> {
    let bench = InputFile::Bench.read(alloc, matches, files)?;
    if InputFile::Tests.path(matches).is_none() {
        return check_files(alloc, matches, &bench, None, out, err);
    }
    let tests = InputFile::Tests.read(alloc, matches, files)?;
    check_files(alloc, matches, &bench, Some(&tests), out, err)
}

/// Checks the bytes of a bench file, and of a test file if there is one.
fn check_files<W: Out, E: Out>(
    alloc: Global,
    matches: &ArgMatches<'_>,
    bench: &[u8],
    tests: Option<&[u8]>,
    out: &mut W,
    err: &mut E,
) -> Result<(), CommandError> {
    let json = matches.get_str("format") == Some("json");
    let bench_path = InputFile::Bench.path(matches).unwrap_or("");
    let tests_path = InputFile::Tests.path(matches).unwrap_or("");
    if let Some(tests) = tests {
        check_columns(alloc, bench, tests, json, tests_path, out)?;
    }
    let answer = check_texts(alloc, read_model(matches)?, bench, tests)?;
    write_answer(alloc, &answer, json, bench_path, tests_path, out, err)
}

/// Checks the names of the columns of the test file at a path. An error goes to the output, too, if
/// `json` is set.
fn check_columns<W: Out>(
    alloc: Global,
    bench: &[u8],
    tests: &[u8],
    json: bool,
    path: &str,
    out: &mut W,
) -> Result<(), CommandError> {
    let checked = check_names(alloc, bench, tests);
    if let Err(CommandError::Columns(mismatch)) = &checked
        && json
    {
        write_mismatch(alloc, path, mismatch, out)?;
    }
    checked
}

/// Writes the object of a test file that names its columns otherwise than the circuit.
fn write_mismatch<W: Out>(
    alloc: Global,
    path: &str,
    mismatch: &Mismatch,
    out: &mut W,
) -> Result<(), CommandError> {
    let message = format!(in alloc; "{mismatch}")?;
    let row = ErrorRow {
        file: path,
        line: Some(mismatch.line),
        column: None,
        message: &message,
        hint: None,
    };
    put_all(&errors_object(alloc, &[row], 0)?, out)?;
    Ok(())
}

/// Writes the result: its object if `json` is set, else the sizes. The errors are printed.
fn write_answer<W: Out, E: Out>(
    alloc: Global,
    answer: &Answer<'_>,
    json: bool,
    bench: &str,
    tests: &str,
    out: &mut W,
    err: &mut E,
) -> Result<(), CommandError> {
    if json {
        put_all(&answer_object(alloc, answer, bench, tests)?, out)?;
    }
    match answer {
        Answer::Accepted(_) if json => Ok(()),
        Answer::Accepted(sizes) => match write!(Formatted(out), "{sizes}") {
            Ok(()) => Ok(()),
            Err(_) => Err(UNWRITTEN),
        },
        Answer::BenchRefused(findings) => Err(write_findings(bench, findings, err)),
        Answer::TestsRefused(findings) => Err(write_findings(tests, findings, err)),
        Answer::TooManyPieces(excess) => {
            let fault = JobFault::TooManyPieces;
            let _ = write!(Formatted(err), "{tests}: {fault}\n    {excess}\n");
            Err(CommandError::Sim(SimFault::Job(fault)))
        }
    }
}

/// Prints the errors of the file at a path, and returns the first.
fn write_findings<E: Out>(path: &str, findings: &Findings<'_>, err: &mut E) -> CommandError {
    let located = Located { path, findings };
    let _ = write!(Formatted(err), "{located}");
    match findings.first.fault {
        InputError::Bench(fault) => CommandError::Sim(SimFault::Bench(fault)),
        InputError::Tests(fault) => CommandError::Sim(SimFault::Tests(fault)),
    }
}
