//! The commands of the program.

ghost use Rattle.std.specs.Prelude.{◌≤◌};

use crate::check::do_check;
use crate::inputs::{InputFile, InputFiles, check_streams, read_inputs};
use crate::merge::do_merge;
use crate::run::do_run;
use crate::status::{CommandError, NO_MEMORY, UNWRITTEN, answer_fault};
use crate::wanted::{read_compact, read_curve, read_run};
use analysis_reports::{pairs_text, responses_text};
use clap::error::ErrorKind;
use clap::{ArgMatches, Error};
use command_basics::{DONE, MISUSED, Source};
use command_options::{
    Misuse, Subcommand, Task, command_line, read_contents, read_format, read_model, read_workers,
};
use report::{Formatted, Out, faults_text_in, schedule_text_with};
use std::alloc::Global;
use std::fmt::Write;
use std::sync::Wait;
use std::thread::Threads;
use tables::faults_table_in;

/// Runs words and returns the status. `words[0]` is the program's name. It joins the threads that
/// it starts.
///
/// The status is 0 for success or help, 1 for an error of a file's contents, and 2 for an error of
/// the command line. It is 3 if a file, the output, memory or a thread failed. It is 4 if all was
/// written and the coverage is below a threshold.
pub fn run_words<'a, R: Threads + Wait, S: Source, W: Out, E: Out + Send>(
    rt: &R,
    alloc: Global,
    words: &'a [&'a str],
    files: &mut S,
    out: &mut W,
    err: &mut E,
) -> u8
    ensures { result ≤ 4 }
{
    let Ok(command) = command_line(alloc, words) else {
        return answer_fault(&NO_MEMORY, None, err);
    };
    match command.try_get_matches_from(words) {
        Ok(matches) => run_matched(rt, alloc, &matches, files, out, err),
        Err(error) => answer_error(&error, out, err),
    }
}

/// Prints help, or the error of a command line.
fn answer_error<W: Out, E: Out>(error: &Error, out: &mut W, err: &mut E) -> u8
    ensures { result ≤ 4 }
{
    if error.kind() == ErrorKind::OutOfMemory {
        return answer_fault(&NO_MEMORY, None, err);
    }
    if error.use_stderr() {
        let _ = write!(Formatted(err), "{error}");
        return MISUSED;
    }
    if write!(Formatted(out), "{error}").is_err() {
        return answer_fault(&UNWRITTEN, None, err);
    }
    DONE
}

/// Returns the subcommand of a command line, and its options.
fn subcommand_of<'m, 'a>(matches: &'m ArgMatches<'a>) -> Option<(Subcommand, &'m ArgMatches<'a>)> {
    let (name, options) = matches.subcommand()?;
    Some((Subcommand::named(name)?, options))
}

/// Runs a command line.
fn run_matched<R: Threads + Wait, S: Source, W: Out, E: Out + Send>(
    rt: &R,
    alloc: Global,
    matches: &ArgMatches<'_>,
    files: &mut S,
    out: &mut W,
    err: &mut E,
) -> u8
    ensures { result ≤ 4 }
{
    let Some((subcommand, options)) = subcommand_of(matches) else {
        return answer_fault(&CommandError::Misused(Misuse::Unset), None, err);
    };
    match do_task(rt, alloc, subcommand, options, files, out, err) {
        Ok(()) => DONE,
        Err(fault) => {
            let status = answer_fault(&fault, Some(options), err);
            write_hint(subcommand.task, options, &fault, err);
            status
        }
    }
}

/// Prints which command shows the place of an error in a line of a bench or test file, after the
/// error of any other command.
fn write_hint<E: Out>(task: Task, matches: &ArgMatches<'_>, fault: &CommandError, err: &mut E) {
    let (Some(bench), false) = (matches.get_str("bench"), matches!(task, Task::Check)) else {
        return;
    };
    let tests = matches.get_str("tests").unwrap_or("");
    let mut text = Formatted(err);
    let _ = match fault.wrong_file() {
        Some(InputFile::Bench) => {
            writeln!(text, "faultsim: faultsim check --bench {bench} shows where")
        }
        Some(InputFile::Tests) => writeln!(
            text,
            "faultsim: faultsim check --bench {bench} --tests {tests} shows where"
        ),
        _ => return,
    };
}

/// Runs the subcommand of a task.
fn do_task<R: Threads + Wait, S: Source, W: Out, E: Out + Send>(
    rt: &R,
    alloc: Global,
    subcommand: Subcommand,
    matches: &ArgMatches<'_>,
    files: &mut S,
    out: &mut W,
    err: &mut E,
) -> Result<(), CommandError> {
    check_streams(alloc, subcommand.options(), matches, files)?;
    match subcommand.task {
        Task::Check => do_check(alloc, matches, files, out, err),
        Task::Run => do_run(rt, alloc, matches, read_run(matches)?, files, out, err),
        Task::Curve => do_run(rt, alloc, matches, read_curve(matches)?, files, out, err),
        Task::Compact => do_run(rt, alloc, matches, read_compact(matches)?, files, out, err),
        Task::Responses => do_responses(alloc, matches, files, out),
        Task::Schedule => do_schedule(alloc, matches, files, out),
        Task::Faults => do_faults(alloc, matches, files, out),
        Task::Merge => do_merge(alloc, matches, files, out),
    }
}

/// Runs `responses`. It reads both files before it checks either.
fn do_responses<S: Source, W: Out>(
    alloc: Global,
    matches: &ArgMatches<'_>,
    files: &mut S,
    out: &mut W,
) -> Result<(), CommandError> {
    let InputFiles { bench, tests } = read_inputs(alloc, matches, files)?;
    if matches.get_flag("pairs") {
        pairs_text(alloc, &bench, &tests, out)?;
    } else {
        responses_text(alloc, &bench, &tests, out)?;
    }
    Ok(())
}

/// Runs `schedule`. It reads the three files before it checks any.
fn do_schedule<S: Source, W: Out>(
    alloc: Global,
    matches: &ArgMatches<'_>,
    files: &mut S,
    out: &mut W,
) -> Result<(), CommandError> {
    let model = read_model(matches)?;
    let workers = read_workers(matches)?;
    let contents = read_contents(matches);
    let InputFiles { bench, tests } = read_inputs(alloc, matches, files)?;
    let order = InputFile::Order.read(alloc, matches, files)?;
    schedule_text_with(alloc, model, &bench, &tests, &order, workers, contents, out)?;
    Ok(())
}

/// Runs `faults`.
fn do_faults<S: Source, W: Out>(
    alloc: Global,
    matches: &ArgMatches<'_>,
    files: &mut S,
    out: &mut W,
) -> Result<(), CommandError> {
    let model = read_model(matches)?;
    let bench = InputFile::Bench.read(alloc, matches, files)?;
    match read_format(matches) {
        Some(format) => faults_table_in(alloc, model, &bench, format, out)?,
        None => faults_text_in(alloc, model, &bench, out)?,
    }
    Ok(())
}
