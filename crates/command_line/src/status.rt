//! Errors of a command, and their words.

ghost use Rattle.std.specs.Prelude.{◌<◌, ◌≤◌};

use crate::inputs::InputFile;
use bench_net::BenchFault;
use clap::ArgMatches;
use command_basics::{FAILED, MISUSED, REFUSED, SourceFault, status_of};
use command_options::Misuse;
use input_check::Excess;
use part_files::{MergeFault, PartFault};
use patterns::TestFault;
use report::{Formatted, Out, OutFailed, ReportFault, SimFault};
use std::alloc::AllocError;
use std::fmt::Write;
use test_columns::Mismatch;

/// The status of a coverage that is below the threshold.
pub(crate) const MISSED: u8 = 4;

/// The error of a command that failed, or the shortfall of a command that succeeded. It holds no
/// words of the command line: [`answer_fault`] looks them up.
#[derive(Drop)]
pub(crate) enum CommandError {
    /// An argument of the process is no text.
    NoText,
    /// The command line cannot be used.
    Misused(Misuse),
    /// A file cannot be read, for this reason.
    Unreadable(InputFile, SourceFault),
    /// The file of the summary cannot be written.
    Unwritten,
    /// A file has an error, or the work on it or the output failed.
    Sim(SimFault),
    /// The test file names its columns otherwise than the circuit.
    Columns(Mismatch),
    /// A run has too many pieces, by this excess.
    TooManyPieces(SimFault, Excess),
    /// A file can't be merged, or the part files can't be merged with one another.
    Merge(Option<InputFile>, MergeFault),
    /// All was written, and the results of the run are not known.
    Lost,
    /// All was written, and the coverage is below that of `--fail-under`.
    Missed,
}

impl From<Misuse> for CommandError {
    fn from(misuse: Misuse) -> CommandError {
        CommandError::Misused(misuse)
    }
}

impl From<SimFault> for CommandError {
    fn from(fault: SimFault) -> CommandError {
        CommandError::Sim(fault)
    }
}

impl From<AllocError> for CommandError {
    fn from(_: AllocError) -> CommandError {
        NO_MEMORY
    }
}

impl From<OutFailed> for CommandError {
    fn from(_: OutFailed) -> CommandError {
        UNWRITTEN
    }
}

impl From<ReportFault> for CommandError {
    fn from(fault: ReportFault) -> CommandError {
        CommandError::Sim(SimFault::Report(fault))
    }
}

/// The output fails.
pub(crate) const UNWRITTEN: CommandError = CommandError::Sim(SimFault::Report(ReportFault::Write));

/// Memory is refused.
pub(crate) const NO_MEMORY: CommandError = CommandError::Sim(SimFault::Memory);

impl CommandError {
    /// Returns the error of a merge, of one file or of all. A refused allocation is no error of the
    /// files.
    pub(crate) fn of_merge(file: Option<InputFile>, fault: MergeFault) -> CommandError {
        match fault {
            MergeFault::Memory | MergeFault::Part(PartFault::Memory) => NO_MEMORY,
            _ => CommandError::Merge(file, fault),
        }
    }

    /// Returns which of the bench file and the test file has an error in one of its lines, if one
    /// has.
    pub(crate) fn wrong_file(&self) -> Option<InputFile> {
        match self {
            CommandError::Sim(
                SimFault::Bench(
                    BenchFault::Syntax(_)
                    | BenchFault::Redefined(_)
                    | BenchFault::Undefined(_)
                    | BenchFault::Cycle(_),
                ),
            ) => Some(InputFile::Bench),
            CommandError::Sim(SimFault::Tests(TestFault::BadByte(_) | TestFault::BadWidth(_))) => {
                Some(InputFile::Tests)
            }
            _ => None,
        }
    }

    /// Returns the path or the value of the command line that its words name.
    fn named<'a>(&self, matches: &ArgMatches<'a>) -> &'a str {
        let named = match self {
            CommandError::Unreadable(file, _) | CommandError::Merge(Some(file), _) => {
                file.path(matches)
            }
            CommandError::Unwritten => matches.get_str("summary"),
            CommandError::Columns(_) => matches.get_str("tests"),
            CommandError::Missed => matches.get_str("fail-under"),
            _ => None,
        };
        named.unwrap_or("")
    }

    /// Returns the status of the error.
    fn status(&self) -> u8
        ensures failed { 0 < result }
        ensures few { result ≤ 4 }
    {
        match self {
            CommandError::NoText | CommandError::Misused(_) => MISUSED,
            CommandError::Unreadable(..) | CommandError::Unwritten | CommandError::Lost => FAILED,
            CommandError::Sim(fault) | CommandError::TooManyPieces(fault, _) => status_of(fault),
            CommandError::Merge(..) | CommandError::Columns(_) => REFUSED,
            CommandError::Missed => MISSED,
        }
    }
}

/// Writes an error on one line, and its details on a second line. Returns its status, also if the
/// lines cannot be written. The paths are those of the command line, if it could be parsed.
pub(crate) fn answer_fault<E: Out>(
    fault: &CommandError,
    matches: Option<&ArgMatches<'_>>,
    err: &mut E,
) -> u8
    ensures failed { 0 < result }
    ensures few { result ≤ 4 }
{
    let named = match matches {
        Some(matches) => fault.named(matches),
        None => "",
    };
    write_fault(fault, named, err);
    fault.status()
}

/// Writes an error with the path or the value that its words name.
fn write_fault<E: Out>(fault: &CommandError, named: &str, err: &mut E) {
    let mut text = Formatted(err);
    let _ = match fault {
        CommandError::NoText => writeln!(text, "faultsim: an argument is no text"),
        CommandError::Misused(misuse) => writeln!(text, "faultsim: cannot use {}", misuse.words()),
        CommandError::Unreadable(_, fault) => {
            writeln!(text, "faultsim: cannot read {named}{fault}")
        }
        CommandError::Unwritten => writeln!(text, "faultsim: cannot write {named}"),
        CommandError::Columns(mismatch) => writeln!(text, "faultsim: {named}: {mismatch}"),
        CommandError::TooManyPieces(fault, excess) => {
            writeln!(text, "faultsim: {fault}\n    {excess}")
        }
        CommandError::Merge(Some(_), fault) => writeln!(text, "faultsim: {named}: {fault}"),
        CommandError::Sim(fault) => writeln!(text, "faultsim: {fault}"),
        CommandError::Merge(None, fault) => writeln!(text, "faultsim: {fault}"),
        CommandError::Lost => writeln!(text, "faultsim: results lost"),
        CommandError::Missed => writeln!(text, "faultsim: coverage below {named}%"),
    };
}
