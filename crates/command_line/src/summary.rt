//! The option `--summary FILE`: the results of a run in numbers, for scripts.

use crate::form_run::Outcome;
use crate::status::CommandError;
use clap::ArgMatches;
use command_basics::{Source, VERSION, WriteFault, is_standard_input};
use command_options::{Misuse, read_model};
use std::alloc::Global;
use tables::{Summary, summary_text};

/// The end of the version if the program is not proved.
const UNPROVED: &str = " (unproved)";

/// The time at which a command began, in milliseconds, if there is a clock.
#[derive(Clone, Copy)]
pub(crate) struct Began(Option<u64>);

/// Returns when the command began, if the command line requests a summary.
pub(crate) fn read_request<S: Source>(
    matches: &ArgMatches<'_>,
    files: &S,
) -> Result<Option<Began>, Misuse> {
    let Some(path) = matches.get_str("summary") else {
        return Ok(None);
    };
    if is_standard_input(path) || is_used(matches, files, path) {
        return Err(Misuse::Summary);
    }
    Ok(Some(Began(files.milliseconds())))
}

/// Returns whether the file at this path is an input of the command line, by whatever path, or the
/// standard output goes to it.
fn is_used<S: Source>(matches: &ArgMatches<'_>, files: &S, path: &str) -> bool {
    let wanted = files.identity(path);
    if wanted.is_some() && files.output() == wanted {
        return true;
    }
    for option in ["bench", "tests"] {
        let Some(input) = matches.get_str(option) else {
            continue;
        };
        if input == path || wanted.is_some() && files.identity(input) == wanted {
            return true;
        }
    }
    false
}

/// Returns the milliseconds since a command began, if there is a clock.
fn milliseconds_since<S: Source>(began: Began, files: &S) -> Option<u64> {
    let now = files.milliseconds()?;
    Some(now.saturating_sub(began.0?))
}

/// Writes the summary of a run, which has the sums of the bytes of both files, to the file that the
/// command line names.
pub(crate) fn write_summary<S: Source>(
    alloc: Global,
    matches: &ArgMatches<'_>,
    began: Began,
    outcome: &Outcome,
    files: &mut S,
) -> Result<(), CommandError> {
    let (Some(counts), Some(sums)) = (outcome.found.counts, &outcome.sums) else {
        return Err(CommandError::Lost);
    };
    let (version, proved) = match VERSION.strip_suffix(UNPROVED) {
        Some(version) => (version, false),
        None => (VERSION, true),
    };
    let summary = Summary {
        version,
        proved,
        model: read_model(matches)?,
        sums: sums.words(),
        counts,
        reasons: outcome.found.reasons,
        workers: outcome.workers,
        milliseconds: milliseconds_since(began, files),
    };
    let text = summary_text(alloc, &summary)?;
    match files.write(matches.get_str("summary").unwrap_or(""), &text) {
        Ok(()) => Ok(()),
        Err(WriteFault) => Err(CommandError::Unwritten),
    }
}
