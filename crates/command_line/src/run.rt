//! The commands `run`, `curve` and `compact`.

use crate::form_run::{Outcome, write_form};
use crate::status::CommandError;
use crate::summary::{read_request, write_summary};
use crate::threshold::check_threshold;
use crate::wanted::Wanted;
use clap::ArgMatches;
use command_basics::Source;
use report::{Formatted, Out};
use std::alloc::Global;
use std::fmt::Write;
use std::sync::Wait;
use std::thread::Threads;

/// Runs, and writes the output and the summary. It prints the number of kept tests, if the output
/// is of kept tests, and compares the coverage with the threshold.
pub(crate) fn do_run<R: Threads + Wait, S: Source, W: Out, E: Out + Send>(
    rt: &R,
    alloc: Global,
    matches: &ArgMatches<'_>,
    wanted: Wanted,
    files: &mut S,
    out: &mut W,
    err: &mut E,
) -> Result<(), CommandError> {
    let began = read_request(matches, files)?;
    let Wanted {
        form,
        split,
        threshold,
    } = wanted;
    let outcome = write_form(
        rt,
        alloc,
        matches,
        form,
        split,
        began.is_some(),
        files,
        out,
        err,
    )?;
    if let Some(began) = began {
        write_summary(alloc, matches, began, &outcome, files)?;
    }
    let found = outcome.found;
    if let Some(count) = found.kept {
        let _ = writeln!(Formatted(err), "{} of {} tests kept", count.kept, count.all);
    }
    match found.counts {
        Some(counts) => check_threshold(threshold, counts.detected, counts.faults),
        None if threshold.is_some() => Err(CommandError::Lost),
        None => Ok(()),
    }
}
