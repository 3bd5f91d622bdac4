//! The values of options.

ghost use Rattle.std.specs.Prelude.{IfOk};
ghost use Rattle.command_options.specs.Options.{NamesModel};

use crate::misuse::Misuse;
use crate::options::AUTO;
use block_coverage::Separator;
use clap::ArgMatches;
use clap::parser::ValueSource;
use command_basics::model_named;
use fault_model::Model;
use report::{Contents, Limit, Lines};
use table_rows::Format;

/// Returns the model that the command line names.
pub fn read_model(matches: &ArgMatches<'_>) -> Result<Model, Misuse>
    ensures { IfOk result (NamesModel matches.now) }
{
    let Some(name) = matches.get_str("model") else {
        return Err(Misuse::Unset);
    };
    match model_named(name) {
        Some(model) => Ok(model),
        None => Err(Misuse::Unset),
    }
}

/// Returns the contents of a report that the command line requests.
pub fn read_contents(matches: &ArgMatches<'_>) -> Contents {
    Contents {
        lines: read_lines(matches),
        classes: matches.get_flag("classes"),
    }
}

/// Returns the lines of faults that the command line requests.
pub fn read_lines(matches: &ArgMatches<'_>) -> Lines {
    if matches.get_flag("undetected") {
        Lines::Undetected
    } else if matches.get_flag("list") {
        Lines::All
    } else {
        Lines::Omitted
    }
}

/// Returns the format that the command line names, and none for the program's own text.
pub fn read_format(matches: &ArgMatches<'_>) -> Option<Format> {
    match matches.get_str("format") {
        Some("csv") => Some(Format::Csv),
        Some("json") => Some(Format::Json),
        _ => None,
    }
}

/// Returns the separator that the command line names, if it names one: a byte that a name in a
/// bench file may have.
pub fn read_separator(matches: &ArgMatches<'_>) -> Result<Option<Separator>, Misuse> {
    let Some(text) = matches.get_str("blocks") else {
        return Ok(None);
    };
    Ok(Some(separator_of(text.as_bytes()).ok_or(Misuse::Blocks)?))
}

/// Returns the separator that bytes are.
fn separator_of(bytes: &[u8]) -> Option<Separator> {
    match bytes {
        [b'(' | b')' | b',' | b'=' | b'#'] => None,
        [byte @ b'!'..=b'~'] => Separator::of(*byte),
        _ => None,
    }
}

/// How a run of all classes is split.
#[derive(Clone, Copy)]
pub struct Split {
    /// The limit of its size.
    pub limit: Limit,
    /// The number of stretches; none for one that suits the workers.
    pub stretches: Option<u32>,
}

/// Returns how the command line splits a run. Only without `--parts` is its size limited.
pub fn read_split(matches: &ArgMatches<'_>) -> Result<Split, Misuse> {
    let (limit, stretches) = match matches.get_str("parts") {
        None => (Limit::Pieces, None),
        Some(text) if text == AUTO => (Limit::None, None),
        Some(_) => (
            Limit::None,
            Some(matches.get_one::<u32>("parts").ok_or(Misuse::Parts)?),
        ),
    };
    Ok(Split { limit, stretches })
}

/// Returns the number of workers that the command line names.
pub fn read_workers(matches: &ArgMatches<'_>) -> Result<u32, Misuse> {
    matches.get_one::<u32>("workers").ok_or(Misuse::Unset)
}

/// Returns the number of workers that share a run of two files: the one that the command line
/// names. Without one, it is the default, or one worker if the files are so small that the run is
/// short.
pub fn read_crew(matches: &ArgMatches<'_>, bench: &[u8], tests: &[u8]) -> Result<u32, Misuse> {
    match matches.value_source("workers") {
        Some(ValueSource::DefaultValue) if is_short(bench, tests) => Ok(1),
        _ => read_workers(matches),
    }
}

/// The approximate number of bytes that a bench file has for each signal.
const BYTES_OF_A_SIGNAL: u64 = 24;

/// The approximate number of fault classes that a circuit has for each signal.
const CLASSES_OF_A_SIGNAL: u64 = 3;

/// A run is short if its classes times its blocks times its signals are below this number. Then it
/// takes some milliseconds, and the start of threads would take longer than they save.
const SHORT_RUN: u64 = 1 << 26;

/// Returns whether a run is short, by the sizes of its files.
fn is_short(bench: &[u8], tests: &[u8]) -> bool {
    let signals = bench.len() as u64 / BYTES_OF_A_SIGNAL + 1;
    let row = match tests.iter().position(|byte| *byte == b'\n') {
        Some(width) => width as u64 + 1,
        None => tests.len() as u64 + 1,
    };
    let blocks = tests.len() as u64 / row / 64 + 1;
    let pieces = signals
        .saturating_mul(CLASSES_OF_A_SIGNAL)
        .saturating_mul(blocks);
    pieces.saturating_mul(signals) < SHORT_RUN
}
