//! The commands of `faultgen`.

ghost use Rattle.std.specs.Prelude.{◌≤◌};

use crate::options::command_line;
use crate::{Generated, GeneratorFault, Held, HeldFault, HeldReason, Settings, generate};
use bench_net::read::MAX_BYTES;
use byte_output::put_all;
use clap::error::ErrorKind;
use clap::{ArgMatches, Error};
use command_basics::{DONE, FAILED, MISUSED, Source, SourceFault, model_named, status_of};
use report::{Formatted, Out, SimFault};
use std::alloc::Global;
use std::fmt::Write;
use std::sync::Wait;
use std::thread::Threads;

/// The reason why nothing was written, or only a part. It holds no words of the command line:
/// [`answer`] looks them up.
#[derive(Clone, Copy)]
pub(crate) enum CommandError {
    /// An argument of the process is no text.
    NoText,
    /// An option lacks the value that its parser requires.
    Unset,
    /// The words of the `--hold` at this place, from 0, hold no input.
    NotHeld(usize, Hold),
    /// The bench file cannot be read.
    Unreadable(SourceFault),
    /// The output fails.
    Unwritten,
    /// The circuit has an error, or the work on it failed.
    Sim(SimFault),
}

/// Why words of `--hold` hold no input.
#[derive(Clone, Copy)]
pub(crate) enum Hold {
    /// They give no name with its bit.
    Malformed,
    /// No input has the name, or two words have it.
    Refused(HeldReason),
}

impl Hold {
    /// Returns the reason.
    fn words(self) -> &'static str {
        match self {
            Hold::Malformed => "give NAME=0 or NAME=1",
            Hold::Refused(HeldReason::Undefined) => "no line of the circuit defines this name",
            Hold::Refused(HeldReason::Gate) => "this is a gate: give the name of an input",
            Hold::Refused(HeldReason::FlipFlop) => {
                "this is a flip-flop: give the name of an input"
            }
            Hold::Refused(HeldReason::Twice) => "give this name once",
        }
    }
}

/// Memory ran out.
pub(crate) const NO_MEMORY: CommandError = CommandError::Sim(SimFault::Memory);

/// Runs words and returns the status. `words[0]` is the program's name. The tests go to `out`, and
/// their coverage line to `err`.
///
/// The status is 0 for success or help, 1 for an error of the circuit, and 2 for an error of the
/// command line. It is 3 if a file, the output, memory or a thread failed.
pub fn run_words<'a, R: Threads + Wait, S: Source, W: Out, E: Out>(
    rt: &R,
    alloc: Global,
    words: &'a [&'a str],
    files: &mut S,
    out: &mut W,
    err: &mut E,
) -> u8
    ensures { result ≤ 3 }
{
    let Ok(command) = command_line(alloc) else {
        return answer(NO_MEMORY, None, err);
    };
    match command.try_get_matches_from(words) {
        Ok(matches) => run_matched(rt, alloc, &matches, files, out, err),
        Err(error) => answer_error(&error, out, err),
    }
}

/// Runs a command line.
fn run_matched<R: Threads + Wait, S: Source, W: Out, E: Out>(
    rt: &R,
    alloc: Global,
    matches: &ArgMatches<'_>,
    files: &mut S,
    out: &mut W,
    err: &mut E,
) -> u8
    ensures { result ≤ 3 }
{
    match make_tests(rt, alloc, matches, files, out, err) {
        Ok(()) => DONE,
        Err(fault) => answer(fault, Some(matches), err),
    }
}

/// Makes tests, writes them, and prints their coverage.
fn make_tests<R: Threads + Wait, S: Source, W: Out, E: Out>(
    rt: &R,
    alloc: Global,
    matches: &ArgMatches<'_>,
    files: &mut S,
    out: &mut W,
    err: &mut E,
) -> Result<(), CommandError> {
    let settings = read_settings(matches).ok_or(CommandError::Unset)?;
    let held = read_held(alloc, matches.get_strs("hold").unwrap_or(&[]))?;
    let bench = read_bench(alloc, matches, files)?;
    match generate(rt, alloc, &bench, &held, settings) {
        Ok(made) => write_made(&made, out, err),
        Err(GeneratorFault::Sim(fault)) => Err(CommandError::Sim(fault)),
        Err(GeneratorFault::Held(HeldFault { place, reason })) => {
            Err(CommandError::NotHeld(place, Hold::Refused(reason)))
        }
    }
}

/// Writes tests, and prints their coverage.
fn write_made<W: Out, E: Out>(
    made: &Generated,
    out: &mut W,
    err: &mut E,
) -> Result<(), CommandError> {
    if put_all(&made.tests, out).is_err() {
        return Err(CommandError::Unwritten);
    }
    let _ = put_all(&made.coverage, err);
    Ok(())
}

/// Returns the settings that a command line names.
fn read_settings(matches: &ArgMatches<'_>) -> Option<Settings> {
    Some(Settings {
        model: model_named(matches.get_str("model")?)?,
        seed: matches.get_one::<u64>("seed")?,
        most: matches.get_one::<u32>("most")?,
        workers: matches.get_one::<u32>("workers")?,
    })
}

/// Reads the words of each `--hold`, `NAME=0` or `NAME=1`.
fn read_held<'a>(alloc: Global, words: &[&'a str]) -> Result<Vec<Held<'a>>, CommandError> {
    let mut held = Vec::new(alloc);
    for (place, word) in words.iter().enumerate() {
        let (name, bit) = match word.as_bytes() {
            [name @ .., b'=', b'0'] => (name, false),
            [name @ .., b'=', b'1'] => (name, true),
            _ => return Err(CommandError::NotHeld(place, Hold::Malformed)),
        };
        if held.push(Held { name, bit }).is_err() {
            return Err(NO_MEMORY);
        }
    }
    Ok(held)
}

/// Reads the file of the circuit.
fn read_bench<S: Source>(
    alloc: Global,
    matches: &ArgMatches<'_>,
    files: &mut S,
) -> Result<Vec<u8>, CommandError> {
    let path = matches.get_str("bench").ok_or(CommandError::Unset)?;
    match files.read_up_to(alloc, path, MAX_BYTES as u64) {
        Ok(text) => Ok(text),
        Err(SourceFault::Memory) => Err(NO_MEMORY),
        Err(fault) => Err(CommandError::Unreadable(fault)),
    }
}

/// Prints help, or the error of a command line.
fn answer_error<W: Out, E: Out>(error: &Error, out: &mut W, err: &mut E) -> u8
    ensures { result ≤ 3 }
{
    if error.kind() == ErrorKind::OutOfMemory {
        return answer(NO_MEMORY, None, err);
    }
    if error.use_stderr() {
        let _ = write!(Formatted(err), "{error}");
        return MISUSED;
    }
    if write!(Formatted(out), "{error}").is_err() {
        return answer(CommandError::Unwritten, None, err);
    }
    DONE
}

/// Returns the word of a command line that an error names.
fn named<'a>(fault: CommandError, matches: &ArgMatches<'a>) -> &'a str {
    let word = match fault {
        CommandError::NotHeld(place, _) => match matches.get_strs("hold") {
            Some(words) => words.get(place).copied(),
            None => None,
        },
        _ => matches.get_str("bench"),
    };
    word.unwrap_or("")
}

/// Prints an error in one line, and returns its status. The words of the command line are there if
/// it could be parsed.
pub(crate) fn answer<E: Out>(
    fault: CommandError,
    matches: Option<&ArgMatches<'_>>,
    err: &mut E,
) -> u8
    ensures { result ≤ 3 }
{
    let named = match matches {
        Some(matches) => named(fault, matches),
        None => "",
    };
    let mut text = Formatted(err);
    let _ = match fault {
        CommandError::NoText => writeln!(text, "faultgen: an argument is no text"),
        CommandError::Unset => writeln!(text, "faultgen: cannot use the command line"),
        CommandError::NotHeld(_, hold) => {
            writeln!(
                text,
                "faultgen: cannot use --hold {named}\n    {}",
                hold.words()
            )
        }
        CommandError::Unreadable(fault) => writeln!(text, "faultgen: cannot read {named}{fault}"),
        CommandError::Unwritten => writeln!(text, "faultgen: cannot write"),
        CommandError::Sim(fault) => writeln!(text, "faultgen: {fault}"),
    };
    match fault {
        CommandError::NoText | CommandError::Unset | CommandError::NotHeld(..) => MISUSED,
        CommandError::Unreadable(_) | CommandError::Unwritten => FAILED,
        CommandError::Sim(fault) => status_of(&fault),
    }
}
