//! The files that the command line names.

use crate::status::{CommandError, NO_MEMORY};
use bench_net::read::MAX_BYTES;
use clap::ArgMatches;
use command_basics::{FileId, Source, SourceFault, is_standard_input};
use command_options::{Misuse, OptionRow, PART_FILES, Takes};
use std::alloc::{AllocError, Global};
use std::io::BufReader;
use test_columns::{ColumnFault, check_columns, read_front};

/// A file to read.
#[derive(Clone, Copy)]
pub(crate) enum InputFile {
    Bench,
    Tests,
    Order,
    /// The part file at this place, from 0.
    Part(usize),
}

impl InputFile {
    /// Returns its path, if the command line names the file.
    pub(crate) fn path<'a>(self, matches: &ArgMatches<'a>) -> Option<&'a str> {
        match self {
            InputFile::Bench => matches.get_str("bench"),
            InputFile::Tests => matches.get_str("tests"),
            InputFile::Order => matches.get_str("order"),
            InputFile::Part(place) => matches.get_strs(PART_FILES)?.get(place).copied(),
        }
    }

    /// Reads the file. Of a bench file that is too large it reads only the front.
    pub(crate) fn read<S: Source>(
        self,
        alloc: Global,
        matches: &ArgMatches<'_>,
        files: &mut S,
    ) -> Result<Vec<u8>, CommandError> {
        let Some(path) = self.path(matches) else {
            return Err(CommandError::Misused(Misuse::Unset));
        };
        let text = match self {
            InputFile::Bench => files.read_up_to(alloc, path, MAX_BYTES as u64),
            _ => files.read(alloc, path),
        };
        match text {
            Ok(text) => Ok(text),
            Err(SourceFault::Memory) => Err(NO_MEMORY),
            Err(fault) => Err(CommandError::Unreadable(self, fault)),
        }
    }
}

/// The bytes of a bench file and of a test file.
#[derive(Drop)]
pub(crate) struct InputFiles {
    pub(crate) bench: Vec<u8>,
    pub(crate) tests: Vec<u8>,
}

/// Reads the bench file and the test file, and then checks the names of the columns of the test
/// file.
pub(crate) fn read_inputs<S: Source>(
    alloc: Global,
    matches: &ArgMatches<'_>,
    files: &mut S,
) -> Result<InputFiles, CommandError> {
    let bench = InputFile::Bench.read(alloc, matches, files)?;
    let tests = InputFile::Tests.read(alloc, matches, files)?;
    check_names(alloc, &bench, &tests)?;
    Ok(InputFiles { bench, tests })
}

/// Checks the names of the columns of a test file, of which the front is enough.
pub(crate) fn check_names(alloc: Global, bench: &[u8], tests: &[u8]) -> Result<(), CommandError> {
    match check_columns(alloc, bench, tests) {
        Ok(()) => Ok(()),
        Err(ColumnFault::Mismatched(mismatch)) => Err(CommandError::Columns(mismatch)),
        Err(ColumnFault::Memory) => Err(NO_MEMORY),
    }
}

/// Checks the names of the columns of a long test file, which is opened for it. Returns `None` if
/// its front can't be read.
pub(crate) fn check_opened<S: Source>(
    alloc: Global,
    path: &str,
    bench: &[u8],
    files: &S,
) -> Option<Result<(), CommandError>> {
    let (file, _) = files.open(path)?;
    let mut reader = BufReader::new(alloc, file).ok()?;
    let front = read_front(alloc, &mut reader)?;
    Some(check_names(alloc, bench, &front))
}

/// Returns the paths of the files to read.
fn paths_of<'a>(
    alloc: Global,
    options: &[OptionRow],
    matches: &ArgMatches<'a>,
) -> Result<Vec<&'a str>, AllocError> {
    let mut paths = Vec::new(alloc);
    for option in options {
        if let (Takes::File | Takes::Files, Some(values)) = (
            option.takes,
            matches.get_strs(option.name),
        ) {
            paths.extend_from_slice(values)?;
        }
    }
    Ok(paths)
}

/// Returns whether two of these paths are one stream.
fn has_one_twice<S: Source>(alloc: Global, paths: &[&str], files: &S) -> Result<bool, AllocError> {
    let mut streams: Vec<FileId> = Vec::new(alloc);
    for path in paths {
        if let Some(stream) = files.stream(path) {
            if streams.contains(&stream) {
                return Ok(true);
            }
            streams.push(stream)?;
        }
    }
    Ok(false)
}

/// Checks that the command line doesn't name one stream for two files: it would be empty for the
/// second.
pub(crate) fn check_streams<S: Source>(
    alloc: Global,
    options: &[OptionRow],
    matches: &ArgMatches<'_>,
    files: &S,
) -> Result<(), CommandError> {
    let paths = paths_of(alloc, options, matches)?;
    let inputs = paths.iter().filter(|path| is_standard_input(**path));
    if inputs.count() > 1 {
        return Err(CommandError::Misused(Misuse::TwoInputs));
    }
    if has_one_twice(alloc, &paths, files)? {
        return Err(CommandError::Misused(Misuse::OneStream));
    }
    Ok(())
}
