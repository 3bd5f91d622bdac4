//! Errors of a file with their places, and how they are printed.

ghost use Rattle.std.specs.Prelude.{◌≡◌};
ghost use Rattle.input_check.specs.Words.{line_of, words};

use crate::note::Note;
use crate::place::{NO_PLACE, Place, line_at, word_place};
use bench_net::{BenchFault, Limit};
use patterns::TestFault;
use std::alloc::{AllocError, Global};
use std::fmt::{self, Display, Formatter};

/// An error of a file.
#[derive(Clone, Copy, PartialEq)]
pub enum InputError {
    Bench(BenchFault),
    Tests(TestFault),
}

impl InputError {
    /// Returns the line that it names, from 1.
    pub fn line(self) -> Option<u64>
        ensures { result ≡ line_of self }
    {
        match self {
            InputError::Bench(
                BenchFault::Syntax(line)
                | BenchFault::Redefined(line)
                | BenchFault::Undefined(line)
                | BenchFault::Cycle(line),
            ) => Some(line),
            InputError::Tests(TestFault::BadByte(line) | TestFault::BadWidth(line)) => Some(line),
            _ => None,
        }
    }

    /// Returns its words, without the file and the line that it names.
    pub fn words(self) -> &'static str
        ensures { result.now ≡ words self }
    {
        match self {
            InputError::Bench(BenchFault::TooLarge(Limit::Bytes)) => "more than 16777216 bytes",
            InputError::Bench(BenchFault::TooLarge(Limit::Signals)) => "more than 1000000 signals",
            InputError::Bench(BenchFault::TooLarge(Limit::Sinks)) => "more than 4000000 sinks",
            InputError::Bench(BenchFault::Syntax(_)) => "syntax",
            InputError::Bench(BenchFault::Redefined(_)) => "name defined before",
            InputError::Bench(BenchFault::Undefined(_)) => "name not defined",
            InputError::Bench(BenchFault::Cycle(_)) => "cycle",
            InputError::Bench(BenchFault::Empty) => "no signal",
            InputError::Bench(BenchFault::Memory) => "out of memory",
            InputError::Tests(TestFault::BadByte(_)) => "not 0 or 1",
            InputError::Tests(TestFault::BadWidth(_)) => "wrong width",
            InputError::Tests(TestFault::TooMany) => "more than 65536 rows",
            InputError::Tests(TestFault::Memory) => "out of memory",
        }
    }
}

impl Display for InputError {
    /// Writes the words of the error, without the file and the line that it names.
    fn fmt<W: fmt::Write>(&self, f: &mut Formatter<W>) -> fmt::Result {
        f.write_str(self.words())
    }
}

/// An error of a file with its line and place, and a note on it.
#[derive(Drop)]
pub struct Finding<'a> {
    /// The error, which names the line.
    pub fault: InputError,
    /// The line's bytes without its end; none if the error names no line.
    pub text: &'a [u8],
    /// The place on the line.
    pub place: Place,
    /// What was found and expected.
    pub note: Note,
}

/// All errors of a file: the first, then others, and how many more there are.
#[derive(Drop)]
pub struct Findings<'a> {
    /// The error that the reader reports.
    pub first: Finding<'a>,
    /// Others, at most 19.
    pub others: Vec<Finding<'a>>,
    /// The number of further errors.
    pub more: u64,
}

impl<'a> Findings<'a> {
    /// Returns an error of a whole file.
    pub(crate) fn of_file(alloc: Global, fault: InputError, note: Note) -> Self
        ensures { result.first.fault ≡ fault }
    {
        Findings {
            first: Finding {
                fault,
                text: &[],
                place: NO_PLACE,
                note,
            },
            others: Vec::new(alloc),
            more: 0,
        }
    }
}

/// The number of errors that are kept beside the first.
const MAX_OTHERS: usize = 19;

/// A search for all errors of a file.
#[derive(Drop)]
pub(crate) struct Search<'a> {
    pub(crate) alloc: Global,
    /// The bytes of the file.
    pub(crate) text: &'a [u8],
    /// What was found, in its order. The first error has no note before it was found.
    findings: Findings<'a>,
}

impl<'a> Search<'a> {
    /// Begins a search in these bytes, whose first error is this one.
    pub(crate) fn new(alloc: Global, text: &'a [u8], fault: InputError) -> Self {
        Search {
            alloc,
            text,
            findings: Findings::of_file(alloc, fault, Note::Nothing),
        }
    }

    /// Returns whether there is room for one more error. If not, it is counted.
    pub(crate) fn has_room(&mut self) -> bool {
        let has_room = self.findings.others.len() < MAX_OTHERS;
        if !has_room {
            self.findings.more = self.findings.more.saturating_add(1);
        }
        has_room
    }

    /// Adds an error at a place of the line that it names, with these words.
    pub(crate) fn add(
        &mut self,
        fault: InputError,
        place: Place,
        words: String,
    ) -> Result<(), AllocError> {
        let finding = Finding {
            fault,
            text: self.line_of(fault),
            place,
            note: Note::Words(words),
        };
        if matches!(self.findings.first.note, Note::Nothing) {
            self.findings.first = finding;
        } else {
            self.findings.others.push(finding)?;
        }
        Ok(())
    }

    /// Adds an error at the word of a number, from 0, of the line that it names.
    pub(crate) fn add_at_word(
        &mut self,
        fault: BenchFault,
        word: usize,
        words: String,
    ) -> Result<(), AllocError> {
        let error = InputError::Bench(fault);
        let place = word_place(self.line_of(error), word);
        self.add(error, place, words)
    }

    /// Returns the line that an error names, without its end.
    fn line_of(&self, fault: InputError) -> &'a [u8] {
        match fault.line() {
            Some(line) => line_at(self.text, line),
            None => &[],
        }
    }

    /// Returns what was found, with this error first.
    pub(crate) fn findings(self, fault: InputError) -> Findings<'a>
        ensures { result.first.fault ≡ fault }
    {
        let found = self.findings;
        let first = Finding {
            fault,
            ..found.first
        };
        Findings { first, ..found }
    }
}

/// The findings of a file with its path. Each is printed as `PATH:LINE: WORDS`, the line's text, a
/// mark under the place, and what was found and expected.
#[derive(Clone, Copy)]
pub struct Located<'p, 'f, 't> {
    /// The path of the file.
    pub path: &'p str,
    /// Its errors.
    pub findings: &'f Findings<'t>,
}

impl Display for Located<'_, '_, '_> {
    fn fmt<W: fmt::Write>(&self, f: &mut Formatter<W>) -> fmt::Result {
        fmt_finding(self.path, &self.findings.first, f)?;
        for finding in &self.findings.others {
            fmt_finding(self.path, finding, f)?;
        }
        match self.findings.more {
            0 => Ok(()),
            1 => writeln!(f, "and 1 more"),
            more => writeln!(f, "and {more} more"),
        }
    }
}

/// Writes a finding.
fn fmt_finding<W: fmt::Write>(
    path: &str,
    finding: &Finding<'_>,
    f: &mut Formatter<W>,
) -> fmt::Result {
    let fault = finding.fault;
    if let Note::Foreign(kind) = &finding.note {
        return writeln!(f, "{path}: {kind}");
    }
    match fault.line() {
        Some(line) => {
            writeln!(f, "{path}:{line}: {fault}")?;
            fmt_mark(finding.text, finding.place, f)?;
        }
        None => writeln!(f, "{path}: {fault}")?,
    }
    match &finding.note {
        Note::Words(words) => writeln!(f, "    {words}"),
        Note::Nothing | Note::Foreign(_) => Ok(()),
    }
}

/// The number of bytes of a line that are shown.
const SHOWN: usize = 80;

/// The number of shown bytes before the place, if the line is long.
const BEFORE: usize = 40;

/// Writes a line's text, from a place near the mark if the line is long, and the mark below.
fn fmt_mark<W: fmt::Write>(text: &[u8], place: Place, f: &mut Formatter<W>) -> fmt::Result {
    let from = if text.len() > SHOWN {
        place.start.saturating_sub(BEFORE)
    } else {
        0
    };
    let shown = text.get(from..).unwrap_or(&[]);
    let before = place.start.saturating_sub(from);
    let room = SHOWN.saturating_sub(before);
    f.write_str("    ")?;
    fmt_bytes(shown, f)?;
    f.write_str("\n    ")?;
    fmt_repeated(' ', before, f)?;
    fmt_repeated('^', place.len.min(room).max(1), f)?;
    f.write_str("\n")
}

/// Writes the shown bytes of a line: a space for a tab, and `?` for a byte that is no ASCII.
fn fmt_bytes<W: fmt::Write>(bytes: &[u8], f: &mut Formatter<W>) -> fmt::Result {
    for byte in bytes.iter().take(SHOWN) {
        f.write_char(match *byte {
            0x20..=0x7e => char::from(*byte),
            b'\t' => ' ',
            _ => '?',
        })?;
    }
    Ok(())
}

/// Writes a character a number of times.
fn fmt_repeated<W: fmt::Write>(character: char, count: usize, f: &mut Formatter<W>) -> fmt::Result {
    for _ in 0..count {
        f.write_char(character)?;
    }
    Ok(())
}
