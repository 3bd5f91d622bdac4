//! The lines of a bench file as numbered statements.
//!
//! The format is the one of the ISCAS circuits (Brglez and Fujiwara, A neutral netlist of 10
//! combinational benchmark circuits, 1985; Brglez, Bryan and Kozminski, Combinational profiles of
//! sequential benchmark circuits, 1989). Each pass goes over the whole file: statements, limits,
//! definitions, and names that are read. A pass ends at the first line with its error, so the
//! errors come in this order and name the lowest line.

ghost use Rattle.std.specs.Prelude.{◌≡◌, ◌≤◌, ◌+◌, length, min};
ghost use Rattle.std.specs.Prelude.{IfOk, IfErr, IfSome, IfNone};
ghost use Rattle.text_lines.specs.Lines.{lines};
ghost use Rattle.bench_net.specs.Circuit.{max_bytes};
ghost use Rattle.bench_net.specs.reader.Entries.{entries_of, names_in, reads_in, AreStatedFrom};
ghost use Rattle.bench_net.specs.reader.Entries.{MayBe, AreFew, ArePast, AreCounts};
ghost use Rattle.bench_net.specs.reader.Parsed.{stands_for};
ghost use Rattle.bench_net.specs.Statement.{read};
ghost use Rattle.bench_net.specs.Stored.{AreLinesOf};

use crate::line::NumberedLine;
use crate::name_table::NameTable;
use crate::number::{StatedLine, defined_count, line_numbers, number_lines, number_names};
use crate::statement::{Stated, read_line};
use crate::{BenchFault, Limit};
use std::alloc::Global;
use text_lines::FileLines;

/// The greatest number of bytes of a file.
pub const MAX_BYTES: usize = 16_777_216;

/// The greatest number of signals, that is of lines that define a name.
const MAX_SIGNALS: usize = 1_000_000;

/// The greatest number of gate pins, data pins and outputs together.
const MAX_SINKS: usize = 4_000_000;

/// The statements of a file: the names in the order of their definitions, and the lines over their
/// numbers. Each name has the number, from 1, of the line that defines it.
#[derive(Drop)]
pub struct Lines {
    /// The names of the signals, in the order of their numbers.
    pub names: NameTable,
    /// The lines that have a statement, in the order of the file.
    pub lines: Vec<NumberedLine>,
    /// For each signal the number of the line that defines it, from 1.
    pub at: Vec<u64>,
}

/// The number of bytes of a text for each statement that it gets room for at first. Most lines have
/// more. Threads that make room step by step wait for each other, and room that isn't used takes no
/// memory.
const BYTES_OF_A_STATEMENT: usize = 24;

/// Returns the statements of a text that follows this number of lines, each with the number of its
/// line.
pub fn read_statements<'a>(
    alloc: Global,
    text: &'a [u8],
    before: u64,
) -> Result<Vec<StatedLine<'a>>, BenchFault>
    requires before { before ≤ max_bytes }
    requires bytes { length text.now ≤ max_bytes }
    ensures ok { IfOk result (λ stated.
        AreStatedFrom (before + 1) (lines text.now) (entries_of stated.items)) }
    ensures refused { before ≡ 0 → IfErr result (MayBe text.now) }
{
    let mut stated = Vec::with_capacity(alloc, text.len() / BYTES_OF_A_STATEMENT)?;
    let mut number = before;
    for line in FileLines::new(text) {
        number += 1;
        let refusal = BenchFault::Syntax(number);
        if let Some(statement) = read_line(alloc, line, refusal)? {
            stated.push(StatedLine { number, statement })?;
        }
    }
    Ok(stated)
}

/// Returns how many names a statement reads.
fn read_count(statement: &Stated) -> usize
    ensures { result ≡ length (read (stands_for statement.now)) }
{
    match statement {
        Stated::Input(_) => 0,
        Stated::Output(_) | Stated::Dff(_, _) => 1,
        Stated::Gate(_, _, arguments) => arguments.len(),
    }
}

/// The numbers of names that lines define and read.
#[derive(Clone, Copy)]
pub struct Counts {
    /// The names that they define: one for each line but those of outputs.
    pub signals: usize,
    /// The names that they read, one by one: pins of gates, data inputs and outputs.
    pub sinks: usize,
}

impl Counts {
    /// Returns the numbers of both together.
    pub fn plus(self, other: Counts) -> Counts
        ensures signals { result.signals
            ≡ min (self.signals + other.signals) 18446744073709551615 }
        ensures sinks { result.sinks ≡ min (self.sinks + other.sinks) 18446744073709551615 }
    {
        Counts {
            signals: self.signals.saturating_add(other.signals),
            sinks: self.sinks.saturating_add(other.sinks),
        }
    }
}

/// Returns how many names the statements define and read.
pub fn counts_of(stated: &[StatedLine]) -> Counts
    ensures { AreCounts (names_in stated.now) (reads_in stated.now) result }
{
    let mut signals: usize = 0;
    let mut sinks: usize = 0;
    for line in stated {
        signals = signals.saturating_add(defined_count(&line.statement) as usize);
        sinks = sinks.saturating_add(read_count(&line.statement));
    }
    Counts { signals, sinks }
}

/// Returns the limit that these numbers exceed, signals before sinks.
pub fn past_limit(counts: Counts) -> Option<Limit>
    ensures none { IfNone result (AreFew counts.signals counts.sinks) }
    ensures past { IfSome result (ArePast counts.signals counts.sinks) }
{
    if counts.signals > MAX_SIGNALS {
        Some(Limit::Signals)
    } else if counts.sinks > MAX_SINKS {
        Some(Limit::Sinks)
    } else {
        None
    }
}

/// Returns the statements of a file over numbers, or its error. It doesn't check for cycles and for
/// a file without statements.
pub fn read_lines(alloc: Global, text: &[u8]) -> Result<Lines, BenchFault>
    ensures lines { IfOk result (λ r.
        AreLinesOf text.now r.names r.lines.items r.at.items) }
    ensures refused { IfErr result (MayBe text.now) }
{
    if text.len() > MAX_BYTES {
        return Err(BenchFault::TooLarge(Limit::Bytes));
    }
    let read = read_statements(alloc, text, 0)?;
    let stated = read.as_slice();
    if let Some(limit) = past_limit(counts_of(stated)) {
        return Err(BenchFault::TooLarge(limit));
    }
    let numbers = number_names(alloc, stated)?;
    let lines = number_lines(alloc, stated, 0, &numbers)?;
    let at = line_numbers(alloc, stated)?;
    let names = NameTable::new(alloc, &numbers)?;
    Ok(Lines { names, lines, at })
}
