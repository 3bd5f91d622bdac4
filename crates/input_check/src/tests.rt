//! The check of a test file: its tests, or all its errors row by row.

ghost use Rattle.std.specs.Prelude.{◌≡◌, IfOk};
ghost use Rattle.input_check.specs.Checks.{IsTestCheckOf};

use crate::finding::{Findings, InputError, Search};
use crate::foreign::foreign_kind;
use crate::note::Note;
use crate::place::{NO_PLACE, Place, line_at};
use bench_net::{Circuit, LineError, read_statement};
use patterns::{MAX_TESTS, TestFault, Tests, read_tests};
use std::alloc::{AllocError, Global};
use text_lines::{Row, Rows, is_blank};

/// The result of checking a test file.
#[derive(Drop)]
pub enum TestCheck<'a> {
    /// It is accepted, with these tests.
    Accepted(Tests),
    /// It has errors.
    Refused(Findings<'a>),
}

/// Reads tests for a circuit, and lists all errors of their file if there is one. The first of them
/// is the error of `patterns::read_tests`.
pub fn check_tests<'a>(
    alloc: Global,
    text: &'a [u8],
    circuit: &Circuit,
) -> Result<TestCheck<'a>, AllocError>
    ensures { IfOk result (IsTestCheckOf text.now circuit.now) }
{
    match read_tests(alloc, text, circuit.sources()) {
        Ok(tests) => Ok(TestCheck::Accepted(tests)),
        Err(TestFault::Memory) => Err(AllocError),
        Err(fault) => {
            let width = Width {
                inputs: circuit.inputs().len(),
                cells: circuit.scan_cells().len(),
            };
            Ok(TestCheck::Refused(test_findings(alloc, text, width, fault)?))
        }
    }
}

/// The bits of a test: one for each input, and then one for each flip-flop.
#[derive(Clone, Copy)]
struct Width {
    inputs: usize,
    cells: usize,
}

impl Width {
    /// Returns the number of bits.
    fn bits(self) -> usize {
        self.inputs.saturating_add(self.cells)
    }
}

/// Lists the errors of the rows of a test file, in their order. The first, by
/// `patterns::read_tests`, is this one. Only memory can make it fail.
fn test_findings<'a>(
    alloc: Global,
    text: &'a [u8],
    width: Width,
    fault: TestFault,
) -> Result<Findings<'a>, AllocError>
    ensures { IfOk result (λ findings. findings.first.fault ≡ InputError.Tests fault) }
{
    let error = InputError::Tests(fault);
    if let Some(kind) = foreign_kind(text) {
        return Ok(Findings::of_file(alloc, error, Note::Foreign(kind)));
    }
    let mut search = Search::new(alloc, text, error);
    search_tests(width, &mut search)?;
    Ok(search.findings(error))
}

/// Searches all rows of a test file.
fn search_tests(width: Width, search: &mut Search<'_>) -> Result<(), AllocError> {
    let text = search.text;
    let mut rows: u32 = 0;
    for row in Rows::new(text, width.bits()) {
        rows = rows.saturating_add(1);
        if rows <= MAX_TESTS {
            report_row(row, width, search)?;
        }
    }
    if rows > MAX_TESTS && search.has_room() {
        let words = format!(in search.alloc; "found {rows} rows")?;
        search.add(InputError::Tests(TestFault::TooMany), NO_PLACE, words)?;
    }
    Ok(())
}

/// Reports the error of a row, if it has one.
fn report_row<'a>(row: Row<'a>, width: Width, search: &mut Search<'a>) -> Result<(), AllocError> {
    let len = row.bytes.len();
    let bad = row
        .bytes
        .iter()
        .position(|byte| !matches!(*byte, b'0' | b'1'));
    if (bad.is_none() && len == width.bits()) || !search.has_room() {
        return Ok(());
    }
    let line = line_at(search.text, row.line);
    let start = line.iter().take_while(|byte| is_blank(**byte)).count();
    let (fault, place, words) = match bad {
        Some(at) => (
            TestFault::BadByte(row.line),
            Place {
                start: start.saturating_add(at),
                len: 1,
            },
            byte_words(search.alloc, line, row.bytes, at)?,
        ),
        None => (
            TestFault::BadWidth(row.line),
            Place { start, len },
            width_words(search.alloc, len, width)?,
        ),
    };
    search.add(InputError::Tests(fault), place, words)
}

/// The words on a row that is a line of a circuit.
const SWAPPED: &str = "looks like a line of a circuit; are --bench and --tests swapped?";

/// The words on a row with a number and a colon before its bits.
const NUMBERED: &str =
    "looks like numbered rows of another tool; docs/VERILOG.md has a line that makes tests of them";

/// Returns the words on a row of these bytes on a line, with a byte at this place that is no bit.
fn byte_words(alloc: Global, line: &[u8], row: &[u8], at: usize) -> Result<String, AllocError> {
    let digits = row.iter().take_while(|byte| byte.is_ascii_digit()).count();
    if is_statement(alloc, line)? {
        return format!(in alloc; "{SWAPPED}");
    }
    if digits > 0 && row.get(digits).copied() == Some(b':') {
        return format!(in alloc; "{NUMBERED}");
    }
    let byte = row.get(at).copied().unwrap_or(0);
    let character = char::from(byte);
    match byte {
        b' ' | b'\t' => format!(in alloc; "found a blank inside a test, expected 0 or 1"),
        b'x' | b'X' => format!(in alloc;
            "found `{character}`, expected 0 or 1: a test has a bit for each source"
        ),
        0x21..=0x7e => format!(in alloc; "found `{character}`, expected 0 or 1"),
        _ => format!(in alloc; "found the byte 0x{byte:02x}, expected 0 or 1"),
    }
}

/// Returns whether a line is a statement of a bench file.
fn is_statement(alloc: Global, line: &[u8]) -> Result<bool, AllocError> {
    match read_statement(alloc, line) {
        Ok(statement) => Ok(statement.is_some()),
        Err(LineError::Wrong(_)) => Ok(false),
        Err(LineError::Memory) => Err(AllocError),
    }
}

/// Returns the plural ending for a number of things.
fn plural(count: usize) -> &'static str {
    if count == 1 { "" } else { "s" }
}

/// Returns the words on a test of this number of bits, in place of a width.
fn width_words(alloc: Global, found: usize, width: Width) -> Result<String, AllocError> {
    let Width { inputs, cells } = width;
    format!(in alloc;
        "found {found} bit{}, expected {}: {inputs} input{} and {cells} flip-flop{}",
        plural(found),
        width.bits(),
        plural(inputs),
        plural(cells)
    )
}
