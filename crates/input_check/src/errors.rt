//! The errors of a file as a JSON object (RFC 8259).

ghost use Rattle.std.specs.Prelude.{◌≡◌, ◌++◌, IfOk, OnOk, map, option_map, string_bytes};
ghost use Rattle.std.specs.List.{flat_map};
ghost use Rattle.input_check.specs.Objects.{AreErrorsOf, cells_of, excess_cells, kept};
ghost use Rattle.input_check.specs.Objects.{column_of, error_of, error_text, errors_object};
ghost use Rattle.input_check.specs.Objects.{without_hint};

use crate::finding::{Finding, Findings};
use crate::json_text::{add_pieces, number_or_null, quoted, quoted_or_null, without_first};
use crate::note::Note;
use crate::summary::Excess;
use itoa::Buffer;
use std::alloc::{AllocError, Global};

/// An error of a file, in the words that its object has.
#[derive(Drop)]
pub struct ErrorRow<'a> {
    /// The path of the file.
    pub file: &'a str,
    /// The line, from 1, if the error names one.
    pub line: Option<u64>,
    /// The place of the line's first wrong byte, from 1, if it is known.
    pub column: Option<u64>,
    /// The words of the error.
    pub message: &'a str,
    /// What was found and expected, and a suggestion.
    pub hint: Option<String>,
}

/// The words of the error of tests that are too many for one run.
const TOO_MANY: &str = "more than 16777216 pieces";

/// Returns the rows of the errors of the file at a path.
pub(crate) fn error_rows<'a>(
    alloc: Global,
    file: &'a str,
    findings: &Findings<'_>,
) -> Result<Vec<ErrorRow<'a>>, AllocError>
    ensures { IfOk result (λ rows.
        AreErrorsOf file.now (kept findings.now) (map error_of rows.items)) }
{
    let mut rows = Vec::new(alloc);
    rows.push(error_row(alloc, file, &findings.first)?)?;
    for finding in &findings.others {
        rows.push(error_row(alloc, file, finding)?)?;
    }
    Ok(rows)
}

/// Returns the row of an error of the file at a path.
fn error_row<'a>(
    alloc: Global,
    file: &'a str,
    finding: &Finding<'_>,
) -> Result<ErrorRow<'a>, AllocError>
    ensures { IfOk result (λ row. without_hint (error_of row) ≡ cells_of file.now finding.now) }
{
    Ok(ErrorRow {
        file,
        line: finding.fault.line(),
        column: column_of(finding),
        message: finding.fault.words(),
        hint: hint_of(alloc, &finding.note)?,
    })
}

/// Returns the column of an error: the place on its line, from 1, if it has the line's text.
fn column_of(finding: &Finding<'_>) -> Option<u64>
    ensures { result ≡ column_of finding.now }
{
    let start = finding.place.start;
    if finding.text.is_empty() || finding.text.len() < start {
        return None;
    }
    Some(start as u64 + 1)
}

/// Returns the words of a note, if it has any.
fn hint_of(alloc: Global, note: &Note) -> Result<Option<String>, AllocError> {
    match note {
        Note::Nothing => Ok(None),
        Note::Foreign(kind) => Ok(Some(format!(in alloc; "{kind}")?)),
        Note::Words(words) => Ok(Some(words.clone()?)),
    }
}

/// Returns the row of tests that are too many for one run, in the file at a path.
pub(crate) fn excess_row<'a>(
    alloc: Global,
    file: &'a str,
    excess: &Excess,
) -> Result<ErrorRow<'a>, AllocError>
    ensures { IfOk result (λ row. error_of row ≡ excess_cells file.now excess.now) }
{
    Ok(ErrorRow {
        file,
        line: None,
        column: None,
        message: TOO_MANY,
        hint: Some(format!(in alloc; "{excess}")?),
    })
}

/// Returns the object of errors: an array of these rows, and how many more errors there are.
pub fn errors_object(alloc: Global, rows: &[ErrorRow<'_>], more: u64) -> Result<Vec<u8>, AllocError>
    ensures { IfOk result (λ text. text.items
        ≡ errors_object (map error_of rows.now) more) }
{
    let elements = error_elements(alloc, rows)?;
    let mut number = Buffer::new();
    let mut text = Vec::new(alloc);
    add_pieces(&mut text, &["{\n\"errors\":["])?;
    text.extend_from_slice(without_first(&elements))?;
    let pieces = ["],\n\"more_errors\":", number.format(more), "\n}\n"];
    add_pieces(&mut text, &pieces)?;
    Ok(text)
}

/// Returns the objects of rows, each after a comma and a line feed.
fn error_elements(alloc: Global, rows: &[ErrorRow<'_>]) -> Result<Vec<u8>, AllocError>
    ensures { IfOk result (λ text. text.items ≡ flat_map error_text (map error_of rows.now)) }
{
    let mut text = Vec::new(alloc);
    for row in rows {
        add_error(&mut text, alloc, row)?;
    }
    Ok(text)
}

/// Adds the object of a row, after a comma and a line feed.
fn add_error(text: &mut Vec<u8>, alloc: Global, row: &ErrorRow<'_>) -> Result<(), AllocError>
    ensures { OnOk result (text.new.items ≡ text.old.items ++ error_text (error_of row.now)) }
{
    let file = quoted(alloc, row.file)?;
    let message = quoted(alloc, row.message)?;
    let hint = quoted_or_null(alloc, &row.hint)?;
    let mut line = Buffer::new();
    let mut column = Buffer::new();
    let pieces = [
        ",\n{\"file\":",
        file.as_str(),
        ",\"line\":",
        number_or_null(row.line, &mut line),
        ",\"column\":",
        number_or_null(row.column, &mut column),
        ",\"message\":",
        message.as_str(),
        ",\"hint\":",
        hint.as_str(),
        "}",
    ];
    add_pieces(text, &pieces)
}
