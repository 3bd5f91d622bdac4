//! Rows as comma-separated values (RFC 4180).

ghost use Rattle.std.specs.Prelude.{◌≡◌, ◌≤◌, ◌++◌, ◌∷◌, [], IfOk, OnOk, length, map};
ghost use Rattle.csv.specs.Writing.{default_writer, escaped, field_text, needs_byte, needs_quotes};
ghost use Rattle.csv.specs.Writing.{quoted, row_text};
ghost use Rattle.threaded_lines.specs.Texts.{text_between};
ghost use Rattle.table_rows.specs.Cells.{cell_in, csv_cell};
ghost use Rattle.table_rows.specs.Table.{csv_row, row_texts};
ghost use Rattle.table_rows.specs.declared.rows.Format.TheVariants as format;

use crate::cell::{Cell, add_number, add_percent, add_pieces, add_separator};
use crate::rows::Rows;
use std::alloc::{AllocError, Global};

/// The number of bytes for each record that a text gets room for at first. Most are shorter.
const BYTES_OF_A_RECORD: usize = 48;

/// Returns the header: the names of the columns.
pub(crate) fn csv_header(alloc: Global, names: &[&str]) -> Result<Vec<u8>, AllocError>
    ensures { IfOk result (λ text. text.items
        ≡ row_text default_writer (map (λ name. name.now) names.now)) }
{
    let mut cells = Vec::new(alloc);
    for name in names {
        cells.push(Cell::Words(name))?;
    }
    let mut text = Vec::new(alloc);
    add_record(&mut text, &cells)?;
    Ok(text)
}

/// Returns the records of the rows from one number up to another.
pub(crate) fn csv_stretch<T: Rows>(
    alloc: Global,
    rows: &T,
    start: usize,
    end: usize,
) -> Result<Vec<u8>, AllocError>
    requires order { start ≤ end }
    requires within { end ≤ length (T.table rows.now).rows }
    ensures { IfOk result (λ text. text.items
        ≡ text_between (row_texts format.Csv (T.table rows.now)) start end) }
{
    let mut text = Vec::with_capacity(alloc, BYTES_OF_A_RECORD.saturating_mul(end - start))?;
    let mut cells = Vec::new(alloc);
    for row in start..end {
        cells.clear();
        rows.put_row(row, &mut cells)?;
        add_record(&mut text, &cells)?;
    }
    Ok(text)
}

/// Adds the record of some cells. In place of a record without a byte it adds two quotes.
fn add_record(text: &mut Vec<u8>, cells: &[Cell<'_>]) -> Result<(), AllocError>
    ensures { OnOk result (text.new.items ≡ text.old.items ++ csv_row (map cell_in cells.now)) }
{
    let before = text.len();
    for place in 0..cells.len() {
        add_separator(text, place)?;
        add_field(text, cells[place])?;
    }
    if text.len() == before {
        return add_pieces(text, &["\"\"\n"]);
    }
    text.push(b'\n')?;
    Ok(())
}

/// Adds the field of a cell. Numbers have no byte that needs quotes.
fn add_field(text: &mut Vec<u8>, cell: Cell<'_>) -> Result<(), AllocError>
    ensures { OnOk result (text.new.items
        ≡ text.old.items ++ field_text default_writer (csv_cell (cell_in cell.entry))) }
{
    match cell {
        Cell::Empty => Ok(()),
        Cell::Number(number) => add_number(text, number),
        Cell::Words(words) => add_words(text, words.as_bytes()),
        Cell::Percent { part, whole } => add_percent(text, part, whole),
    }
}

/// Adds the field of some words.
fn add_words(text: &mut Vec<u8>, words: &[u8]) -> Result<(), AllocError>
    ensures { OnOk result (text.new.items
        ≡ text.old.items ++ field_text default_writer words.now) }
{
    if needs_quotes(words) {
        return add_quoted(text, words);
    }
    text.extend_from_slice(words)
}

/// Returns whether a field stands between quotes.
fn needs_quotes(field: &[u8]) -> bool
    ensures { result ≡ needs_quotes default_writer field.now }
{
    for byte in field {
        if is_special(*byte) {
            return true;
        }
    }
    false
}

/// Returns whether a field with this byte stands between quotes.
fn is_special(byte: u8) -> bool
    ensures { result ≡ needs_byte default_writer byte }
{
    // Most bytes are above all of these.
    byte <= b',' && (byte == b',' || byte == b'"' || byte == b'\r' || byte == b'\n')
}

/// Adds a field between quotes.
fn add_quoted(text: &mut Vec<u8>, field: &[u8]) -> Result<(), AllocError>
    ensures { OnOk result (text.new.items ≡ text.old.items ++ quoted default_writer field.now) }
{
    text.push(b'"')?;
    for byte in field {
        add_byte(text, *byte)?;
    }
    text.push(b'"')?;
    Ok(())
}

/// Adds a byte that stands between quotes: a quote twice.
fn add_byte(text: &mut Vec<u8>, byte: u8) -> Result<(), AllocError>
    ensures { OnOk result (text.new.items
        ≡ text.old.items ++ escaped default_writer (byte ∷ [])) }
{
    if byte == b'"' {
        return add_pieces(text, &["\"\""]);
    }
    text.push(byte)?;
    Ok(())
}
