//! Rows as JSON (RFC 8259).

ghost use Rattle.std.specs.Prelude.{◌≡◌, ◌≤◌, ◌++◌, true, IfOk, OnOk, length, map};
ghost use Rattle.json.specs.Print.{escape, quoted};
ghost use Rattle.threaded_lines.specs.Texts.{text_between};
ghost use Rattle.table_rows.specs.Cells.{cell_in, json_cell};
ghost use Rattle.table_rows.specs.Table.{head_in, json_front, keyed_object, keys, object};
ghost use Rattle.table_rows.specs.Table.{row_texts};
ghost use Rattle.table_rows.specs.declared.rows.Format.TheVariants as format;

use crate::cell::{Cell, add_number, add_percent, add_pieces, add_separator};
use crate::rows::{Heading, Rows};
use json::Writer;
use std::alloc::{AllocError, Global};
use std::mem;

/// The number of bytes for each row that a text gets room for at first. Most are shorter.
const BYTES_OF_AN_OBJECT: usize = 112;

/// Returns the object of a table up to its rows.
pub(crate) fn json_header(alloc: Global, heading: Heading<'_>) -> Result<Vec<u8>, AllocError>
    ensures { IfOk result (λ text. text.items ≡ json_front (head_in heading.entry)) }
{
    let mut text = Vec::new(alloc);
    add_pieces(&mut text, &["{\"summary\":"])?;
    add_object(alloc, &mut text, heading.sum_names, heading.sums)?;
    add_pieces(&mut text, &[",\"", heading.array, "\":["])?;
    Ok(text)
}

/// Returns the objects of the rows from one number up to another. Each begins on a line of its own,
/// after a comma if it isn't the first of the table.
pub(crate) fn json_stretch<T: Rows>(
    alloc: Global,
    rows: &T,
    start: usize,
    end: usize,
) -> Result<Vec<u8>, AllocError>
    requires order { start ≤ end }
    requires within { end ≤ length (T.table rows.now).rows }
    ensures { IfOk result (λ text. text.items
        ≡ text_between (row_texts format.Json (T.table rows.now)) start end) }
{
    let keys = keys_of(alloc, rows.heading().columns)?;
    let mut text = Vec::with_capacity(alloc, BYTES_OF_AN_OBJECT.saturating_mul(end - start))?;
    let mut cells = Vec::new(alloc);
    for row in start..end {
        cells.clear();
        rows.put_row(row, &mut cells)?;
        add_separator(&mut text, row)?;
        text.push(b'\n')?;
        add_members(alloc, &mut text, &keys, &cells)?;
    }
    Ok(text)
}

/// Adds the object whose members have these names and values.
pub fn add_object(
    alloc: Global,
    text: &mut Vec<u8>,
    names: &[&str],
    cells: &[Cell<'_>],
) -> Result<(), AllocError>
    ensures { OnOk result (text.new.items ≡ text.old.items
        ++ object (map (λ name. name.now) names.now) (map cell_in cells.now)) }
{
    let keys = keys_of(alloc, names)?;
    add_members(alloc, text, &keys, cells)
}

/// Returns what stands before the value of each member of an object, from the names of the members.
fn keys_of(alloc: Global, names: &[&str]) -> Result<Vec<Vec<u8>>, AllocError>
    ensures { IfOk result (λ made. map (λ key. key.items) made.items
        ≡ keys (map (λ name. name.now) names.now)) }
{
    let mut keys = Vec::with_capacity(alloc, names.len())?;
    for place in 0..names.len() {
        let mut key = Vec::new(alloc);
        add_separator(&mut key, place)?;
        add_pieces(&mut key, &["\"", names[place], "\":"])?;
        keys.push(key)?;
    }
    Ok(keys)
}

/// Adds the object with these values, from what stands before each.
fn add_members(
    alloc: Global,
    text: &mut Vec<u8>,
    keys: &[Vec<u8>],
    cells: &[Cell<'_>],
) -> Result<(), AllocError>
    ensures { OnOk result (text.new.items ≡ text.old.items
        ++ keyed_object (map (λ key. key.items) keys.now) (map cell_in cells.now)) }
{
    text.push(b'{')?;
    for place in 0..keys.len().min(cells.len()) {
        text.extend_from_slice(&keys[place])?;
        add_cell(alloc, text, cells[place])?;
    }
    text.push(b'}')?;
    Ok(())
}

/// Adds the text of a cell.
fn add_cell(alloc: Global, text: &mut Vec<u8>, cell: Cell<'_>) -> Result<(), AllocError>
    ensures { OnOk result (text.new.items ≡ text.old.items ++ json_cell (cell_in cell.entry)) }
{
    match cell {
        Cell::Empty => text.extend_from_slice("null".as_bytes()),
        Cell::Number(number) => add_number(text, number),
        Cell::Words(words) => add_quoted(alloc, text, words),
        Cell::Percent { part, whole } => add_percent(text, part, whole),
    }
}

/// Adds a JSON string. Most words stand in it as they are.
fn add_quoted(alloc: Global, text: &mut Vec<u8>, words: &str) -> Result<(), AllocError>
    ensures { OnOk result (text.new.items ≡ text.old.items ++ quoted words.now) }
{
    if is_plain(words.as_bytes()) {
        text.push(b'"')?;
        text.extend_from_slice(words.as_bytes())?;
        text.push(b'"')?;
        return Ok(());
    }
    add_escaped(alloc, text, words)
}

/// Returns whether a JSON string has the bytes as they are. If it returns false, it may.
fn is_plain(bytes: &[u8]) -> bool
    ensures { result ≡ true → escape bytes.now ≡ bytes.now }
{
    for byte in bytes {
        if *byte < b' ' || *byte == b'"' || *byte == b'\\' {
            return false;
        }
    }
    true
}

/// Adds a JSON string, in which some bytes may be escaped.
fn add_escaped(alloc: Global, text: &mut Vec<u8>, words: &str) -> Result<(), AllocError>
    ensures { OnOk result (text.new.items ≡ text.old.items ++ quoted words.now) }
{
    let mut writer = Writer::new(mem::replace(text, Vec::new(alloc)));
    writer.string(words)?;
    *text = writer.into_inner();
    Ok(())
}
