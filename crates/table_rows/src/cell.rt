//! Cells.

ghost use Rattle.std.specs.Prelude.{◌≡◌, ◌++◌, OnOk, decimal, map};
ghost use Rattle.std.specs.List.{flat_map};
ghost use Rattle.table_rows.specs.Cells.{cell_in, number_cell, percent};
ghost use Rattle.table_rows.specs.Table.{separator};

use itoa::Buffer;
use std::alloc::AllocError;

/// A cell of a table.
#[derive(Clone, Copy)]
pub enum Cell<'a> {
    /// No value.
    Empty,
    /// A number.
    Number(u64),
    /// Some words.
    Words(&'a str),
    /// A part of a whole in percent, rounded down to two decimals. It is 0 if the whole is 0.
    Percent { part: u32, whole: u32 },
}

impl Cell<'_> {
    /// Returns the cell of a number that may be missing.
    pub fn of(number: Option<u64>) -> Self
        ensures { cell_in result ≡ number_cell number }
    {
        match number {
            Some(number) => Cell::Number(number),
            None => Cell::Empty,
        }
    }
}

/// Adds the comma before what stands at a place. There is none before the first.
pub(crate) fn add_separator(text: &mut Vec<u8>, place: usize) -> Result<(), AllocError>
    ensures { OnOk result (text.new.items ≡ text.old.items ++ separator place) }
{
    if place > 0 {
        text.push(b',')?;
    }
    Ok(())
}

/// Adds a number.
#[inline(always)]
pub(crate) fn add_number(text: &mut Vec<u8>, number: u64) -> Result<(), AllocError>
    ensures { OnOk result (text.new.items ≡ text.old.items ++ decimal number) }
{
    let mut buffer = Buffer::new();
    text.extend_from_slice(buffer.format(number).as_bytes())
}

/// Adds a part of a whole in percent, rounded down to two decimals.
pub(crate) fn add_percent(text: &mut Vec<u8>, part: u32, whole: u32) -> Result<(), AllocError>
    ensures { OnOk result (text.new.items ≡ text.old.items ++ percent part whole) }
{
    let hundredths = 10_000 * u64::from(part) / u64::from(whole.max(1));
    let decimals = hundredths % 100;
    let mut units = Buffer::new();
    let mut tens = Buffer::new();
    let mut ones = Buffer::new();
    let pieces = [
        units.format(hundredths / 100),
        ".",
        tens.format(decimals / 10),
        ones.format(decimals % 10),
    ];
    add_pieces(text, &pieces)
}

/// Adds pieces of text, one after another.
pub fn add_pieces(text: &mut Vec<u8>, pieces: &[&str]) -> Result<(), AllocError>
    ensures { OnOk result (text.new.items
        ≡ text.old.items ++ flat_map (λ piece. piece.now) pieces.now) }
{
    for piece in pieces {
        text.extend_from_slice(piece.as_bytes())?;
    }
    Ok(())
}

/// Adds cells.
#[inline(always)]
pub fn add_cells<'a>(cells: &mut Vec<Cell<'a>>, more: &[Cell<'a>]) -> Result<(), AllocError>
    ensures { OnOk result (map cell_in cells.new.items
        ≡ map cell_in cells.old.items ++ map cell_in more.now) }
{
    cells.extend_from_slice(more)
}
