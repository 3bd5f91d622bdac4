//! The rows of a table.

ghost use Rattle.std.specs.Prelude.{◌≡◌, ◌<◌, ◌++◌, OnOk, length, map};
ghost use Rattle.table_rows.specs.Cells.{cell_in};
ghost use Rattle.table_rows.specs.Table.{Table, head_in, row_at};

use crate::cell::Cell;
use std::alloc::AllocError;

/// The format of a table.
#[derive(Clone, Copy, Debug, PartialEq, Eq)]
pub enum Format {
    /// A header, and a record for each row. A missing value is empty.
    Csv,
    /// An object with the sums, and an array with an object for each row.
    Json,
}

/// What a table has beside its rows.
#[derive(Clone, Copy)]
pub struct Heading<'a> {
    /// The names of the columns.
    pub columns: &'a [&'static str],
    /// The name of the array of the rows in JSON.
    pub array: &'static str,
    /// The names of the sums, which only JSON has.
    pub sum_names: &'a [&'static str],
    /// The sums.
    pub sums: &'a [Cell<'a>],
}

/// The rows of a table.
pub trait Rows {
    /// The table that they mean.
    ghost table: { Self → Table };

    /// Returns what the table has beside its rows.
    fn heading(&self) -> Heading<'_>
        ensures { head_in result ≡ (table self.now).head };

    /// Returns the number of rows.
    fn count(&self) -> usize
        ensures { result ≡ length (table self.now).rows };

    /// Adds the cells of a row.
    fn put_row<'a>(&'a self, row: usize, cells: &mut Vec<Cell<'a>>) -> Result<(), AllocError>
        requires { row < length (table self.now).rows }
        ensures { OnOk result (map cell_in cells.new.items
            ≡ map cell_in cells.old.items ++ row_at (table self.now) row) };
}
