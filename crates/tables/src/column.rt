//! The column of a table that describes a fault beside its name.

ghost use Rattle.std.specs.Prelude.{◌≡◌, ◌<◌, IfOk, Some, length, map, slice_get};
ghost use Rattle.table_rows.specs.Cells.{cell_in};
ghost use Rattle.table_rows.specs.Table.{head_in};
ghost use Rattle.tables.specs.Tables.{coverage, run_head, values_in};

use fault_model::Classes;
use part_files::Merged;
use std::alloc::{AllocError, Global};
use table_rows::{Cell, Heading, add_cells};
use workers::Verdicts;

/// The value of each fault.
#[derive(Clone, Copy)]
pub(crate) enum Column<'a> {
    /// The first test that detects the fault.
    First(&'a Verdicts),
    /// The first test of the fault in a merged run.
    Merged(&'a Merged<'a>),
    /// The class of the fault.
    Class(&'a Classes),
}

impl Column<'_> {
    /// Returns the name of the column.
    pub(crate) fn name(&self) -> &'static str
        ensures { result.now ≡ (values_in self.now).name }
    {
        match self {
            Column::First(_) | Column::Merged(_) => "first",
            Column::Class(_) => "class",
        }
    }

    /// Returns the value of a fault.
    pub(crate) fn value(&self, fault: u32) -> Option<u32>
        requires { fault < length (values_in self.now).values }
        ensures { slice_get (values_in self.now).values fault ≡ Some result }
    {
        match self {
            Column::First(verdicts) => verdicts.first(fault),
            Column::Merged(merged) => merged.first(fault),
            Column::Class(classes) => Some(classes.class_of(fault)),
        }
    }

    /// Returns the names of the sums.
    pub(crate) fn sum_names(&self) -> &'static [&'static str]
        ensures { map (λ name. name.now) result.now ≡ (values_in self.now).sum_names }
    {
        match self {
            Column::First(_) | Column::Merged(_) => COVERAGE,
            Column::Class(_) => &["faults", "classes"],
        }
    }

    /// Returns the sums of this number of faults.
    pub(crate) fn sums(&self, alloc: Global, faults: u32) -> Result<Vec<Cell<'static>>, AllocError>
        requires { faults ≡ length (values_in self.now).values }
        ensures { IfOk result (λ sums. map cell_in sums.items ≡ (values_in self.now).sums) }
    {
        match self {
            Column::First(verdicts) => coverage(alloc, verdicts.detected(), faults),
            Column::Merged(merged) => coverage(alloc, merged.detected(), faults),
            Column::Class(classes) => {
                let mut sums = Vec::new(alloc);
                let cells = [
                    Cell::Number(u64::from(faults)),
                    Cell::Number(u64::from(classes.count())),
                ];
                add_cells(&mut sums, &cells)?;
                Ok(sums)
            }
        }
    }
}

/// The names of the sums of a run.
const COVERAGE: &[&str] = &["detected", "faults", "percent"];

/// Returns what a table with the sums of a run has beside its rows.
pub(crate) fn run_heading<'a>(
    columns: &'a [&'static str],
    array: &'static str,
    sums: &'a [Cell<'a>],
) -> Heading<'a>
    ensures { head_in result ≡ run_head (map (λ name. name.now) columns.entry.now) array.now
        (map cell_in sums.entry.now) }
{
    Heading {
        columns,
        array,
        sum_names: COVERAGE,
        sums,
    }
}

/// Returns the sums of a run.
pub(crate) fn coverage(
    alloc: Global,
    detected: u32,
    faults: u32,
) -> Result<Vec<Cell<'static>>, AllocError>
    ensures { IfOk result (λ sums. map cell_in sums.items ≡ coverage detected faults) }
{
    let mut sums = Vec::new(alloc);
    let cells = [
        Cell::Number(u64::from(detected)),
        Cell::Number(u64::from(faults)),
        Cell::Percent {
            part: detected,
            whole: faults,
        },
    ];
    add_cells(&mut sums, &cells)?;
    Ok(sums)
}
