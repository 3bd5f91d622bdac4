//! The tables of merged runs.

ghost use Rattle.std.specs.Prelude.{◌≡◌, [], IfErr, IfOk, is_some, length, map};
ghost use Rattle.fault_model.specs.Fault.{faults};
ghost use Rattle.report.specs.EndToEnd.{IsListFault, WritesOneOf};
ghost use Rattle.part_files.specs.Merging.{run_of};
ghost use Rattle.table_rows.specs.Table.{table_text};
ghost use Rattle.tables.specs.Tables.{fault_table, first_values};
ghost use Rattle.tables.specs.Views.{IsTableOfMerged};

use crate::blocks::write_blocks;
use crate::column::Column;
use crate::fault_rows::FaultRows;
use crate::write::write_rows;
use bench_net::Circuit;
use block_coverage::Separator;
use fault_model::Faults;
use part_files::Merged;
use report::{Lines, Out, SimFault};
use std::alloc::{AllocError, Global};
use table_rows::Format;

/// A table of a merged run.
#[derive(Clone, Copy)]
pub enum MergedView {
    /// A row for each fault, with the first test that detects it. With [`Lines::Undetected`] only
    /// the undetected faults have a row, and else all have one. By [`crate::merged_table`] this is
    /// the table of the run.
    Faults(Lines),
    /// A row for each block, as in [`crate::View::Blocks`].
    Blocks(Separator),
}

/// Writes a table of a merged run. `circuit` and `list` are the run's circuit and its faults.
///
/// # Errors
///
/// [`SimFault::Memory`] if there is no memory; nothing was written. [`SimFault::Report`] if the
/// output failed; it has a beginning of the table.
pub fn write_view_of_merged<W: Out>(
    alloc: Global,
    merged: &Merged<'_>,
    circuit: &Circuit,
    list: &Faults,
    view: MergedView,
    format: Format,
    out: &mut W,
) -> Result<(), SimFault>
    requires list { list.now.list ≡ faults list.now.model circuit.now }
    requires count { length (run_of merged.now).firsts ≡ length list.now.list }
    ensures written { WritesOneOf (IsTableOfMerged circuit.now list.now.list
        (run_of merged.now).firsts view format) result (W.seen out.old) (W.seen out.new) }
    ensures refused { IfErr result IsListFault }
{
    match view {
        MergedView::Faults(lines) => {
            write_merged_faults(alloc, merged, circuit, list, lines, format, out)
        }
        MergedView::Blocks(separator) => {
            let detected = merged_flags(alloc, merged)?;
            write_blocks(alloc, circuit, list, &detected, separator, format, out)
        }
    }
}

/// Writes the table of the faults of a merged run.
fn write_merged_faults<W: Out>(
    alloc: Global,
    merged: &Merged<'_>,
    circuit: &Circuit,
    list: &Faults,
    lines: Lines,
    format: Format,
    out: &mut W,
) -> Result<(), SimFault>
    requires list { list.now.list ≡ faults list.now.model circuit.now }
    requires count { length (run_of merged.now).firsts ≡ length list.now.list }
    ensures written { WritesOneOf (λ bytes. bytes ≡ table_text format (fault_table circuit.now
        list.now.list (first_values (run_of merged.now).firsts) lines [])) result
        (W.seen out.old) (W.seen out.new) }
    ensures refused { IfErr result IsListFault }
{
    let column = Column::Merged(merged);
    let rows = FaultRows::new(alloc, circuit, list, column, lines, &[])?;
    write_rows(alloc, &rows, format, out)
}

/// Returns whether each fault of a merged run is detected, by its number.
///
/// # Errors
///
/// `AllocError` if there is no memory for a byte for each fault.
pub fn merged_flags(alloc: Global, merged: &Merged<'_>) -> Result<Vec<bool>, AllocError>
    ensures { IfOk result (λ flags. flags.items ≡ map is_some (run_of merged.now).firsts) }
{
    let mut flags = Vec::with_capacity(alloc, merged.total() as usize)?;
    for fault in 0..merged.total() {
        flags.push(merged.first(fault).is_some())?;
    }
    Ok(flags)
}
