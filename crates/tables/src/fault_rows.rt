//! Tables of faults.

ghost use Rattle.std.specs.Prelude.{◌≡◌, ◌<◌, ◌++◌, All, IfErr, IfOk, OnOk, length, map};
ghost use Rattle.fault_model.specs.Fault.{faults};
ghost use Rattle.report.specs.EndToEnd.{IsListFault, IsListingFault, WritesOneOf};
ghost use Rattle.table_rows.specs.Cells.{cell_in};
ghost use Rattle.tables.specs.FurtherColumns.{HaveCells, cell_at, further_in};
ghost use Rattle.tables.specs.Rows.{fault_cells, row_in};
ghost use Rattle.tables.specs.Tables.{IsClassTableOf, IsClassTableOfCircuit, column_names};
ghost use Rattle.tables.specs.Tables.{fault_table, has_row, listed, values_in};

use crate::column::Column;
use crate::further::Further;
use crate::row::{FaultRow, row_of};
use crate::write::write_rows;
use bench_net::{Circuit, read_bench};
use fault_model::{Faults, Model, collapse, list_faults_in};
use report::{Lines, Out, SimFault};
use std::alloc::{AllocError, Global};
use table_rows::{Cell, Format, Heading, Rows, add_cells};

/// The rows of the faults of a list.
#[derive(Drop)]
pub(crate) struct FaultRows<'a> {
    circuit: &'a Circuit,
    list: &'a Faults,
    column: Column<'a>,
    lines: Lines,
    further: &'a [Further<'a>],
    /// The numbers of the faults that have a row.
    numbers: Vec<u32>,
    names: Vec<&'static str>,
    sums: Vec<Cell<'static>>,
    ghost faults: { list.now.list ≡ faults list.now.model circuit.now },
    ghost counted: { length (values_in column).values ≡ length list.now.list },
    ghost filled: { HaveCells (length list.now.list) (map further_in further.now) },
    ghost chosen: { numbers.items
        ≡ map (λ at. at.0) (listed list.now.list (values_in column).values lines) },
    ghost named: { map (λ name. name.now) names.items
        ≡ column_names (values_in column).name (map further_in further.now) },
    ghost summed: { map cell_in sums.items ≡ (values_in column).sums },
}

impl Rows for FaultRows<'_> {
    ghost use Rattle.std.specs.Prelude.{map};
    ghost use Rattle.tables.specs.FurtherColumns.{further_in};
    ghost use Rattle.tables.specs.Tables.{fault_table, values_in};

    ghost table = { λ own. fault_table own.circuit.now own.list.now.list (values_in own.column)
        own.lines (map further_in own.further.now) };

    fn heading(&self) -> Heading<'_> {
        Heading {
            columns: &self.names,
            array: "faults",
            sum_names: self.column.sum_names(),
            sums: &self.sums,
        }
    }

    fn count(&self) -> usize {
        self.numbers.len()
    }

    fn put_row<'a>(&'a self, row: usize, cells: &mut Vec<Cell<'a>>) -> Result<(), AllocError> {
        let fault = self.numbers[row];
        let value = self.column.value(fault);
        put_fault(row_of(self.circuit, self.list, fault), value, cells)?;
        put_further(self.further, fault, cells)
    }
}

impl<'a> FaultRows<'a> {
    /// Returns the rows of the faults that are to be listed.
    pub(crate) fn new(
        alloc: Global,
        circuit: &'a Circuit,
        list: &'a Faults,
        column: Column<'a>,
        lines: Lines,
        further: &'a [Further<'a>],
    ) -> Result<FaultRows<'a>, AllocError>
        requires list { list.now.list ≡ faults list.now.model circuit.now }
        requires count { length (values_in column).values ≡ length list.now.list }
        requires further { HaveCells (length list.now.list) (map further_in further.now) }
        ensures { IfOk result (λ rows. fault_table rows.circuit.now rows.list.now.list
            (values_in rows.column) rows.lines (map further_in rows.further.now)
            ≡ fault_table circuit.now list.now.list (values_in column.entry) lines
            (map further_in further.entry.now)) }
    {
        let numbers = listed_faults(alloc, list, column, lines)?;
        let names = column_names(alloc, column.name(), further)?;
        let sums = column.sums(alloc, list.count())?;
        Ok(FaultRows {
            circuit,
            list,
            column,
            lines,
            further,
            numbers,
            names,
            sums,
        })
    }
}

/// Returns the numbers of the faults that have a row.
fn listed_faults(
    alloc: Global,
    list: &Faults,
    column: Column<'_>,
    lines: Lines,
) -> Result<Vec<u32>, AllocError>
    requires { length (values_in column).values ≡ length list.now.list }
    ensures { IfOk result (λ faults. faults.items
        ≡ map (λ at. at.0) (listed list.now.list (values_in column.entry).values lines)) }
{
    let mut faults = Vec::new(alloc);
    for fault in 0..list.count() {
        if !has_row(lines, column.value(fault)) {
            continue;
        }
        faults.push(fault)?;
    }
    Ok(faults)
}

/// Returns whether a fault with this value has a row.
fn has_row(lines: Lines, value: Option<u32>) -> bool
    ensures { result ≡ has_row lines value }
{
    match lines {
        Lines::Undetected => value.is_none(),
        Lines::All | Lines::Omitted => true,
    }
}

/// Returns the names of the columns.
fn column_names(
    alloc: Global,
    column: &'static str,
    further: &[Further<'_>],
) -> Result<Vec<&'static str>, AllocError>
    ensures { IfOk result (λ names. map (λ name. name.now) names.items
        ≡ column_names column.now (map further_in further.now)) }
{
    let mut names = Vec::new(alloc);
    names.extend_from_slice(&["kind", "name", "pin", "defect", column, "net"])?;
    for column in further {
        names.push(column.name())?;
    }
    Ok(names)
}

/// Adds the cells of a fault with its value.
fn put_fault<'a>(
    row: FaultRow<'a>,
    value: Option<u32>,
    cells: &mut Vec<Cell<'a>>,
) -> Result<(), AllocError>
    ensures { OnOk result (map cell_in cells.new.items
        ≡ map cell_in cells.old.items ++ fault_cells (row_in row.entry) value) }
{
    let FaultRow { place, defect } = row;
    let own = [
        Cell::Words(place.kind),
        Cell::Words(place.name),
        Cell::of(place.pin),
        Cell::Words(defect),
        Cell::of(widened(value)),
        Cell::Words(place.net),
    ];
    add_cells(cells, &own)
}

/// Returns the same number with more bits.
fn widened(number: Option<u32>) -> Option<u64>
    ensures { result ≡ number }
{
    match number {
        Some(number) => Some(u64::from(number)),
        None => None,
    }
}

/// Adds the cells of a fault in further columns.
fn put_further<'a>(
    further: &[Further<'_>],
    fault: u32,
    cells: &mut Vec<Cell<'a>>,
) -> Result<(), AllocError>
    requires { All (λ f. fault < length (further_in f).cells) further.now }
    ensures { OnOk result (map cell_in cells.new.items ≡ map cell_in cells.old.items
        ++ map (λ f. cell_at (further_in f) fault) further.now) }
{
    for column in further {
        cells.push(column.cell(fault))?;
    }
    Ok(())
}

/// Reads a circuit, and writes a table of the faults of a model with the class of each.
///
/// It fails as `report::faults_text_in` does.
pub fn faults_table_in<W: Out>(
    alloc: Global,
    model: Model,
    bench: &[u8],
    format: Format,
    out: &mut W,
) -> Result<(), SimFault>
    ensures written { WritesOneOf (IsClassTableOf model bench.now format) result
        (W.seen out.old) (W.seen out.new) }
    ensures refused { IfErr result (IsListingFault bench.now) }
{
    let circuit = read_bench(alloc, bench)?;
    write_classes(alloc, model, &circuit, format, out)
}

/// Writes a table of the faults of a circuit with the class of each.
fn write_classes<W: Out>(
    alloc: Global,
    model: Model,
    circuit: &Circuit,
    format: Format,
    out: &mut W,
) -> Result<(), SimFault>
    ensures written { WritesOneOf (IsClassTableOfCircuit model circuit.now format) result
        (W.seen out.old) (W.seen out.new) }
    ensures refused { IfErr result IsListFault }
{
    let list = list_faults_in(alloc, circuit, model)?;
    let classes = collapse(alloc, circuit, &list)?;
    let column = Column::Class(&classes);
    let rows = FaultRows::new(alloc, circuit, &list, column, Lines::All, &[])?;
    write_rows(alloc, &rows, format, out)
}
