//! The table of the blocks of a circuit.

ghost use Rattle.std.specs.Prelude.{◌≡◌, ◌++◌, IfErr, IfOk, length, map};
ghost use Rattle.block_coverage.specs.Blocks.{AreBlockRows, byte_of, cells_in, fault_names};
ghost use Rattle.fault_model.specs.Fault.{faults};
ghost use Rattle.report.specs.EndToEnd.{IsListFault, WritesOneOf};
ghost use Rattle.analysis_reports.specs.Blocks.{flagged};
ghost use Rattle.tables.specs.Lists.{IsBlockTable, circuit_rows};

use crate::column::{coverage, run_heading};
use crate::lists::BlockRows;
use crate::write::write_rows;
use analysis_reports::count_flags;
use bench_net::Circuit;
use block_coverage::{BlockRow, Separator, block_rows};
use fault_model::Faults;
use report::{Out, SimFault};
use std::alloc::{AllocError, Global};
use table_rows::Format;

/// Writes the table of the coverage of the blocks of a fault list. `detected` has a flag for each
/// fault of the list: whether a test detects it.
pub(crate) fn write_blocks<W: Out>(
    alloc: Global,
    circuit: &Circuit,
    list: &Faults,
    detected: &[bool],
    separator: Separator,
    format: Format,
    out: &mut W,
) -> Result<(), SimFault>
    requires list { list.now.list ≡ faults list.now.model circuit.now }
    requires count { length detected.now ≡ length list.now.list }
    ensures written { WritesOneOf (IsBlockTable (byte_of separator) format circuit.now
        list.now.list detected.now) result (W.seen out.old) (W.seen out.new) }
    ensures refused { IfErr result IsListFault }
{
    let all = list.count();
    let found = count_flags(detected);
    let blocks = block_rows(alloc, circuit, list, detected, separator)?;
    let blocks = listed_blocks(alloc, blocks, found, all, format)?;
    let sums = coverage(alloc, found, all)?;
    let rows = BlockRows {
        heading: run_heading(&["block", "detected", "faults", "percent"], "blocks", &sums),
        blocks: &blocks,
    };
    write_rows(alloc, &rows, format, out)
}

/// Returns the blocks that have a row in this format. All faults of the circuit have the first
/// record of comma-separated values.
fn listed_blocks<'a>(
    alloc: Global,
    blocks: Vec<BlockRow<'a>>,
    detected: u32,
    faults: u32,
    format: Format,
) -> Result<Vec<BlockRow<'a>>, AllocError>
    ensures { IfOk result (λ listed. map cells_in listed.items
        ≡ circuit_rows format detected faults ++ map cells_in blocks.entry.items) }
{
    let mut rest = blocks;
    if format == Format::Json {
        return Ok(rest);
    }
    let mut listed = Vec::new(alloc);
    let circuit = BlockRow {
        name: "(circuit)",
        detected,
        faults,
    };
    listed.push(circuit)?;
    listed.append(&mut rest)?;
    Ok(listed)
}
