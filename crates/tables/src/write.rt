//! Writing a table.

ghost use Rattle.std.specs.Prelude.{◌≡◌, IfErr};
ghost use Rattle.std.specs.List.{flat_map};
ghost use Rattle.byte_output.specs.Output.{Writes};
ghost use Rattle.report.specs.EndToEnd.{IsListFault, WritesOneOf};
ghost use Rattle.table_rows.specs.Table.{table_text};

use report::{Out, ReportFault, SimFault};
use std::alloc::Global;
use std::sync::Wait;
use std::thread::Threads;
use table_rows::{Format, Rows, put_texts, table_texts, table_texts_in_threads};

/// Writes a table. It makes the whole text first, so an output gets a table or a beginning of one,
/// or nothing if memory is refused.
pub(crate) fn write_rows<T: Rows, W: Out>(
    alloc: Global,
    rows: &T,
    format: Format,
    out: &mut W,
) -> Result<(), SimFault>
    ensures written { WritesOneOf (λ bytes. bytes ≡ table_text format (T.table rows.now)) result
        (W.seen out.old) (W.seen out.new) }
    ensures refused { IfErr result IsListFault }
{
    let texts = table_texts(alloc, rows, format)?;
    write_texts(&texts, out)?;
    Ok(())
}

/// Writes a table, which threads make.
pub(crate) fn write_rows_in_threads<R: Threads + Wait, T: Rows + Sync, W: Out>(
    rt: &R,
    alloc: Global,
    rows: &T,
    format: Format,
    workers: u32,
    out: &mut W,
) -> Result<(), SimFault>
    ensures written { WritesOneOf (λ bytes. bytes ≡ table_text format (T.table rows.now)) result
        (W.seen out.old) (W.seen out.new) }
    ensures refused { IfErr result IsListFault }
{
    let texts = table_texts_in_threads(rt, alloc, rows, format, workers)?;
    write_texts(&texts, out)?;
    Ok(())
}

/// Writes texts, one after another.
pub(crate) fn write_texts<W: Out>(texts: &[Vec<u8>], out: &mut W) -> Result<(), ReportFault>
    ensures { Writes result (W.seen out.old) (W.seen out.new)
        (flat_map (λ text. text.items) texts.now) }
{
    Ok(put_texts(texts, out)?)
}
