//! The text of a table, in one thread or in several.

ghost use Rattle.std.specs.Prelude.{◌≡◌, ◌≤◌, ◌++◌, ◌∷◌, [], IfOk, Ok, length, map};
ghost use Rattle.std.specs.List.{flat_map};
ghost use Rattle.byte_output.specs.Output.{Writes};
ghost use Rattle.threaded_lines.specs.Texts.{joined, text_between};
ghost use Rattle.table_rows.specs.Table.{back, front, row_texts, table_text};

use crate::csv_rows::{csv_header, csv_stretch};
use crate::json_rows::{json_header, json_stretch};
use crate::rows::{Format, Rows};
use byte_output::{Out, OutFailed, put_all};
use std::alloc::{AllocError, Global};
use std::snapshot::Snapshot;
use std::sync::Wait;
use std::thread;
use std::thread::{Promise, Threads};

/// The least number of rows for which a thread starts.
const ROWS_OF_A_THREAD: usize = 1 << 12;

/// The greatest number of rows of a text if one thread makes the table. These take less than a
/// megabyte, so they fit where other memory was freed.
const ROWS_OF_A_TEXT: usize = 1 << 12;

/// The greatest number of threads.
const MAX_THREADS: usize = 64;

/// The promise of a thread: it returns the text of the rows from one number up to another.
#[derive(Drop)]
struct TextOf<T> {
    rows: Snapshot<T>,
    format: Format,
    start: usize,
    end: usize,
}

impl<T: Rows> Promise<Result<Vec<u8>, AllocError>> for TextOf<T> {
    ghost use Rattle.std.specs.Prelude.{◌≡◌, IfOk};
    ghost use Rattle.threaded_lines.specs.Texts.{text_between};
    ghost use Rattle.table_rows.specs.Table.{row_texts};

    ghost kept_by = { λ p r. IfOk r (λ text. text.items
        ≡ text_between (row_texts p.format (T.table p.rows.value)) p.start p.end) };
}

/// Returns the texts that make a table, one after another.
pub fn table_texts<T: Rows>(
    alloc: Global,
    rows: &T,
    format: Format,
) -> Result<Vec<Vec<u8>>, AllocError>
    ensures { IfOk result (λ texts. flat_map (λ text. text.items) texts.items
        ≡ table_text format (T.table rows.now)) }
{
    let count = rows.count();
    let mut texts = Vec::new(alloc);
    let mut start = 0;
    while start < count {
        let end = start + ROWS_OF_A_TEXT.min(count - start);
        texts.push(stretch_text(alloc, rows, format, start, end)?)?;
        start = end;
    }
    whole_table(alloc, rows, format, texts)
}

/// Returns the same, made in at most as many threads as there are workers, each for a stretch of
/// the rows. The caller's thread is one of them. If a thread doesn't start, the caller's thread
/// makes its text and the following ones.
pub fn table_texts_in_threads<R: Threads + Wait, T: Rows + Sync>(
    rt: &R,
    alloc: Global,
    rows: &T,
    format: Format,
    workers: u32,
) -> Result<Vec<Vec<u8>>, AllocError>
    ensures { IfOk result (λ texts. flat_map (λ text. text.items) texts.items
        ≡ table_text format (T.table rows.now)) }
{
    let count = rows.count();
    let threads = (workers as usize)
        .min(MAX_THREADS)
        .min(count / ROWS_OF_A_THREAD);
    if threads < 2 {
        return table_texts(alloc, rows, format);
    }
    let texts = share_rows(rt, alloc, rows, format, threads, count.div_ceil(threads))?;
    whole_table(alloc, rows, format, texts)
}

/// Returns the texts of a table, from those of its rows.
fn whole_table<T: Rows>(
    alloc: Global,
    rows: &T,
    format: Format,
    texts: Vec<Vec<u8>>,
) -> Result<Vec<Vec<u8>>, AllocError>
    requires { flat_map (λ text. text.items) texts.items
        ≡ joined (row_texts format (T.table rows.now)) }
    ensures { IfOk result (λ texts. flat_map (λ text. text.items) texts.items
        ≡ table_text format (T.table rows.now)) }
{
    let mut rest = texts;
    let mut all = Vec::new(alloc);
    all.push(front(alloc, rows, format)?)?;
    all.append(&mut rest)?;
    all.push(back(alloc, format)?)?;
    Ok(all)
}

/// Returns the text before the rows.
fn front<T: Rows>(alloc: Global, rows: &T, format: Format) -> Result<Vec<u8>, AllocError>
    ensures { IfOk result (λ text. text.items ≡ front format (T.table rows.now).head) }
{
    match format {
        Format::Csv => csv_header(alloc, rows.heading().columns),
        Format::Json => json_header(alloc, rows.heading()),
    }
}

/// Returns the text after the rows.
fn back(alloc: Global, format: Format) -> Result<Vec<u8>, AllocError>
    ensures { IfOk result (λ text. text.items ≡ back format) }
{
    match format {
        Format::Csv => Ok(Vec::new(alloc)),
        Format::Json => Vec::from_slice(alloc, "\n]}\n".as_bytes()),
    }
}

/// Returns the text of the rows from one number up to another.
fn stretch_text<T: Rows>(
    alloc: Global,
    rows: &T,
    format: Format,
    start: usize,
    end: usize,
) -> Result<Vec<u8>, AllocError>
    requires order { start ≤ end }
    requires within { end ≤ length (T.table rows.now).rows }
    ensures { IfOk result (λ text. text.items
        ≡ text_between (row_texts format (T.table rows.now)) start end) }
{
    match format {
        Format::Csv => csv_stretch(alloc, rows, start, end),
        Format::Json => json_stretch(alloc, rows, start, end),
    }
}

/// Returns the texts of the rows, in stretches of this size, each made in a thread of its own, and
/// the last one in the caller's thread.
fn share_rows<R: Threads + Wait, T: Rows + Sync>(
    rt: &R,
    alloc: Global,
    rows: &T,
    format: Format,
    threads: usize,
    size: usize,
) -> Result<Vec<Vec<u8>>, AllocError>
    ensures { IfOk result (λ texts. flat_map (λ text. text.items) texts.items
        ≡ joined (row_texts format (T.table rows.now))) }
{
    thread::scope(
        thread::scope_env(),
        rt,
        move |scope| -> Result<Vec<Vec<u8>>, AllocError>
            ensures { IfOk result (λ texts. flat_map (λ text. text.items) texts.items
                ≡ joined (row_texts format (T.table rows.entry.now))) }
        {
            let count = rows.count();
            let mut handles = Vec::with_capacity(alloc, threads)?;
            let mut start = 0;
            for _thread in 1..threads {
                let end = start + size.min(count - start);
                let promised = TextOf {
                    rows: Snapshot::of(rows),
                    format,
                    start,
                    end,
                };
                let Ok(handle) = scope.spawn_with(
                    promised,
                    move || stretch_text(alloc, rows, format, start, end),
                ) else {
                    break;
                };
                handles.push(handle)?;
                start = end;
            }
            let own = stretch_text(alloc, rows, format, start, count)?;
            let Ok(parts) = thread::join_promised(rt, handles) else {
                return Err(AllocError);
            };
            texts_of(alloc, parts, own)
        },
    )
}

/// Returns the texts that threads made, and then the text of the caller's thread.
fn texts_of(
    alloc: Global,
    parts: Vec<Result<Vec<u8>, AllocError>>,
    own: Vec<u8>,
) -> Result<Vec<Vec<u8>>, AllocError>
    ensures { IfOk result (λ texts. map Ok texts.items ≡ parts.items ++ Ok own ∷ []) }
{
    let mut texts = Vec::with_capacity(alloc, parts.len())?;
    for part in parts {
        texts.push(part?)?;
    }
    texts.push(own)?;
    Ok(texts)
}

/// Writes texts, one after another.
pub fn put_texts<W: Out>(texts: &[Vec<u8>], out: &mut W) -> Result<(), OutFailed>
    ensures { Writes result (W.seen out.old) (W.seen out.new)
        (flat_map (λ text. text.items) texts.now) }
{
    for text in texts {
        put_all(text, out)?;
    }
    Ok(())
}
