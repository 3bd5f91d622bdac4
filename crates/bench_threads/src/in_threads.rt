//! Reads the lines of a bench file in several threads, each of which reads ranges of the lines.

ghost use Rattle.std.specs.Prelude.{◌≤◌, IfErr, IfOk, length};
ghost use Rattle.bench_net.specs.Circuit.{max_bytes};
ghost use Rattle.bench_net.specs.Stored.{AreLinesOf};
ghost use Rattle.bench_net.specs.reader.Entries.{MayBe};

use crate::numbering::number_file;
use crate::reading::{File, read_file};
use crate::setback::Setback;
use crate::stretch::Numbered;
use bench_net::BenchFault;
use bench_net::read::{Lines, MAX_BYTES, read_lines};
use std::alloc::Global;
use std::sync::Wait;
use std::thread::Threads;

/// The least number of bytes for a thread. It reads them in about two milliseconds, 40 times as
/// long as its start.
const BYTES_OF_A_THREAD: usize = 1 << 17;

/// The greatest number of threads that read a file.
const MAX_THREADS: u32 = 64;

/// Statements over numbers, and what threads read on the way to them, which takes some milliseconds
/// to free.
#[derive(Drop)]
pub(crate) struct LinesRead<'a> {
    pub(crate) lines: Lines,
    /// The stretches, if threads read them.
    pub(crate) spent: Option<File<'a>>,
}

/// Returns the statements of a file over numbers, or its error, as [`read_lines`] does, in about as
/// many threads as there are workers. Each thread reads the statements of a stretch of the lines,
/// and meanwhile the caller's thread numbers the names of the stretches before. Then threads number
/// the statements, each those of one stretch. The caller's thread alone reads a short file, and it
/// reads a file with an error again.
pub(crate) fn read_lines_in_threads<'a, R: Threads + Wait>(
    rt: &R,
    alloc: Global,
    text: &'a [u8],
    workers: u32,
) -> Result<LinesRead<'a>, BenchFault>
    ensures lines { IfOk result (λ r.
        AreLinesOf text.now r.lines.names r.lines.lines.items r.lines.at.items) }
    ensures refused { IfErr result (MayBe text.now) }
{
    let threads = threads_for(text, workers);
    if threads < 2 || text.len() > MAX_BYTES {
        return lines_by_caller(alloc, text);
    }
    match lines_by_threads(rt, alloc, text, threads) {
        Ok(read) => Ok(read),
        Err(Setback::Memory) => Err(BenchFault::Memory),
        Err(Setback::Again) => lines_by_caller(alloc, text),
    }
}

/// Returns the statements of a file over numbers, or its error, as [`read_lines`] does.
fn lines_by_caller<'a>(alloc: Global, text: &'a [u8]) -> Result<LinesRead<'a>, BenchFault>
    ensures lines { IfOk result (λ r.
        AreLinesOf text.now r.lines.names r.lines.lines.items r.lines.at.items) }
    ensures refused { IfErr result (MayBe text.now) }
{
    let lines = read_lines(alloc, text)?;
    Ok(LinesRead { lines, spent: None })
}

/// Returns the number of threads that are worth their start.
pub(crate) fn threads_for(text: &[u8], workers: u32) -> u32 {
    let most = workers.min(MAX_THREADS) as usize;
    most.min(text.len() / BYTES_OF_A_THREAD) as u32
}

/// Returns the statements of a file over numbers, if no line has an error and all threads start.
fn lines_by_threads<'a, R: Threads + Wait>(
    rt: &R,
    alloc: Global,
    text: &'a [u8],
    threads: u32,
) -> Result<LinesRead<'a>, Setback>
    requires { length text.now ≤ max_bytes }
    ensures { IfOk result (λ r.
        AreLinesOf text.now r.lines.names r.lines.lines.items r.lines.at.items) }
{
    let file = read_file(rt, alloc, text, threads)?;
    let (numbered, names) = number_file(rt, alloc, &file, threads)?;
    let Numbered { lines, at } = numbered;
    Ok(LinesRead {
        lines: Lines { names, lines, at },
        spent: Some(file),
    })
}
