//! The lines of a fault list, which threads put together in stretches of the list.

ghost use Rattle.std.specs.Prelude.{◌<◌, ◌≤◌, IfOk, length};
ghost use Rattle.byte_output.specs.Output.{Writes};
ghost use Rattle.threaded_lines.specs.Stretches.{HasStretch, HaveStretches, PutsFrom, PutsSome};
ghost use Rattle.threaded_lines.specs.Texts.{joined};

use crate::fault_lines::FaultLines;
use byte_output::{Out, OutFailed, Plain, put_all};
use std::alloc::{AllocError, Global};
use std::snapshot::Snapshot;
use std::sync::Wait;
use std::thread;
use std::thread::{Promise, Threads};

/// The number of faults of a stretch if one thread puts the lines together. These take about 400
/// kB, so they fit into a cache.
const FAULTS_OF_A_STRETCH: u32 = 1 << 14;

/// The greatest number of faults of a stretch if several threads put the lines together. Each
/// stretch starts a thread, so few large ones take less time than many small ones. The lines of one
/// take about 1.6 MB.
const MOST_FAULTS: u32 = 1 << 16;

/// The greatest number of threads that put lines together.
const MAX_THREADS: u32 = 64;

/// The lines of consecutive faults.
#[derive(Drop)]
struct Stretch {
    /// The number of the first of the faults.
    start: u32,
    /// The number after that of the last fault.
    end: u32,
    /// The lines.
    text: Vec<u8>,
}

/// The promise of a thread: it returns lines of these faults.
#[derive(Drop)]
struct LinesOf<L> {
    lines: Snapshot<L>,
}

impl<L: FaultLines> Promise<Result<Stretch, OutFailed>> for LinesOf<L> {
    ghost use Rattle.threaded_lines.specs.Stretches.{HasStretch};

    ghost kept_by = { λ p r. HasStretch (L.texts p.lines.value) r };
}

/// Writes the lines of a fault list. At most as many threads as there are workers put the lines
/// together, stretch by stretch, and the caller's thread is one of them. It also puts together the
/// lines of a thread that doesn't start. If memory runs out, it writes lines one by one.
pub fn put_in_threads<R: Threads + Wait, L: FaultLines + Sync, W: Out>(
    rt: &R,
    alloc: Global,
    lines: &L,
    workers: u32,
    out: &mut W,
) -> Result<(), OutFailed>
    ensures { Writes result (W.seen out.old) (W.seen out.new) (joined (L.texts lines.now)) }
{
    let count = lines.count();
    let threads = threads_for(count, workers);
    let size = stretch_size(count, threads);
    let mut spare = Vec::new(alloc);
    let mut place = 0;
    while place < count {
        let (end, texts) = put_round(rt, alloc, lines, place, size, threads, spare, out)?;
        place = end;
        spare = texts;
    }
    Ok(())
}

/// Returns the number of threads, the caller's included: no more than there are stretches.
fn threads_for(faults: u32, workers: u32) -> u32 {
    workers
        .min(MAX_THREADS)
        .min(faults.div_ceil(FAULTS_OF_A_STRETCH))
}

/// Returns the number of faults of a stretch of a list with this number of faults: for several
/// threads as many as give each of them the same, in as few rounds as [`MOST_FAULTS`] allows.
fn stretch_size(count: u32, threads: u32) -> u32
    ensures { 0 < result }
{
    if threads < 2 {
        return FAULTS_OF_A_STRETCH;
    }
    let rounds = count.div_ceil(threads.saturating_mul(MOST_FAULTS)).max(1);
    count.div_ceil(threads.saturating_mul(rounds)).max(1)
}

/// Returns the end of the stretch of at most this size that begins with a fault of a list with this
/// number of faults.
fn end_of(count: u32, start: u32, size: u32) -> u32
    requires start { start ≤ count }
    requires size { 0 < size }
    ensures order { start ≤ result }
    ensures within { result ≤ count }
    ensures some { start < count → start < result }
{
    let left = count - start;
    start + left.min(size)
}

/// Writes the lines of some faults from one on, and returns the number after that of the last one,
/// and buffers that the next call can use.
fn put_round<R: Threads + Wait, L: FaultLines + Sync, W: Out>(
    rt: &R,
    alloc: Global,
    lines: &L,
    place: u32,
    size: u32,
    threads: u32,
    spare: Vec<Vec<u8>>,
    out: &mut W,
) -> Result<(u32, Vec<Vec<u8>>), OutFailed>
    requires some { place < length (L.texts lines.now) }
    requires size { 0 < size }
    ensures { PutsSome (L.texts lines.now) place result (W.seen out.old) (W.seen out.new) }
{
    let parts = parts_from(rt, alloc, lines, place, size, threads, spare);
    let (end, texts) = put_parts(alloc, lines, place, parts, out)?;
    if end > place {
        return Ok((end, texts));
    }
    let end = end_of(lines.count(), place, size);
    lines.put(place, end, out)?;
    Ok((end, texts))
}

/// Writes stretches as long as each begins where the one before it ends, and returns the place
/// after them, and their buffers.
fn put_parts<L: FaultLines, W: Out>(
    alloc: Global,
    lines: &L,
    place: u32,
    parts: Vec<Result<Stretch, OutFailed>>,
    out: &mut W,
) -> Result<(u32, Vec<Vec<u8>>), OutFailed>
    requires place { place ≤ length (L.texts lines.now) }
    requires parts { HaveStretches (L.texts lines.now) parts.items }
    ensures { PutsFrom (L.texts lines.now) place result (W.seen out.old) (W.seen out.new) }
{
    let mut end = place;
    let mut texts = Vec::new(alloc);
    for part in parts {
        let Ok(stretch) = part else {
            continue;
        };
        let Stretch {
            start,
            end: next,
            text,
        } = stretch;
        if start == end {
            put_all(&text, out)?;
            end = next;
        }
        // A buffer that finds no place is let go.
        let _kept = texts.push(text);
    }
    Ok((end, texts))
}

/// Returns stretches of the list from a fault on, put together in at most this number of threads,
/// the caller's included. None is there if memory runs out.
fn parts_from<R: Threads + Wait, L: FaultLines + Sync>(
    rt: &R,
    alloc: Global,
    lines: &L,
    place: u32,
    size: u32,
    threads: u32,
    spare: Vec<Vec<u8>>,
) -> Vec<Result<Stretch, OutFailed>>
    requires place { place ≤ length (L.texts lines.now) }
    requires size { 0 < size }
    ensures { HaveStretches (L.texts lines.now) result.items }
{
    match share_lines(rt, alloc, lines, place, size, threads, spare) {
        Ok(parts) => parts,
        Err(AllocError) => Vec::new(alloc),
    }
}

/// Puts the lines of one stretch into a buffer.
fn stretch_of<L: FaultLines>(
    lines: &L,
    start: u32,
    size: u32,
    text: Vec<u8>,
) -> Result<Stretch, OutFailed>
    requires place { start ≤ length (L.texts lines.now) }
    requires size { 0 < size }
    ensures { HasStretch (L.texts lines.now) result }
{
    let end = end_of(lines.count(), start, size);
    let mut text = text;
    text.clear();
    let mut out = Plain::new(text);
    lines.put(start, end, &mut out)?;
    let text = out.into_writer();
    Ok(Stretch { start, end, text })
}

/// Puts the lines of a stretch for each thread together, each in a thread of its own, and the last
/// one in the caller's thread. If a thread cannot start, the caller's thread puts its lines
/// together, and those of the following threads are missing.
fn share_lines<R: Threads + Wait, L: FaultLines + Sync>(
    rt: &R,
    alloc: Global,
    lines: &L,
    place: u32,
    size: u32,
    threads: u32,
    spare: Vec<Vec<u8>>,
) -> Result<Vec<Result<Stretch, OutFailed>>, AllocError>
    requires place { place ≤ length (L.texts lines.now) }
    requires size { 0 < size }
    ensures { IfOk result (λ parts. HaveStretches (L.texts lines.now) parts.items) }
{
    thread::scope(
        thread::scope_env(),
        rt,
        move |scope| -> Result<Vec<Result<Stretch, OutFailed>>, AllocError>
            requires place { place ≤ length (L.texts lines.now) }
            requires size { 0 < size }
            ensures { IfOk result (λ parts. HaveStretches (L.texts lines.entry.now) parts.items) }
        {
            let mut buffers = spare.into_iter();
            let mut handles = Vec::with_capacity(alloc, threads as usize)?;
            let mut start = place;
            for _thread in 1..threads {
                let text = buffers.next().unwrap_or(Vec::new(alloc));
                let promised = LinesOf {
                    lines: Snapshot::of(lines),
                };
                let Ok(handle) = scope.spawn_with(
                    promised,
                    move || stretch_of(lines, start, size, text),
                ) else {
                    break;
                };
                handles.push(handle)?;
                start = end_of(lines.count(), start, size);
            }
            let text = buffers.next().unwrap_or(Vec::new(alloc));
            let own = stretch_of(lines, start, size, text);
            let Ok(mut parts) = thread::join_promised(rt, handles) else {
                return Err(AllocError);
            };
            parts.push(own)?;
            Ok(parts)
        },
    )
}
