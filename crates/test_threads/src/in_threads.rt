//! Reads a test file in several threads, each of which reads a range of its lines.

ghost use Rattle.std.specs.Prelude.{◌≡◌, ◌≤◌, ◌⊎◌, IfErr, IfOk, length};
ghost use Rattle.test_threads.specs.Stretches.{HasStretch, HaveStretches};
ghost use Rattle.patterns.specs.Tests.{HasTests, IsTestList, IsTestRefusal};
ghost use Rattle.text_lines.specs.Starts.{IsLineStart};

use patterns::{BLOCK_SIZE, TestFault, Tests, read_rows, read_tests};
use std::alloc::{AllocError, Global};
use std::sync::Wait;
use std::thread;
use std::thread::{Promise, Threads};
use text_lines::{Rows, line_start_from};

/// The least number of bytes for a thread. It reads them in about a millisecond, 20 times as long
/// as its start.
const BYTES_OF_A_THREAD: usize = 1 << 20;

/// The greatest number of threads that read a file.
const MAX_THREADS: u32 = 64;

/// The tests of consecutive lines.
#[derive(Drop)]
struct Stretch {
    /// The place in the file at which the first of the lines begins, counted from 0 in bytes.
    start: usize,
    /// The place after the last of the lines.
    end: usize,
    /// The tests of the lines.
    tests: Tests,
}

/// Reads a test file as [`read_tests`] does, with the same errors, in at most `workers` threads.
/// Each thread reads a range of the lines. The caller's thread reads the lines of a thread that did
/// not start. It also reads on from a row with an error, so it reports the first error of the file.
/// Only the caller's thread reads a short file.
pub fn read_tests_in_threads<R: Threads + Wait>(
    rt: &R,
    alloc: Global,
    text: &[u8],
    width: u32,
    workers: u32,
) -> Result<Tests, TestFault>
    requires { 1 ≤ width }
    ensures tests { IfOk result (λ t. HasTests text.now width t) }
    ensures list { IfOk result (λ t. IsTestList t) }
    ensures refused { IfErr result (λ fault.
        (fault ≡ TestFault.Memory) ⊎ IsTestRefusal text.now width fault) }
{
    let threads = threads_for(text, workers);
    if threads < 2 {
        return read_tests(alloc, text, width);
    }
    let parts = read_stretches(rt, alloc, text, width, threads)?;
    join_stretches(alloc, text, width, parts)
}

/// Returns the number of threads that are worth their start.
fn threads_for(text: &[u8], workers: u32) -> u32 {
    let most = workers.min(MAX_THREADS) as usize;
    most.min(text.len() / BYTES_OF_A_THREAD) as u32
}

/// The places at which a file is cut, if all lines after its first row are alike. The first thread
/// reads up to `head` and a part more, and every other thread a part. Each part has full blocks of
/// tests. This affects only the time.
#[derive(Clone, Copy)]
struct Plan {
    head: usize,
    part: usize,
}

impl Plan {
    /// Makes a plan for a number of threads.
    fn new(text: &[u8], threads: u32) -> Plan {
        let head = first_row(text);
        let rest = &text[head..];
        let line = line_start_from(rest, rest.len().min(1));
        let block = line.saturating_mul(BLOCK_SIZE as usize).max(1);
        let blocks = rest.len().div_ceil(block);
        let part = block.saturating_mul(blocks.div_ceil(threads.max(1) as usize));
        Plan { head, part }
    }

    /// Returns the place up to which a thread reads, given by its number, from 0.
    fn end(self, thread: u32) -> usize {
        let parts = self.part.saturating_mul(thread as usize + 1);
        self.head.saturating_add(parts)
    }
}

/// Returns the place of the first line that begins with a digit `0` or `1`, or the end of the file.
pub(crate) fn first_row(text: &[u8]) -> usize
    ensures { result ≤ length text.now }
{
    let mut place = 0;
    while place < text.len() {
        if matches!(text[place], b'0' | b'1') {
            return place;
        }
        place = line_start_from(text, place + 1);
    }
    place
}

/// The data that a thread borrows: it returns tests of lines of this file.
#[derive(Clone, Copy)]
struct TestsOf<'a> {
    text: &'a [u8],
    width: u32,
}

impl<'a> Promise<Result<Stretch, TestFault>> for TestsOf<'a> {
    ghost use Rattle.test_threads.specs.Stretches.{HasStretch};

    ghost kept_by = { λ p r. HasStretch p.text.now p.width r };
}

/// Reads the lines of one thread.
fn read_stretch(
    text: &[u8],
    alloc: Global,
    width: u32,
    start: usize,
    end: usize,
) -> Result<Stretch, TestFault>
    requires width { 1 ≤ width }
    requires order { start ≤ end }
    requires until { IsLineStart text.now end }
    ensures { HasStretch text.now width result }
{
    let tests = read_tests(alloc, &text[start..end], width)?;
    Ok(Stretch { start, end, tests })
}

/// Reads the tests of the file in a number of threads, each with the lines after the lines of the
/// thread before. If a thread cannot start, the following ones aren't started either, and the tests
/// of their lines are missing.
fn read_stretches<R: Threads + Wait>(
    rt: &R,
    alloc: Global,
    text: &[u8],
    width: u32,
    threads: u32,
) -> Result<Vec<Result<Stretch, TestFault>>, AllocError>
    requires { 1 ≤ width }
    ensures { IfOk result (λ parts. HaveStretches text.now width parts.items) }
{
    let plan = Plan::new(text, threads);
    thread::scope(
        thread::scope_env(),
        rt,
        |scope| -> Result<Vec<Result<Stretch, TestFault>>, AllocError>
            requires { 1 ≤ width }
            ensures { IfOk result (λ parts. HaveStretches text.entry.now width parts.items) }
        {
            let mut handles = Vec::with_capacity(alloc, threads as usize)?;
            let mut start = 0;
            for thread in 0..threads {
                let least = plan.end(thread).max(start).min(text.len());
                let end = line_start_from(text, least);
                let promised = TestsOf { text, width };
                let Ok(handle) = scope.spawn_with(
                    promised,
                    move || read_stretch(text, alloc, width, start, end),
                ) else {
                    break;
                };
                handles.push(handle)?;
                start = end;
            }
            match thread::join_promised(rt, handles) {
                Ok(parts) => Ok(parts),
                Err(_) => Err(AllocError),
            }
        },
    )
}

/// Joins the tests of all lines: the tests that threads returned, part by part, as long as all
/// blocks are full, and then the missing ones.
fn join_stretches(
    alloc: Global,
    text: &[u8],
    width: u32,
    parts: Vec<Result<Stretch, TestFault>>,
) -> Result<Tests, TestFault>
    requires width { 1 ≤ width }
    requires parts { HaveStretches text.now width parts.items }
    ensures tests { IfOk result (λ t. HasTests text.now width t) }
    ensures list { IfOk result (λ t. IsTestList t) }
    ensures refused { IfErr result (λ fault.
        (fault ≡ TestFault.Memory) ⊎ IsTestRefusal text.now width fault) }
{
    let mut all = Tests::new(alloc, width);
    let mut place = 0;
    for part in parts {
        if let Err(TestFault::Memory) = part {
            return Err(TestFault::Memory);
        }
        let Ok(stretch) = part else {
            continue;
        };
        if stretch.start != place || !all.takes(&stretch.tests) {
            continue;
        }
        let Stretch {
            start: _,
            end,
            tests,
        } = stretch;
        all.append(tests)?;
        place = end;
    }
    if place == text.len() {
        return Ok(all);
    }
    let rows = Rows::from_place(text, place, width as usize);
    read_rows(alloc, all, rows)
}
