//! Reads the statements of a bench file in threads, each a stretch of the lines at a time, and
//! collects the names that they define.

ghost use Rattle.std.specs.Prelude.{◌≡◌, ◌≢◌, ◌≤◌, AllPairs, IfOk, length};
ghost use Rattle.text_lines.specs.Lines.{lines};
ghost use Rattle.bench_net.specs.Circuit.{max_signals};
ghost use Rattle.bench_net.specs.reader.Entries.{entries_of, names_in, reads_in, AreStated, AreFew};
ghost use Rattle.bench_net.specs.reader.Parsed.{names_of};
ghost use Rattle.bench_threads.specs.Stretches.{AreCounted, AreFirst, HasStretch, IsRange, joined};

use crate::setback::Setback;
use crate::stretch::Stretch;
use bench_net::number::{Names, add_names};
use bench_net::read::{Counts, MAX_BYTES, counts_of, past_limit, read_statements};
use bench_net::{BenchFault, Limit};
use indexmap::IndexSet;
use std::alloc::Global;
use std::collections::VecDeque;
use std::sync::Wait;
use std::thread;
use std::thread::{Promise, Threads};
use text_lines::{count_line_feeds, line_start_from};

/// The number of stretches for each thread. While threads read the next stretches, the caller's
/// thread collects the names of those before. So few names are left when the last thread ends. But
/// each stretch starts a thread, which takes a tenth of a millisecond.
const STRETCHES_OF_A_THREAD: u32 = 2;

/// The number of bytes for which a file is expected to define a name. If it defines more names,
/// their table grows.
const BYTES_OF_A_NAME: usize = 32;

/// The stretches of a whole file, and the names that they define.
#[derive(Drop)]
pub(crate) struct File<'a> {
    pub(crate) stretches: Vec<Stretch<'a>>,
    /// The names, in the order of their definitions.
    pub(crate) names: Names<'a>,
    pub(crate) ghost few: { length names.keys ≤ max_signals },
    pub(crate) ghost counted: { AreCounted stretches.items },
    pub(crate) ghost own: { names_of names.keys ≡ names_in (joined stretches.items) },
}

/// The first stretches of a file, and the names that they define.
#[derive(Drop)]
struct FirstStretches<'a> {
    text: &'a [u8],
    /// The place after the last of their lines.
    end: usize,
    stretches: Vec<Stretch<'a>>,
    /// The names, in the order of their definitions.
    names: Names<'a>,
    /// The numbers of names that they define and read.
    counts: Counts,
}

impl<'a> FirstStretches<'a> {
    /// Returns no stretches of a file.
    fn new(alloc: Global, text: &'a [u8]) -> Result<FirstStretches<'a>, Setback>
        ensures text { IfOk result (λ first. first.text.now ≡ text.now) }
        ensures first { IfOk result (λ first. AreFirst first.text.now first.end
            first.stretches.items (names_of first.names.keys) first.counts) }
    {
        let names = IndexSet::with_capacity(alloc, text.len() / BYTES_OF_A_NAME)?;
        Ok(FirstStretches {
            text,
            end: 0,
            stretches: Vec::new(alloc),
            names,
            counts: Counts {
                signals: 0,
                sinks: 0,
            },
        })
    }

    /// Adds the next stretch, as a thread returns it, and its names. It fails if the stretch
    /// doesn't begin where the last one ends, if it or its thread has an error, if one of its names
    /// is defined already, or if the file is past a limit.
    fn with(self, part: Result<Stretch<'a>, BenchFault>) -> Result<FirstStretches<'a>, Setback>
        requires first { AreFirst self.text.now self.end self.stretches.items
            (names_of self.names.keys) self.counts }
        requires part { HasStretch self.text.now part }
        ensures text { IfOk result (λ first. first.text.now ≡ self.entry.text.now) }
        ensures first { IfOk result (λ first. AreFirst first.text.now first.end
            first.stretches.items (names_of first.names.keys) first.counts) }
    {
        let FirstStretches {
            text,
            end,
            mut stretches,
            mut names,
            counts,
        } = self;
        let stretch = part?;
        let counts = counts.plus(stretch.counts);
        if stretch.start != end || past_limit(counts).is_some() {
            return Err(Setback::Again);
        }
        add_names(&mut names, stretch.stated.as_slice())?;
        let end = stretch.end;
        stretches.push(stretch)?;
        Ok(FirstStretches {
            text,
            end,
            stretches,
            names,
            counts,
        })
    }

    /// Returns the whole file, if the stretches are all.
    fn whole(self) -> Result<File<'a>, Setback>
        requires { AreFirst self.text.now self.end self.stretches.items (names_of self.names.keys)
            self.counts }
        ensures stated { IfOk result (λ file.
            AreStated (lines self.entry.text.now) (entries_of (joined file.stretches.items))) }
        ensures few { IfOk result (λ file. AreFew
            (length (names_in (joined file.stretches.items)))
            (length (reads_in (joined file.stretches.items)))) }
        ensures once { IfOk result (λ file. AllPairs (λ m n. m ≢ n) (names_of file.names.keys)) }
    {
        let FirstStretches {
            text,
            end,
            stretches,
            names,
            counts: _,
        } = self;
        if end != text.len() {
            return Err(Setback::Again);
        }
        Ok(File { stretches, names })
    }
}

/// The place of a stretch in a file.
#[derive(Clone, Copy)]
struct Range {
    /// The place at which the first of its lines begins, counted from 0 in bytes.
    start: usize,
    /// The place after the last of its lines.
    end: usize,
    /// The number of lines before it.
    before: u64,
}

impl Range {
    /// Returns the range of the next stretch, which ends at the first line that begins from a place
    /// on.
    fn next(self, text: &[u8], least: usize) -> Range
        requires { IsRange text.now self.start self.end self.before }
        ensures { IsRange text.now result.start result.end result.before }
    {
        let least = least.max(self.end).min(text.len());
        let end = line_start_from(text, least);
        let own = count_line_feeds(&text[self.start..self.end]);
        Range {
            start: self.end,
            end,
            before: self.before + own,
        }
    }
}

/// Returns the file, read in a number of threads, each a stretch of the lines at a time. It fails
/// if a line has an error, the file is past a limit, or a thread doesn't start.
pub(crate) fn read_file<'a, R: Threads + Wait>(
    rt: &R,
    alloc: Global,
    text: &'a [u8],
    threads: u32,
) -> Result<File<'a>, Setback>
    ensures stated { IfOk result (λ file.
        AreStated (lines text.now) (entries_of (joined file.stretches.items))) }
    ensures few { IfOk result (λ file. AreFew
        (length (names_in (joined file.stretches.items)))
        (length (reads_in (joined file.stretches.items)))) }
    ensures once { IfOk result (λ file. AllPairs (λ m n. m ≢ n) (names_of file.names.keys)) }
{
    read_stretches(rt, alloc, text, threads)?.whole()
}

/// The data that a thread borrows: it returns statements of lines of this file.
#[derive(Clone, Copy)]
struct StatementsOf<'a> {
    text: &'a [u8],
}

impl<'a> Promise<Result<Stretch<'a>, BenchFault>> for StatementsOf<'a> {
    ghost use Rattle.bench_threads.specs.Stretches.{HasStretch};

    ghost kept_by = { λ p r. HasStretch p.text.now r };
}

/// Reads the lines of one stretch.
fn read_stretch<'a>(text: &'a [u8], alloc: Global, range: Range) -> Result<Stretch<'a>, BenchFault>
    requires { IsRange text.now range.start range.end range.before }
    ensures { HasStretch text.now result }
{
    if text.len() > MAX_BYTES {
        return Err(BenchFault::TooLarge(Limit::Bytes));
    }
    let stated = read_statements(alloc, &text[range.start..range.end], range.before)?;
    let counts = counts_of(&stated);
    Ok(Stretch {
        start: range.start,
        end: range.end,
        stated,
        counts,
    })
}

/// Reads the stretches of a file in threads. While this number of threads read, and one more that
/// starts, the caller's thread adds the stretches before to each other.
fn read_stretches<'a, R: Threads + Wait>(
    rt: &R,
    alloc: Global,
    text: &'a [u8],
    threads: u32,
) -> Result<FirstStretches<'a>, Setback>
    ensures text { IfOk result (λ first. first.text.now ≡ text.now) }
    ensures first { IfOk result (λ first. AreFirst first.text.now first.end first.stretches.items
        (names_of first.names.keys) first.counts) }
{
    let count = threads.saturating_mul(STRETCHES_OF_A_THREAD);
    let size = text.len().div_ceil(count.max(1) as usize);
    thread::scope(
        thread::scope_env(),
        rt,
        |scope| -> Result<FirstStretches, Setback>
            ensures text { IfOk result (λ first. first.text.now ≡ text.entry.now) }
            ensures first { IfOk result (λ first. AreFirst first.text.now first.end
                first.stretches.items (names_of first.names.keys) first.counts) }
        {
            let mut first = FirstStretches::new(alloc, text)?;
            let mut handles = VecDeque::new(alloc);
            let mut range = Range {
                start: 0,
                end: 0,
                before: 0,
            };
            for turn in 0..count.saturating_add(threads) {
                if turn < count {
                    range = range.next(text, size.saturating_mul(turn as usize + 1));
                    let Ok(handle) = scope.spawn_with(
                        StatementsOf { text },
                        move || read_stretch(text, alloc, range),
                    ) else {
                        return Err(Setback::Again);
                    };
                    handles.push_back(handle)?;
                }
                if turn >= threads {
                    let Some(handle) = handles.pop_front() else {
                        return Err(Setback::Again);
                    };
                    first = first.with(handle.join(rt))?;
                }
            }
            Ok(first)
        },
    )
}
