//! Numbers the statements of a bench file in threads, each those of a stretch at a time.

ghost use Rattle.std.specs.Prelude.{◌≡◌, ◌++◌, [], ◌<◌, ◌≤◌, IfErr, IfOk, Ok, OnOk, length, take};
ghost use Rattle.bench_net.specs.Circuit.{max_signals};
ghost use Rattle.bench_net.specs.reader.Entries.{AreNumberedLines, names_in};
ghost use Rattle.bench_net.specs.reader.Parsed.{names_of};
ghost use Rattle.bench_threads.specs.Stretches.{AreCounted, HasNumbered, joined, line_numbers_in};
ghost use Rattle.bench_threads.specs.declared.stretch.Numbered.{Numbered};

use crate::reading::File;
use crate::setback::Setback;
use crate::stretch::{Numbered, Stretch};
use bench_net::BenchFault;
use bench_net::name_table::NameTable;
use bench_net::number::{line_numbers, number_lines};
use std::alloc::{AllocError, Global};
use std::collections::VecDeque;
use std::snapshot::Snapshot;
use std::sync::Wait;
use std::thread;
use std::thread::{Promise, Threads};

/// Returns the number of names that the first stretches define.
fn names_before(stretches: &[Stretch], place: usize) -> u32
    requires place { place ≤ length stretches.now }
    requires few { length (names_in (joined stretches.now)) ≤ max_signals }
    requires counted { AreCounted stretches.now }
    ensures { result ≡ length (names_in (joined (take place stretches.now))) }
{
    let mut count = 0;
    for stretch in &stretches[..place] {
        count += stretch.counts.signals as u32;
    }
    count
}

/// Numbers the lines of the stretch at a place.
fn number_stretch(alloc: Global, file: &File, place: usize) -> Result<Numbered, BenchFault>
    requires { place < length file.now.stretches.items }
    ensures { HasNumbered (names_of file.now.names.keys) file.now.stretches.items place result }
{
    let stretches = file.stretches.as_slice();
    let first = names_before(stretches, place);
    let stated = stretches[place].stated.as_slice();
    let lines = number_lines(alloc, stated, first, &file.names)?;
    let at = line_numbers(alloc, stated)?;
    Ok(Numbered { lines, at })
}

/// A file in stretches, of which each thread numbers one. Threads see the file by this trait: a
/// closure that captures a reference to a type with a lifetime, as [`File`], gives its caller no
/// contract.
trait StretchedFile {
    ghost use Rattle.std.specs.Prelude.{List};
    ghost use Rattle.bench_net.specs.Statement.{Name};
    ghost use Rattle.bench_threads.specs.declared.stretch.Stretch.{Stretch};

    /// The names that the stretches define.
    ghost names: { Self → List Name };

    /// The stretches.
    ghost stretches: { Self → List Stretch };

    /// Returns the number of stretches.
    fn count(&self) -> usize
        ensures { result ≡ length (stretches self.now) };

    /// Numbers the lines of the stretch at a place.
    fn number(&self, alloc: Global, place: usize) -> Result<Numbered, BenchFault>
        requires { place < length (stretches self.now) }
        ensures { HasNumbered (names self.now) (stretches self.now) place result };

    /// Returns the names in one text.
    fn name_table(&self, alloc: Global) -> Result<NameTable, BenchFault>
        ensures named { IfOk result (λ table. table ≡ names self.now) }
        ensures refused { IfErr result (λ fault. fault ≡ BenchFault.Memory) };
}

impl StretchedFile for File<'_> {
    ghost use Rattle.bench_net.specs.reader.Parsed.{names_of};

    ghost names = { λ file. names_of file.names.keys };

    ghost stretches = { λ file. file.stretches.items };

    fn count(&self) -> usize {
        self.stretches.len()
    }

    fn number(&self, alloc: Global, place: usize) -> Result<Numbered, BenchFault> {
        number_stretch(alloc, self, place)
    }

    fn name_table(&self, alloc: Global) -> Result<NameTable, BenchFault> {
        NameTable::new(alloc, &self.names)
    }
}

/// The promise of a thread: it returns the lines of this stretch of a file over numbers.
#[derive(Drop)]
struct LinesOf<F> {
    file: Snapshot<F>,
    place: usize,
}

impl<F: StretchedFile> Promise<Result<Numbered, BenchFault>> for LinesOf<F> {
    ghost use Rattle.bench_threads.specs.Stretches.{HasNumbered};

    ghost kept_by = { λ p r.
        HasNumbered (F.names p.file.value) (F.stretches p.file.value) p.place r };
}

/// Returns the lines of a file over numbers, and its names in one text, in a number of threads and
/// one for the names. It fails if a line has an error, or a thread doesn't start.
pub(crate) fn number_file<R: Threads + Wait>(
    rt: &R,
    alloc: Global,
    file: &File,
    threads: u32,
) -> Result<(Numbered, NameTable), Setback>
    ensures numbered { IfOk result (λ r. AreNumberedLines (names_of file.now.names.keys)
        (joined file.now.stretches.items) r.0.lines.items) }
    ensures at { IfOk result (λ r.
        r.0.at.items ≡ line_numbers_in (joined file.now.stretches.items)) }
    ensures named { IfOk result (λ r. r.1 ≡ names_of file.now.names.keys) }
{
    let room = room_for(alloc, file)?;
    number_and_name(rt, alloc, file, room, threads)
}

/// Returns room for the lines of a file over numbers.
fn room_for(alloc: Global, file: &File) -> Result<Numbered, AllocError>
    ensures { IfOk result (λ room. (room.lines.items ≡ []) × (room.at.items ≡ [])) }
{
    let count = file
        .stretches
        .iter()
        .fold(0, |sum: usize, own| sum.saturating_add(own.stated.len()));
    Ok(Numbered {
        lines: Vec::with_capacity(alloc, count)?,
        at: Vec::with_capacity(alloc, file.names.len())?,
    })
}

/// Numbers the lines of a file in a number of threads, and meanwhile puts its names into one text
/// in another thread.
fn number_and_name<R: Threads + Wait, F: StretchedFile + Sync>(
    rt: &R,
    alloc: Global,
    file: &F,
    room: Numbered,
    threads: u32,
) -> Result<(Numbered, NameTable), Setback>
    requires { (room.lines.items ≡ []) × (room.at.items ≡ []) }
    ensures numbered { IfOk result (λ r.
        AreNumberedLines (F.names file.now) (joined (F.stretches file.now)) r.0.lines.items) }
    ensures at { IfOk result (λ r.
        r.0.at.items ≡ line_numbers_in (joined (F.stretches file.now))) }
    ensures named { IfOk result (λ r. r.1 ≡ F.names file.now) }
{
    let (named, numbered) = thread::join(
        rt,
        move || file.name_table(alloc),
        move || -> Result<Numbered, Setback>
            requires { (room.lines.items ≡ []) × (room.at.items ≡ []) }
            ensures numbered { IfOk result (λ all. AreNumberedLines (F.names file.entry.now)
                (joined (F.stretches file.entry.now)) all.lines.items) }
            ensures at { IfOk result (λ all.
                all.at.items ≡ line_numbers_in (joined (F.stretches file.entry.now))) }
        { number_stretches(rt, alloc, file, room, threads) },
    );
    let numbered = numbered?;
    Ok((numbered, named?))
}

/// Numbers the lines of the stretches of a file in threads. While this number of threads work, and
/// one more that starts, the caller's thread appends the lines before to `room`, which is empty.
fn number_stretches<R: Threads + Wait, F: StretchedFile + Sync>(
    rt: &R,
    alloc: Global,
    file: &F,
    room: Numbered,
    threads: u32,
) -> Result<Numbered, Setback>
    requires { (room.lines.items ≡ []) × (room.at.items ≡ []) }
    ensures numbered { IfOk result (λ all.
        AreNumberedLines (F.names file.now) (joined (F.stretches file.now)) all.lines.items) }
    ensures at { IfOk result (λ all.
        all.at.items ≡ line_numbers_in (joined (F.stretches file.now))) }
{
    thread::scope(
        thread::scope_env(),
        rt,
        move |scope| -> Result<Numbered, Setback>
            requires { (room.lines.items ≡ []) × (room.at.items ≡ []) }
            ensures numbered { IfOk result (λ all. AreNumberedLines (F.names file.entry.now)
                (joined (F.stretches file.entry.now)) all.lines.items) }
            ensures at { IfOk result (λ all.
                all.at.items ≡ line_numbers_in (joined (F.stretches file.entry.now))) }
        {
            let count = file.count();
            let most = threads as usize;
            let mut all = room;
            let mut done: usize = 0;
            let mut handles = VecDeque::new(alloc);
            for place in 0..count.saturating_add(most) {
                if place < count {
                    let promised = LinesOf {
                        file: Snapshot::of(file),
                        place,
                    };
                    let Ok(handle) = scope.spawn_with(promised, move || file.number(alloc, place))
                    else {
                        return Err(Setback::Again);
                    };
                    handles.push_back(handle)?;
                }
                if place >= most {
                    let Some(handle) = handles.pop_front() else {
                        return Err(Setback::Again);
                    };
                    append_part(&mut all, handle.join(rt))?;
                    done += 1;
                }
            }
            if done != count {
                return Err(Setback::Again);
            }
            Ok(all)
        },
    )
}

/// Appends the lines of a stretch, as a thread returns them, to those of the stretches before.
fn append_part(all: &mut Numbered, part: Result<Numbered, BenchFault>) -> Result<(), Setback>
    ensures { OnOk result ((own : Numbered) × (part ≡ Ok own)
        × (all.new.lines.items ≡ all.old.lines.items ++ own.lines.items)
        × (all.new.at.items ≡ all.old.at.items ++ own.at.items)) }
{
    let Numbered { mut lines, mut at } = part?;
    all.lines.append(&mut lines)?;
    all.at.append(&mut at)?;
    Ok(())
}
