//! Reads a test file piece by piece, so that its bytes are never all in memory.

ghost use Rattle.std.specs.Prelude.{◌≡◌, ◌≤◌, IfSome, ℕ, List, Some, length, take};
ghost use Rattle.std.specs.Io.KnownBytes.{Consumes};
ghost use Rattle.test_threads.specs.Pieces.{IsEnded, text_of};
ghost use Rattle.patterns.specs.Tests.{HasTests, IsTestList};

use crate::shared_file::{
    EndedFile, OpenFile, Piece, TestFile, fill, has_full_block, read_share, share_file, zeros,
};
use patterns::Tests;
use std::alloc::Global;
use std::io::Read;
use std::marker::{Brand, PhantomData};
use std::sync::{Mutex, Wait};
use std::thread;
use std::thread::Threads;
use text_lines::Rows;

/// How many times as large a piece becomes if it has no room for 64 rows.
const TIMES_AS_LARGE: usize = 8;

/// The greatest number of bytes that a piece then has, unless it had more: 8 MiB.
pub const LARGE_PIECE: usize = 1 << 23;

/// The most threads that read a file, whatever number is requested: by then they wait for the file.
const MAX_THREADS: u32 = 8;

/// Reads the tests of a file, from where its reader stands to its end, with at most `workers`
/// threads, which read pieces of the file in turn. The digits of the first row are the width, if
/// they are at most `most`. A piece has `size` bytes. If 64 rows have more, it has eight times as
/// many, up to 8 MiB. Only one piece of each thread is in memory, and there are at most eight
/// threads.
///
/// It returns `None` if it can't read the file so: the file can't be read, memory runs out, a row
/// has an error, there is no row, or a piece is too short for 64 rows. It also returns `None` if
/// the rows are not alike, so that a piece doesn't end with full blocks. Then
/// [`patterns::read_tests`] of all bytes has the tests or the error. It returns the file beside the
/// tests, at its end.
pub fn read_tests_in_pieces<R: Threads + Wait, F: Read + Send>(
    rt: &R,
    alloc: Global,
    file: F,
    most: u32,
    size: usize,
    workers: u32,
) -> Option<(Tests, F)>
where
    F: Drop,
    ensures tests { IfSome result (λ read. IfSome (F.remaining file) (λ text.
        HasTests text read.0.width read.0)) }
    ensures list { IfSome result (λ read. IsTestList read.0) }
    ensures width { IfSome result (λ read. (1 ≤ read.0.width) × (read.0.width ≤ most)) }
    ensures ended { IfSome result (λ read. IsEnded (F.remaining file) (F.remaining read.1)) }
{
    let readers = workers.saturating_sub(1);
    let (_nothing, read) = read_tests_beside(rt, alloc, file, most, size, readers, || ());
    read
}

/// Reads the tests of a file as [`read_tests_in_pieces`] does, with `readers` threads besides the
/// caller's, while that one does other work. Then it reads with them. Returns the result of this
/// work, too.
pub fn read_tests_beside<R: Threads + Wait, F: Read + Send, W: FnOnce() -> A, A>(
    rt: &R,
    alloc: Global,
    file: F,
    most: u32,
    size: usize,
    readers: u32,
    work: W,
) -> (A, Option<(Tests, F)>)
where
    F: Drop,
    requires work { W.pre work }
    ensures work { W.post work result.0 }
    ensures tests { IfSome result.1 (λ read. IfSome (F.remaining file) (λ text.
        HasTests text read.0.width read.0)) }
    ensures list { IfSome result.1 (λ read. IsTestList read.0) }
    ensures width { IfSome result.1 (λ read. (1 ≤ read.0.width) × (read.0.width ≤ most)) }
    ensures ended { IfSome result.1 (λ read. IsEnded (F.remaining file) (F.remaining read.1)) }
{
    let mut file = file;
    match begin(alloc, &mut file, most, size) {
        Some(Begun { first, width, size }) => {
            read_in_turn::<R, F, Brand, W, A>(rt, alloc, file, first, width, size, readers, work)
        }
        None => (work(), None),
    }
}

/// The first bytes of a test file.
#[derive(Drop)]
struct Begun {
    first: Vec<u8>,
    /// The number of digits of the first row.
    width: u32,
    /// The number of bytes of a piece.
    size: usize,
}

/// Reads the first bytes of a file. Returns `None` if it can't be read, if the first row has no
/// digit or more than `most`, or if memory runs out.
fn begin<F: Read>(alloc: Global, file: &mut F, most: u32, size: usize) -> Option<Begun>
    ensures read { IfSome result (λ b.
        Consumes (F.remaining file.old) (F.remaining file.new) b.first.items) }
    ensures width { IfSome result (λ b. (1 ≤ b.width) × (b.width ≤ most)) }
{
    let mut first = zeros(alloc, size).ok()?;
    let filled = fill_first(file, &mut first)?;
    let width = first_width(&first[..filled], most)?;
    let size = first.len();
    first.truncate(filled);
    Some(Begun { first, width, size })
}

/// Fills a buffer with the first bytes of a file. The buffer becomes larger if it has no room for
/// 64 rows. Returns the number of bytes, or `None` if the file can't be read or memory runs out.
fn fill_first<F: Read>(file: &mut F, buffer: &mut Vec<u8>) -> Option<usize>
    ensures { IfSome result (λ filled. (filled ≤ length buffer.new.items)
        × Consumes (F.remaining file.old) (F.remaining file.new) (take filled buffer.new.items)) }
{
    let filled = fill(file, buffer, 0)?;
    if filled < buffer.len() || has_full_block(buffer) {
        return Some(filled);
    }
    let larger = filled.saturating_mul(TIMES_AS_LARGE).min(LARGE_PIECE);
    let larger = larger.max(filled);
    buffer.resize(larger, 0).ok()?;
    fill(file, buffer, filled)
}

/// Returns the number of digits of the first row, if there is a row and it has at most `most`.
fn first_width(piece: &[u8], most: u32) -> Option<u32>
    ensures { IfSome result (λ width. (1 ≤ width) × (width ≤ most)) }
{
    let first = Rows::new(piece, 0).next()?;
    let width = u32::try_from(first.bytes.len()).ok()?;
    if width == 0 || width > most {
        return None;
    }
    Some(width)
}

/// Reads the tests of a file of which some bytes were read, in threads that take pieces in turn.
/// The caller's thread does other work, and then takes pieces, too.
fn read_in_turn<R: Threads + Wait, F: Read + Send, T: TestFile + Send + Sync, W: FnOnce() -> A, A>(
    rt: &R,
    alloc: Global,
    file: F,
    first: Vec<u8>,
    width: u32,
    size: usize,
    readers: u32,
    work: W,
) -> (A, Option<(Tests, F)>)
where
    F: Drop,
    requires text { T.text ≡ text_of first.items (F.remaining file) }
    requires width { (T.width ≡ width) × (1 ≤ width) }
    requires work { W.pre work }
    ensures work { W.post work result.0 }
    ensures tests { IfSome result.1 (λ read. (text : List ℕ) → T.text ≡ Some text
        → HasTests text width read.0) }
    ensures list { IfSome result.1 (λ read. IsTestList read.0) }
    ensures width { IfSome result.1 (λ read. read.0.width ≡ width) }
    ensures ended { IfSome result.1 (λ read. IsEnded T.text (F.remaining read.1)) }
{
    let shared = share_file::<F, T>(file, first);
    let (done, pieces) = read_all(rt, alloc, &shared, width, size, readers, work);
    let read = match pieces {
        Some(pieces) => join_pieces(alloc, width, pieces),
        None => None,
    };
    (done, read)
}

/// Reads the pieces of a file in a number of threads. The caller's thread does other work, and then
/// takes pieces, too.
fn read_all<R: Threads + Wait, F: Read + Send, T: TestFile + Send + Sync, W: FnOnce() -> A, A>(
    rt: &R,
    alloc: Global,
    shared: &Mutex<Option<OpenFile<F, T>>>,
    width: u32,
    size: usize,
    readers: u32,
    work: W,
) -> (A, Option<Vec<Piece<F, T>>>)
where
    F: Drop,
    requires width { (T.width ≡ width) × (1 ≤ width) }
    requires work { W.pre work }
    ensures { W.post work result.0 }
{
    let readers = readers.min(MAX_THREADS - 1);
    if readers == 0 {
        let done = work();
        return (done, read_share(rt, alloc, shared, width, size));
    }
    let (others, (done, own)) = thread::join(
        rt,
        move || -> Option<Vec<Piece<F, T>>>
            requires { (T.width ≡ width) × (1 ≤ width) }
        { read_shares(&StandIn::<R>::new(), alloc, shared, width, size, readers) },
        move || -> (A, Option<Vec<Piece<F, T>>>)
            requires width { (T.width ≡ width) × (1 ≤ width) }
            requires work { W.pre work }
            ensures { W.post work result.0 }
        {
            let done = work();
            (done, read_share(rt, alloc, shared, width, size))
        },
    );
    (done, both(own, others))
}

/// Returns the pieces of two lists, or `None` if there is one list or memory runs out.
fn both<F: Read + Drop, T: TestFile>(
    one: Option<Vec<Piece<F, T>>>,
    other: Option<Vec<Piece<F, T>>>,
) -> Option<Vec<Piece<F, T>>> {
    let mut pieces = one?;
    pieces.append(&mut other?).ok()?;
    Some(pieces)
}

/// Stands in for the runtime in a thread, which can't borrow that of the thread that started it.
#[derive(Drop)]
struct StandIn<R> {
    of: PhantomData<R>,
}

impl<R> StandIn<R> {
    fn new() -> StandIn<R> {
        StandIn { of: PhantomData }
    }
}

impl<R: Threads> Threads for StandIn<R> {}

impl<R: Wait> Wait for StandIn<R> {}

/// Reads the pieces of a file in a number of threads, of which the caller's is one. The caller's
/// thread also does the work of a thread that can't start.
fn read_shares<R: Threads + Wait, F: Read + Send, T: TestFile + Send + Sync>(
    rt: &R,
    alloc: Global,
    shared: &Mutex<Option<OpenFile<F, T>>>,
    width: u32,
    size: usize,
    threads: u32,
) -> Option<Vec<Piece<F, T>>>
where
    F: Drop,
    requires { (T.width ≡ width) × (1 ≤ width) }
{
    if threads < 2 {
        return read_share(rt, alloc, shared, width, size);
    }
    let (share, others) = thread::join(
        rt,
        move || -> Option<Vec<Piece<F, T>>>
            requires { (T.width ≡ width) × (1 ≤ width) }
        { read_share(&StandIn::<R>::new(), alloc, shared, width, size) },
        move || -> Option<Vec<Piece<F, T>>>
            requires { (T.width ≡ width) × (1 ≤ width) × (2 ≤ threads) }
        { read_shares(rt, alloc, shared, width, size, threads - 1) },
    );
    both(others, share)
}

/// Joins the tests of all pieces of a file, and returns them with the file. Returns `None` if a
/// piece is missing, if one but the last has a block that isn't full, if there are too many tests,
/// or if memory runs out.
fn join_pieces<F: Read + Drop, T: TestFile>(
    alloc: Global,
    width: u32,
    pieces: Vec<Piece<F, T>>,
) -> Option<(Tests, F)>
    requires { T.width ≡ width }
    ensures tests { IfSome result (λ read. (text : List ℕ) → T.text ≡ Some text
        → HasTests text width read.0) }
    ensures list { IfSome result (λ read. IsTestList read.0) }
    ensures width { IfSome result (λ read. read.0.width ≡ width) }
    ensures ended { IfSome result (λ read. IsEnded T.text (F.remaining read.1)) }
{
    let mut pieces = pieces;
    pieces.sort_unstable_by_key(|piece| piece.start);
    let mut all = Tests::new(alloc, width);
    let mut place = 0;
    let mut last = None;
    for piece in pieces {
        let Piece {
            start,
            end,
            ended,
            tests,
            of: _,
        } = piece;
        if start != place || !all.takes(&tests) {
            return None;
        }
        all.append(tests).ok()?;
        place = end;
        last = ended;
    }
    let EndedFile { file, of: _ } = last?;
    Some((all, file))
}
