//! A test file that threads read in turn, each one piece at a time.

ghost use Rattle.std.specs.Prelude.{◌≡◌, ◌+◌, ◌-◌, ◌≤◌, IfSome, is_some, length, take};
ghost use Rattle.test_threads.specs.Pieces.{AreLines, AreRowsOf, IsEnded, IsFilled, IsLineEnd};
ghost use Rattle.test_threads.specs.Pieces.{IsOpen, IsPiece, text_of};

use crate::in_threads::first_row;
use patterns::{BLOCK_SIZE, MAX_TESTS, Tests, read_tests};
use std::alloc::{AllocError, Global};
use std::io::Read;
use std::marker::{Brand, PhantomData};
use std::sync::{Mutex, Wait};
use text_lines::line_start_from;

/// The greatest number of pieces: each but the last has a block of tests or more.
const MAX_PIECES: u32 = MAX_TESTS / BLOCK_SIZE + 1;

/// What all threads that read a file know of it.
pub(crate) trait TestFile {
    ghost use Rattle.std.specs.Prelude.{ℕ, List, Option};

    /// The bytes of the file, if they are known.
    ghost text: { Option (List ℕ) };

    /// The number of digits of a row.
    ghost width: { ℕ };
}

impl TestFile for Brand {
    ghost use Rattle.std.specs.Prelude.{None};

    ghost text = { None };

    ghost width = { 1 };
}

/// A file of which some bytes were given to threads.
#[derive(Drop)]
pub(crate) struct OpenFile<F: Read, T: TestFile> {
    file: F,
    /// The bytes that were read and not given.
    rest: Vec<u8>,
    /// The number of bytes that were given.
    place: usize,
    of: PhantomData<T>,
    ghost known: { IsOpen T.text (F.remaining file) rest.items place },
}

/// The place of a piece in a file: lines from one byte up to another.
#[derive(Clone, Copy)]
struct Lines {
    start: usize,
    end: usize,
    /// Whether the file ends with these lines.
    last: bool,
}

/// A file that was read to its end.
#[derive(Drop)]
pub(crate) struct EndedFile<F: Read, T: TestFile> {
    pub(crate) file: F,
    pub(crate) of: PhantomData<T>,
    pub(crate) ghost ended: { IsEnded T.text (F.remaining file) },
}

/// The place of a piece in a file, and the file, if it ends with this piece.
#[derive(Drop)]
struct Taken<F: Read, T: TestFile> {
    lines: Lines,
    ended: Option<EndedFile<F, T>>,
}

/// The tests of a piece of a file.
#[derive(Drop)]
pub(crate) struct Piece<F: Read, T: TestFile> {
    pub(crate) start: usize,
    pub(crate) end: usize,
    /// The file, if it ends with this piece.
    pub(crate) ended: Option<EndedFile<F, T>>,
    pub(crate) tests: Tests,
    pub(crate) of: PhantomData<T>,
    pub(crate) ghost rows: { AreRowsOf T.width tests },
    pub(crate) ghost is: { IsPiece T.text T.width start end (is_some ended) tests },
}

/// Returns this number of zeros.
pub(crate) fn zeros(alloc: Global, count: usize) -> Result<Vec<u8>, AllocError> {
    let mut bytes = Vec::new(alloc);
    bytes.resize(count, 0)?;
    Ok(bytes)
}

/// Copies bytes to the front of a buffer. Returns their number, or `None` if there is no room.
fn keep_rest(rest: &[u8], buffer: &mut [u8]) -> Option<usize>
    ensures kept { IfSome result (λ kept. (kept ≤ length buffer.new)
        × (take kept buffer.new ≡ rest.now)) }
    ensures size { length buffer.new ≡ length buffer.old }
{
    let count = rest.len();
    if count > buffer.len() {
        return None;
    }
    buffer[..count].copy_from_slice(rest);
    Some(count)
}

/// Fills a buffer with the next bytes of a file, from a place on. Returns the place after the last
/// of them, which is the end of the buffer if the file has as many bytes. Returns `None` if the
/// file can't be read.
pub(crate) fn fill<F: Read>(file: &mut F, buffer: &mut [u8], from: usize) -> Option<usize>
    requires { from ≤ length buffer.old }
    ensures { IfSome result (IsFilled (F.remaining file.old) (F.remaining file.new)
        buffer.old buffer.new from) }
{
    let mut place = from;
    while place < buffer.len() {
        match file.read(&mut buffer[place..]).ok()? {
            0 => return Some(place),
            count => place += count,
        }
    }
    Some(place)
}

/// Returns the number of bytes of a block of rows that are as long as the first one, at which these
/// lines begin.
fn bytes_of_block(rows: &[u8]) -> usize
    ensures { 1 ≤ result }
{
    let line = line_start_from(rows, rows.len().min(1));
    line.saturating_mul(BLOCK_SIZE as usize).max(1)
}

/// Returns whether a piece has room for a block of rows that are as long as its first one.
pub(crate) fn has_full_block(piece: &[u8]) -> bool {
    let rows = &piece[first_row(piece)..];
    bytes_of_block(rows) <= rows.len()
}

/// Returns the place after the last full block of a piece, if all lines from its first row on are
/// as long as this row. Returns `None` if the piece has no full block, or no line ends there.
fn end_of_blocks(piece: &[u8]) -> Option<usize>
    ensures { IfSome result (IsLineEnd piece.now) }
{
    let head = first_row(piece);
    let rest = &piece[head..];
    let block = bytes_of_block(rest);
    let full = rest.len() / block * block;
    let end = head + full;
    if full == 0 || piece[end - 1] != b'\n' {
        return None;
    }
    Some(end)
}

/// Reads the next piece of a file into a buffer. Returns its place, and the file, which is open or
/// ended. Returns `None` if the file can't be read, memory runs out, or the piece doesn't end with
/// full blocks.
fn read_lines<F: Read, T: TestFile>(
    open: OpenFile<F, T>,
    buffer: &mut [u8],
) -> Option<(Lines, Option<OpenFile<F, T>>, Option<EndedFile<F, T>>)>
where
    F: Drop,
    ensures lines { IfSome result (λ r. AreLines T.text buffer.new r.0.start r.0.end r.0.last) }
    ensures last { IfSome result (λ r. r.0.last ≡ is_some r.2) }
    ensures within { IfSome result (λ r. (r.0.start ≤ r.0.end)
        × (r.0.end - r.0.start ≤ length buffer.new)) }
    ensures size { length buffer.new ≡ length buffer.old }
{
    let OpenFile {
        mut file,
        mut rest,
        place,
        of,
    } = open;
    let kept = keep_rest(&rest, buffer)?;
    let filled = fill(&mut file, buffer, kept)?;
    if filled < buffer.len() {
        let end = place.checked_add(filled)?;
        let lines = Lines {
            start: place,
            end,
            last: true,
        };
        return Some((lines, None, Some(EndedFile { file, of })));
    }
    let count = end_of_blocks(buffer)?;
    let end = place.checked_add(count)?;
    rest.clear();
    rest.extend_from_slice(&buffer[count..filled]).ok()?;
    let more = OpenFile {
        file,
        rest,
        place: end,
        of,
    };
    let lines = Lines {
        start: place,
        end,
        last: false,
    };
    Some((lines, Some(more), None))
}

/// Takes the next piece of a file that threads share, if it has more, and reads it into a buffer.
/// Returns its place, and the file if it ends with this piece. If it can't, no thread takes a
/// further piece.
fn take_lines<F: Read, T: TestFile, R: Wait>(
    rt: &R,
    shared: &Mutex<Option<OpenFile<F, T>>>,
    buffer: &mut [u8],
) -> Option<Option<Taken<F, T>>>
where
    F: Drop,
    ensures lines { IfSome result (λ some. IfSome some (λ taken.
        AreLines T.text buffer.new taken.lines.start taken.lines.end taken.lines.last)) }
    ensures within { IfSome result (λ some. IfSome some (λ taken.
        (taken.lines.start ≤ taken.lines.end)
        × (taken.lines.end - taken.lines.start ≤ length buffer.new))) }
    ensures last { IfSome result (λ some. IfSome some (λ taken.
        taken.lines.last ≡ is_some taken.ended)) }
{
    let mut guard = shared.lock(rt);
    let Some(open) = guard.take() else {
        return Some(None);
    };
    let (lines, more, ended) = read_lines(open, buffer)?;
    *guard = more;
    Some(Some(Taken { lines, ended }))
}

/// Reads the tests of a piece, whose lines a buffer has at its front. Returns `None` if there is an
/// error in them, or memory runs out.
fn read_piece<F: Read, T: TestFile>(
    alloc: Global,
    buffer: &[u8],
    taken: Taken<F, T>,
    width: u32,
) -> Option<Piece<F, T>>
where
    F: Drop,
    requires width { (T.width ≡ width) × (1 ≤ width) }
    requires lines { AreLines T.text buffer.now taken.lines.start taken.lines.end
        taken.lines.last }
    requires within { (taken.lines.start ≤ taken.lines.end)
        × (taken.lines.end - taken.lines.start ≤ length buffer.now) }
    requires last { taken.lines.last ≡ is_some taken.ended }
{
    let Taken { lines, ended } = taken;
    let count = lines.end - lines.start;
    let tests = read_tests(alloc, &buffer[..count], width).ok()?;
    Some(Piece {
        start: lines.start,
        end: lines.end,
        ended,
        tests,
        of: PhantomData,
    })
}

/// Reads pieces of a file that threads share, through a buffer of `size` bytes, as long as the file
/// has more. Returns `None` if a piece can't be read.
pub(crate) fn read_share<F: Read, T: TestFile, R: Wait>(
    rt: &R,
    alloc: Global,
    shared: &Mutex<Option<OpenFile<F, T>>>,
    width: u32,
    size: usize,
) -> Option<Vec<Piece<F, T>>>
where
    F: Drop,
    requires { (T.width ≡ width) × (1 ≤ width) }
{
    let mut buffer = zeros(alloc, size).ok()?;
    let room = buffer.as_mut_slice();
    let mut own = Vec::new(alloc);
    for _ in 0..MAX_PIECES {
        let Some(taken) = take_lines(rt, shared, room)? else {
            return Some(own);
        };
        let piece = read_piece(alloc, room, taken, width)?;
        own.push(piece).ok()?;
    }
    None
}

/// Begins to share a file of which these bytes were read.
pub(crate) fn share_file<F: Read, T: TestFile>(
    file: F,
    rest: Vec<u8>,
) -> Mutex<Option<OpenFile<F, T>>>
    requires { T.text ≡ text_of rest.items (F.remaining file) }
{
    Mutex::new(Some(OpenFile {
        file,
        rest,
        place: 0,
        of: PhantomData,
    }))
}
