//! The rows of a file, one after another from its top.

ghost use Rattle.std.specs.Prelude.{◌≡◌, ◌+◌, ◌^◌, ◌<◌, ◌≤◌, true, length, take, slice_index};
ghost use Rattle.std.specs.Prelude.{count_by};
ghost use Rattle.std.specs.List.{list_all, before_first, after_first};
ghost use Rattle.std.specs.Str.Lines.{strip_carriage_return};
ghost use Rattle.text_lines.specs.Lines.{ends_line};
ghost use Rattle.text_lines.specs.Rows.{content, is_bit};
ghost use Rattle.text_lines.specs.Starts.{IsLineStart, IsLineStartFrom};

use crate::lines::{content, split_once};

/// A row: a line with contents.
#[derive(Clone, Copy)]
pub struct Row<'a> {
    /// The number of its line, counted from 1.
    pub line: u64,
    /// The contents of the line: its bytes before a comment, without the blanks at their ends.
    pub bytes: &'a [u8],
}

/// The rows of a file, from the top.
#[derive(Drop)]
pub struct Rows<'a> {
    /// The bytes from the next line on.
    text: &'a [u8],
    /// The number of that line, counted from 1.
    line: u64,
    /// The number of bytes that a row is likely to have. It only affects the time.
    likely: usize,
    /// Each line has at least its end or a byte, so the numbers of all lines fit.
    ghost numbered: { line + length text.now < 2 ^ 64 },
}

impl<'a> Rows<'a> {
    ghost use Rattle.std.specs.Prelude.{◌++◌};
    ghost use Rattle.text_lines.specs.Rows.{rows};
    ghost use Rattle.text_lines.specs.Reading.{rows_left};

    /// Returns the rows of a file, most of which are likely to have this number of bytes.
    pub fn new(text: &'a [u8], likely: usize) -> Self
        ensures { rows_left result ≡ rows text.now }
    {
        Rows {
            text,
            line: 1,
            likely,
        }
    }

    /// Makes the rows of a file from a place on, at which a line begins, counted from 0 in bytes.
    /// They have the numbers of their lines in the whole file: the lines before the place are
    /// counted.
    pub fn from_place(text: &'a [u8], place: usize, likely: usize) -> Self
        requires { IsLineStart text.now place }
        ensures { rows text.now ≡ rows (take place text.now) ++ rows_left result }
    {
        let before = &text[..place];
        Rows {
            text: &text[place..],
            line: 1 + count_line_feeds(before),
            likely,
        }
    }
}

impl<'a> Iterator for Rows<'a> {
    ghost use Rattle.std.specs.Iterator.{YieldsFirstBy, item_count};
    ghost use Rattle.text_lines.specs.Reading.{row_of, rows_left};

    type Item = Row<'a>;

    ghost next_gives = { YieldsFirstBy row_of rows_left };

    ghost remaining = { item_count rows_left };

    fn next(&mut self) -> Option<Row<'a>> {
        while !self.text.is_empty() {
            let line = self.line;
            let (bytes, rest) = first_line(self.text, self.likely);
            self.text = rest;
            self.line += 1;
            if !bytes.is_empty() {
                return Some(Row { line, bytes });
            }
        }
        None
    }
}

/// Returns the contents of the first line, and the bytes after that line. A line of exactly the
/// likely number of digits `0` and `1` is recognized by them, without a search for its end.
fn first_line(text: &[u8], likely: usize) -> (&[u8], &[u8])
    ensures held { result.0.now
        ≡ content (strip_carriage_return (before_first ends_line text.now)) }
    ensures rest { result.1.now ≡ after_first ends_line text.now }
{
    if begins_with_bits(text, likely) {
        return (&text[..likely], &text[likely + 1..]);
    }
    let (first, rest) = split_once(text, b'\n');
    (content(first), rest)
}

/// Returns whether a file begins with this number of digits `0` and `1`, and then a line feed.
fn begins_with_bits(text: &[u8], count: usize) -> bool
    ensures { result ≡ true → (count < length text.now) × (slice_index text.now count ≡ 10)
        × (list_all is_bit (take count text.now) ≡ true) }
{
    match text.get(count) {
        Some(b'\n') => are_bits(&text[..count]),
        _ => false,
    }
}

/// Returns the number of bytes that are line feeds.
pub fn count_line_feeds(bytes: &[u8]) -> u64
    ensures count { result ≡ count_by ends_line bytes.now }
    ensures few { result ≤ length bytes.now }
{
    let mut count = 0;
    for byte in bytes {
        if *byte == b'\n' {
            count += 1;
        }
    }
    count
}

/// Returns the first place of a file, from `place` on, at which a line begins, and the end of the
/// file if there is none. Places are counted from 0 in bytes.
pub fn line_start_from(text: &[u8], place: usize) -> usize
    requires { place ≤ length text.now }
    ensures { IsLineStartFrom text.now place result }
{
    if place == 0 {
        return 0;
    }
    match text[place - 1..].iter().position(|byte| *byte == b'\n') {
        Some(at) => place + at,
        None => text.len(),
    }
}

/// Returns whether each byte is `0` or `1`. It checks all of them, because a processor then takes
/// many at a time.
pub fn are_bits(bytes: &[u8]) -> bool
    ensures { result ≡ list_all is_bit bytes.now }
{
    let mut all = true;
    for byte in bytes {
        all &= matches!(*byte, b'0' | b'1');
    }
    all
}
