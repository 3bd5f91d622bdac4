//! The lines of a file, and the contents of a line.

ghost use Rattle.std.specs.Prelude.{◌≡◌, ◌==◌};
ghost use Rattle.std.specs.List.{before_first, after_first};
ghost use Rattle.std.specs.Str.Lines.{strip_carriage_return};
ghost use Rattle.text_lines.specs.Lines.{is_blank};
ghost use Rattle.text_lines.specs.Rows.{content, without_front, without_back};

use memchr::memchr;

/// The lines of a file, from the top, each without its end: the line feed, and a carriage return
/// directly before it.
#[derive(Drop)]
pub struct FileLines<'a> {
    /// The bytes from the next line on; none after the last line.
    text: Option<&'a [u8]>,
}

impl<'a> FileLines<'a> {
    ghost use Rattle.std.specs.Prelude.{◌≤◌, ◌+◌, length};
    ghost use Rattle.text_lines.specs.Lines.{lines};
    ghost use Rattle.text_lines.specs.Reading.{lines_left};

    /// Returns the lines of a file.
    pub fn new(text: &'a [u8]) -> Self
        ensures lines { lines_left result ≡ lines text.now }
        ensures few { length (lines_left result) ≤ length text.now + 1 }
    {
        FileLines { text: Some(text) }
    }
}

impl<'a> Iterator for FileLines<'a> {
    ghost use Rattle.std.specs.Iterator.{YieldsFirstBy, item_count};
    ghost use Rattle.text_lines.specs.Reading.{lines_left};

    type Item = &'a [u8];

    ghost next_gives = { YieldsFirstBy (λ line. line.now) lines_left };

    ghost remaining = { item_count lines_left };

    fn next(&mut self) -> Option<&'a [u8]> {
        let text = self.text?;
        let Some(at) = memchr(b'\n', text) else {
            self.text = None;
            return Some(without_carriage_return(text));
        };
        self.text = Some(&text[at + 1..]);
        Some(without_carriage_return(&text[..at]))
    }
}

/// Returns whether the byte is a space or a tab.
#[inline]
pub fn is_blank(byte: u8) -> bool
    ensures { result ≡ is_blank byte }
{
    byte == b' ' || byte == b'\t'
}

/// Splits bytes at the first `separator`: the bytes before it and the bytes after it; all of them
/// and none if there is no separator.
pub(crate) fn split_once(bytes: &[u8], separator: u8) -> (&[u8], &[u8])
    ensures before { result.0.now ≡ before_first (λ b. b == separator) bytes.now }
    ensures after { result.1.now ≡ after_first (λ b. b == separator) bytes.now }
{
    match bytes.iter().position(|byte| *byte == separator) {
        Some(at) => (&bytes[..at], &bytes[at + 1..]),
        None => (bytes, &[]),
    }
}

/// Returns the contents of a line, given with the carriage return of its end if it has one.
pub(crate) fn content(line: &[u8]) -> &[u8]
    ensures { result.now ≡ content (strip_carriage_return line.now) }
{
    let (before_comment, _comment) = split_once(without_carriage_return(line), b'#');
    without_back(without_front(before_comment))
}

/// Returns a line without the carriage return that may end it.
pub fn without_carriage_return(line: &[u8]) -> &[u8]
    ensures { result.now ≡ strip_carriage_return line.now }
{
    match line {
        [front @ .., b'\r'] => front,
        _ => line,
    }
}

/// Returns the bytes without the blanks at their front.
fn without_front(bytes: &[u8]) -> &[u8]
    ensures { result.now ≡ without_front bytes.now }
{
    let mut bytes = bytes;
    while let [b' ' | b'\t', rest @ ..] = bytes {
        bytes = rest;
    }
    bytes
}

/// Returns the bytes without the blanks at their back.
fn without_back(bytes: &[u8]) -> &[u8]
    ensures { result.now ≡ without_back bytes.now }
{
    let mut bytes = bytes;
    while let [rest @ .., b' ' | b'\t'] = bytes {
        bytes = rest;
    }
    bytes
}
