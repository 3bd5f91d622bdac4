//! The line of a test file that may name its columns.

ghost use Rattle.std.specs.Prelude.{◌≡◌, IfOk, map, option_map};
ghost use Rattle.text_lines.specs.Rows.{without_front};
ghost use Rattle.test_columns.specs.Columns.{first_written, is_written, names_in, words};

use std::alloc::{AllocError, Global};
use text_lines::{is_blank, without_carriage_return};

/// The word before the names.
pub(crate) const HEADING: &[u8] = b"columns:";

/// A line with its number, from 1.
#[derive(Clone, Copy)]
pub(crate) struct NumberedLine<'a> {
    pub(crate) number: u64,
    pub(crate) bytes: &'a [u8],
}

/// Returns the first line of a file that has more than blanks.
pub(crate) fn first_line(text: &[u8]) -> Option<NumberedLine<'_>>
    ensures { option_map (λ line. (line.number, line.bytes.now)) result
        ≡ first_written text.now }
{
    let mut number = 0;
    for line in text.split(|byte| *byte == b'\n') {
        number += 1;
        let bytes = without_carriage_return(line);
        if has_more_than_blanks(bytes) {
            return Some(NumberedLine { number, bytes });
        }
    }
    None
}

/// Returns whether a line has more than blanks.
pub(crate) fn has_more_than_blanks(line: &[u8]) -> bool
    ensures { result ≡ is_written line.now }
{
    !without_front(line).is_empty()
}

/// Returns the names that a line gives to columns, if it is a comment that gives them.
pub(crate) fn find_columns(alloc: Global, line: &[u8]) -> Result<Option<Vec<&[u8]>>, AllocError>
    ensures { IfOk result (λ found.
        option_map (λ names. map (λ name. name.now) names.items) found ≡ names_in line.now) }
{
    let [b'#', comment @ ..] = without_front(line) else {
        return Ok(None);
    };
    let mut words = split_words(alloc, comment)?;
    if words.is_empty() || words[0] != HEADING {
        return Ok(None);
    }
    words.remove(0);
    Ok(Some(words))
}

/// Returns the bytes without the blanks at their front.
fn without_front(bytes: &[u8]) -> &[u8]
    ensures { result.now ≡ without_front bytes.now }
{
    let mut bytes = bytes;
    while let [b' ' | b'\t', rest @ ..] = bytes {
        bytes = rest;
    }
    bytes
}

/// Returns the words of some bytes.
fn split_words(alloc: Global, bytes: &[u8]) -> Result<Vec<&[u8]>, AllocError>
    ensures { IfOk result (λ v. map (λ word. word.now) v.items ≡ words bytes.now) }
{
    bytes
        .split(|byte| is_blank(*byte))
        .filter(|word| !word.is_empty())
        .collect(alloc)
}
