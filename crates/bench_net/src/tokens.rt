//! The tokens of a line, one after another from its front.

ghost use Rattle.std.specs.Prelude.{◌≡◌, ◌<◌, ◌≤◌, length};
ghost use Rattle.std.specs.List.{prefix_len};
ghost use Rattle.std.specs.Str.{IsUtf8};
ghost use Rattle.text_lines.specs.Lines.{is_blank};
ghost use Rattle.bench_net.specs.Text.{is_word_byte};
ghost use Rattle.bench_net.specs.reader.Parsed.{IsFront};

use std::str;
use text_lines::is_blank;

/// The token at the front of a line, after its blanks: a mark or a word, which borrows the line, or
/// none of them.
#[derive(Clone, Copy)]
pub enum Front<'a> {
    Open,
    Close,
    Comma,
    Equals,
    Word(&'a str),
    /// No more token: the line ends here, or a comment begins.
    End,
    /// A byte that may only be in a comment.
    Bad,
}

/// Returns whether a word may have the byte: the visible ASCII bytes but the marks and `#`. Letters
/// and digits, which most words are made of, are tried first.
#[inline(always)]
fn is_word_byte(byte: u8) -> bool
    ensures { result ≡ is_word_byte byte }
{
    if b'-' <= byte {
        byte <= b'~' && byte != b'='
    } else {
        matches!(byte, b'!' | b'"' | b'$'..=b'\'' | b'*' | b'+')
    }
}

/// Returns the number of blanks at the front of the bytes.
#[inline(always)]
fn blank_len(bytes: &[u8]) -> usize
    ensures counted { result ≡ prefix_len is_blank bytes.now }
    ensures within { result ≤ length bytes.now }
{
    bytes.iter().take_while(|byte| is_blank(**byte)).count()
}

/// Returns the number of word bytes at the front of the bytes.
#[inline(always)]
fn word_len(bytes: &[u8]) -> usize
    ensures counted { result ≡ prefix_len is_word_byte bytes.now }
    ensures within { result ≤ length bytes.now }
{
    bytes.iter().take_while(|byte| is_word_byte(**byte)).count()
}

/// Returns the token at the front of bytes that don't begin with a blank, and the bytes after it.
#[inline(always)]
fn token_at<'a>(bytes: &'a [u8]) -> (Front<'a>, &'a [u8])
    requires { prefix_len is_blank bytes.now ≡ 0 }
    ensures { IsFront bytes.now result }
{
    match bytes {
        [] | [b'#', ..] => (Front::End, bytes),
        [b'(', rest @ ..] => (Front::Open, rest),
        [b')', rest @ ..] => (Front::Close, rest),
        [b',', rest @ ..] => (Front::Comma, rest),
        [b'=', rest @ ..] => (Front::Equals, rest),
        _ => {
            let len = word_len(bytes);
            if len == 0 {
                return (Front::Bad, bytes);
            }
            let (word, rest) = bytes.split_at(len);
            (Front::Word(word_text(word)), rest)
        }
    }
}

/// Returns a word as a text.
#[inline(always)]
fn word_text<'a>(word: &'a [u8]) -> &'a str
    requires { IsUtf8 word.now }
    ensures { result.now ≡ word.now }
{
    // SAFETY: a word has visible ASCII bytes alone, which are UTF-8.
    unsafe { str::from_utf8_unchecked(word) }
}

/// Returns the token at the front of a line, and the bytes after it.
#[inline(always)]
pub fn next_token<'a>(line: &'a [u8]) -> (Front<'a>, &'a [u8])
    ensures { IsFront line.now result }
{
    token_at(&line[blank_len(line)..])
}
