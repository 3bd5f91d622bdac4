//! The lines of a file, and the tokens of a line of a bench file with their places.

use bench_net::{Front, next_token};
use std::fmt::{self, Display, Formatter};
use text_lines::FileLines;

/// A place on a line.
#[derive(Clone, Copy)]
pub struct Place {
    /// Its first byte, from 0.
    pub start: usize,
    /// Its number of bytes.
    pub len: usize,
}

/// The place of an error that names no line.
pub(crate) const NO_PLACE: Place = Place { start: 0, len: 0 };

/// A token of a line with its place.
#[derive(Clone, Copy)]
pub(crate) struct Spot<'a> {
    pub(crate) token: Front<'a>,
    pub(crate) place: Place,
    /// The line.
    line: &'a [u8],
}

impl<'a> Spot<'a> {
    /// Returns the first token of a line from a byte on, counted from 0.
    pub(crate) fn at(line: &'a [u8], from: usize) -> Spot<'a> {
        let (token, rest) = next_token(line.get(from..).unwrap_or(&[]));
        let (read, len) = match token {
            Front::Word(word) => (word.len(), word.len()),
            Front::End => (0, 0),
            Front::Bad => (0, 1),
            Front::Open | Front::Close | Front::Comma | Front::Equals => (1, 1),
        };
        let start = line.len().saturating_sub(rest.len()).saturating_sub(read);
        let place = Place { start, len };
        Spot { token, place, line }
    }

    /// Returns the token after it.
    pub(crate) fn following(self) -> Spot<'a> {
        Spot::at(self.line, self.place.start.saturating_add(self.place.len))
    }
}

impl Display for Spot<'_> {
    fn fmt<W: fmt::Write>(&self, f: &mut Formatter<W>) -> fmt::Result {
        match self.token {
            Front::Open => f.write_str("`(`"),
            Front::Close => f.write_str("`)`"),
            Front::Comma => f.write_str("`,`"),
            Front::Equals => f.write_str("`=`"),
            Front::Word(word) => write!(f, "`{}`", Short(word)),
            Front::End => f.write_str("the end of the line"),
            Front::Bad => {
                let byte = self.line.get(self.place.start).copied().unwrap_or(0);
                write!(f, "the byte 0x{byte:02x}")
            }
        }
    }
}

/// The number of bytes of a word that are printed.
const MAX_PRINTED: usize = 80;

/// A word as it is printed: a long one is cut off.
#[derive(Clone, Copy)]
pub(crate) struct Short<'a>(pub(crate) &'a str);

impl Display for Short<'_> {
    fn fmt<W: fmt::Write>(&self, f: &mut Formatter<W>) -> fmt::Result {
        match self.0.get(..MAX_PRINTED) {
            Some(front) if self.0.len() > MAX_PRINTED => write!(f, "{front}.."),
            _ => f.write_str(self.0),
        }
    }
}

/// Returns the place of the word of this number, from 0, among the words of a line.
pub(crate) fn word_place(line: &[u8], number: usize) -> Place {
    let mut spot = Spot::at(line, 0);
    let mut left = number;
    for _ in 0..line.len() {
        if matches!(spot.token, Front::Word(_)) {
            if left == 0 {
                break;
            }
            left -= 1;
        }
        spot = spot.following();
    }
    spot.place
}

/// Returns the line of this number, from 1, of a file, without its end.
pub(crate) fn line_at<'a>(text: &'a [u8], number: u64) -> &'a [u8] {
    let place = usize::try_from(number).unwrap_or(0);
    let line = FileLines::new(text).nth(place.saturating_sub(1));
    line.unwrap_or(&[])
}
