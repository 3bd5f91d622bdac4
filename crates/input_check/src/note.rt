//! The notes on errors beside their words.

use crate::foreign::Foreign;
use crate::place::{Place, Short, Spot};
use crate::suggest::{GATES, PORTS, nearest_of};
use bench_net::{Expected, Front, Reason, Wrong, next_token};
use std::alloc::{AllocError, Global};
use text_lines::are_bits;

/// A note on an error.
#[derive(Drop)]
pub enum Note {
    /// Nothing beside the words of the error.
    Nothing,
    /// The file is of another kind.
    Foreign(Foreign),
    /// What was found and expected, and a suggestion.
    Words(String),
}

/// Returns the place and the words of the error of a line of a bench file.
pub(crate) fn line_note(
    alloc: Global,
    line: &[u8],
    wrong: Wrong,
) -> Result<(Place, String), AllocError> {
    if let Some((place, words)) = other_form(line) {
        return Ok((place, format!(in alloc; "{words}")?));
    }
    let spot = Spot::at(line, line.len().saturating_sub(wrong.left));
    Ok((spot.place, reason_words(alloc, spot, wrong.reason)?))
}

/// The words on a line that is a test.
const TEST: &str = "looks like a test; are --bench and --tests swapped?";

/// Returns the words on a line that is a test or begins a statement of ABC, with their place.
fn other_form(line: &[u8]) -> Option<(Place, &'static str)> {
    let first = Spot::at(line, 0);
    let second = first.following();
    let third = second.following();
    match (first.token, second.token, third.token) {
        (Front::Word(bits), Front::End, _) if are_bits(bits.as_bytes()) => {
            Some((first.place, TEST))
        }
        (Front::Word(_), Front::Equals, Front::Word(word)) => {
            Some((third.place, abc_words(word, third.following().token)?))
        }
        _ => None,
    }
}

/// Returns the words on the statement of ABC that a word after `=` and the token after it begin, if
/// bench files don't have it.
fn abc_words(word: &str, next: Front<'_>) -> Option<&'static str> {
    match next {
        Front::End if word.eq_ignore_ascii_case("vdd") || word.eq_ignore_ascii_case("gnd") => {
            Some("a constant of ABC; leave out the output that it drives")
        }
        Front::Word(_) if word.eq_ignore_ascii_case("LUT") => {
            Some("a table of ABC; `strash; write_bench -l` writes gates")
        }
        Front::Open if word.eq_ignore_ascii_case("DFFRSE") => {
            Some("a flip-flop of ABC; `strash; write_bench -l` writes DFF")
        }
        _ => None,
    }
}

/// Returns the words on the token of a line that doesn't fit.
fn reason_words(alloc: Global, spot: Spot<'_>, reason: Reason) -> Result<String, AllocError> {
    let word = match spot.token {
        Front::Word(word) => word,
        _ => "",
    };
    match reason {
        Reason::Expected(next) => {
            format!(in alloc; "found {spot}, expected {}", expected_words(next))
        }
        Reason::UnknownPort => unknown(alloc, "statement", word, &PORTS),
        Reason::UnknownKind => unknown(alloc, "gate", word, &GATES),
        Reason::OneArgument(found) => {
            format!(in alloc; "{} takes 1 argument, found {found}", Short(word))
        }
    }
}

/// Returns the words for what may come next on a line.
fn expected_words(next: Expected) -> &'static str {
    match next {
        Expected::Name => "a name, INPUT or OUTPUT",
        Expected::OpenOrEquals => "`(` or `=`",
        Expected::Kind => "the kind of a gate",
        Expected::Open => "`(`",
        Expected::Argument => "a name",
        Expected::CommaOrClose => "`,` or `)`",
        Expected::End => "the end of the line",
    }
}

/// Returns the words on an unknown word for a gate or a statement, with the near one of a table.
fn unknown(
    alloc: Global,
    what: &str,
    word: &str,
    table: &[(&'static str, &'static str)],
) -> Result<String, AllocError> {
    let near = nearest_of(alloc, word, table)?;
    let word = Short(word);
    match near {
        Some(near) => format!(in alloc; "unknown {what} {word}; did you mean {near}?"),
        None => format!(in alloc; "unknown {what} {word}"),
    }
}

/// Returns the name that a line with an error seems to define.
pub(crate) fn meant_by<'a>(line: &'a [u8]) -> Option<&'a str> {
    let (first, rest) = next_token(line);
    let (mark, rest) = next_token(rest);
    match (first, mark, next_token(rest).0) {
        (Front::Word(name), Front::Equals, _) => Some(name),
        (Front::Word(_), Front::Open, Front::Word(name)) => Some(name),
        _ => None,
    }
}
