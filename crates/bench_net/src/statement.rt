//! The statement of one line.

ghost use Rattle.std.specs.Prelude.{◌≡◌, List, ◌∷◌, length, option_map, option_and_then};
ghost use Rattle.std.specs.Str.{str_eq_ignore_ascii_case};
ghost use Rattle.bench_net.specs.Text.{Word, Equals};
ghost use Rattle.bench_net.specs.Statement.{Name};
ghost use Rattle.bench_net.specs.reader.Parsed.{tokens_of, kind_of, has_arity, port, driven_by};
ghost use Rattle.bench_net.specs.reader.Parsed.{read_tokens, stated_of, names_of, stands_for};
ghost use Rattle.bench_net.specs.reader.Parsed.{args_in, IsFoundAs, IsReadAs};

use crate::line_error::{Expected, LineError, Reason, Wrong};
use crate::tokens::{Front, next_token};
use crate::{BenchFault, Kind};
use smallvec::SmallVec;
use std::alloc::Global;

/// The names of a gate's arguments, in order.
pub type Arguments<'a> = SmallVec<&'a str, 4>;

/// A statement by its names, which borrow the file's bytes.
#[derive(Drop)]
pub enum Stated<'a> {
    Input(&'a str),
    Output(&'a str),
    Gate(&'a str, Kind, Arguments<'a>),
    Dff(&'a str, &'a str),
}

/// Returns whether the word is the keyword, in any ASCII case.
fn is_keyword(word: &str, keyword: &str) -> bool
    ensures { result ≡ str_eq_ignore_ascii_case word.now keyword.now }
{
    word.eq_ignore_ascii_case(keyword)
}

/// Returns the kind that a word names, in any ASCII case.
fn kind_named(word: &str) -> Option<Kind>
    ensures { result ≡ kind_of word.now }
{
    if is_keyword(word, "AND") {
        Some(Kind::And)
    } else if is_keyword(word, "NAND") {
        Some(Kind::Nand)
    } else if is_keyword(word, "OR") {
        Some(Kind::Or)
    } else if is_keyword(word, "NOR") {
        Some(Kind::Nor)
    } else if is_keyword(word, "XOR") {
        Some(Kind::Xor)
    } else if is_keyword(word, "XNOR") {
        Some(Kind::Xnor)
    } else if is_keyword(word, "NOT") {
        Some(Kind::Not)
    } else if is_keyword(word, "BUFF") || is_keyword(word, "BUF") {
        Some(Kind::Buff)
    } else {
        None
    }
}

/// Returns whether a gate of the kind may have this number of arguments.
fn takes(kind: Kind, count: usize) -> bool
    ensures { (args : List Name) → length args ≡ count → result ≡ has_arity kind args }
{
    match kind {
        Kind::Not | Kind::Buff => count == 1,
        _ => 1 <= count,
    }
}

/// Returns the error of a line whose token at the front of these bytes, its rest, doesn't fit.
fn expected(what: Expected, rest: &[u8]) -> Wrong
    ensures reason { result.reason ≡ Reason.Expected what }
    ensures left { result.left ≡ length rest.now }
{
    Wrong::before(rest, Reason::Expected(what))
}

/// Returns the arguments up to the parenthesis that ends the line, or the error of the line.
fn read_arguments<'a>(alloc: Global, bytes: &'a [u8]) -> Result<Arguments<'a>, LineError>
    ensures { IsFoundAs (λ args. names_of args.items) (args_in bytes.now) result }
{
    let mut arguments = SmallVec::new(alloc);
    let mut rest = bytes;
    loop {
        let (Front::Word(name), behind) = next_token(rest) else {
            return Err(LineError::Wrong(expected(Expected::Argument, rest)));
        };
        match next_token(behind) {
            (Front::Comma, more) => {
                arguments.push(name)?;
                rest = more;
            }
            (Front::Close, end) if matches!(next_token(end).0, Front::End) => {
                arguments.push(name)?;
                return Ok(arguments);
            }
            (Front::Close, end) => return Err(LineError::Wrong(expected(Expected::End, end))),
            _ => return Err(LineError::Wrong(expected(Expected::CommaOrClose, behind))),
        }
    }
}

/// Returns `INPUT ( n )` or `OUTPUT ( n )`, made of the word before the parenthesis and the
/// arguments.
fn port<'a>(word: &str, arguments: Arguments<'a>) -> Option<Stated<'a>>
    ensures { option_map stands_for result ≡ port word.now (names_of arguments.entry.items) }
{
    match arguments.as_slice() {
        [name] if is_keyword(word, "INPUT") => Some(Stated::Input(*name)),
        [name] if is_keyword(word, "OUTPUT") => Some(Stated::Output(*name)),
        _ => None,
    }
}

/// Returns `q = DFF ( d )` or `n = KIND ( a , b , .. )`, made of the name, the word and the
/// arguments.
fn driven<'a>(name: &'a str, word: &str, arguments: Arguments<'a>) -> Option<Stated<'a>>
    ensures { option_map stands_for result
        ≡ driven_by name.now word.now (names_of arguments.entry.items) }
{
    if is_keyword(word, "DFF") {
        let [data] = arguments.as_slice() else {
            return None;
        };
        return Some(Stated::Dff(name, *data));
    }
    let kind = kind_named(word)?;
    if takes(kind, arguments.len()) {
        Some(Stated::Gate(name, kind, arguments))
    } else {
        None
    }
}

/// Returns the reason why `word ( n , .. )` with this number of names is no statement.
fn port_reason(word: &str, count: usize) -> Reason {
    if is_keyword(word, "INPUT") || is_keyword(word, "OUTPUT") {
        Reason::OneArgument(count)
    } else {
        Reason::UnknownPort
    }
}

/// Returns the reason why `n = word ( a , .. )` with this number of arguments is no statement.
fn kind_reason(word: &str, count: usize) -> Reason {
    if is_keyword(word, "DFF") || kind_named(word).is_some() {
        Reason::OneArgument(count)
    } else {
        Reason::UnknownKind
    }
}

/// Returns the statement of a line that begins with this word, from the bytes after it.
fn read_behind<'a>(
    alloc: Global,
    line: &'a [u8],
    word: &'a str,
    bytes: &'a [u8],
) -> Result<Stated<'a>, LineError>
    ensures { IsFoundAs stands_for
        (option_and_then (λ ts. read_tokens (Word word.now ∷ ts)) (tokens_of bytes.now)) result }
{
    match next_token(bytes) {
        (Front::Open, rest) => {
            let arguments = read_arguments(alloc, rest)?;
            let count = arguments.len();
            match port(word, arguments) {
                Some(statement) => Ok(statement),
                None => Err(LineError::Wrong(Wrong::before(line, port_reason(word, count)))),
            }
        }
        (Front::Equals, rest) => read_driver(alloc, word, rest),
        _ => Err(LineError::Wrong(expected(Expected::OpenOrEquals, bytes))),
    }
}

/// Returns the statement of a line that begins with this name and `=`, from the bytes after it.
fn read_driver<'a>(alloc: Global, name: &'a str, bytes: &'a [u8]) -> Result<Stated<'a>, LineError>
    ensures { IsFoundAs stands_for
        (option_and_then (λ ts. read_tokens (Word name.now ∷ Equals ∷ ts)) (tokens_of bytes.now))
        result }
{
    let (Front::Word(kind), behind) = next_token(bytes) else {
        return Err(LineError::Wrong(expected(Expected::Kind, bytes)));
    };
    let (Front::Open, rest) = next_token(behind) else {
        return Err(LineError::Wrong(expected(Expected::Open, behind)));
    };
    let arguments = read_arguments(alloc, rest)?;
    let count = arguments.len();
    match driven(name, kind, arguments) {
        Some(statement) => Ok(statement),
        None => Err(LineError::Wrong(Wrong::before(bytes, kind_reason(kind, count)))),
    }
}

/// Returns the statement of a line without its end, or none if the line has no token.
///
/// # Errors
///
/// `LineError::Wrong` with the first token that doesn't fit if the line is no statement, and
/// `LineError::Memory`.
pub fn read_statement<'a>(alloc: Global, line: &'a [u8]) -> Result<Option<Stated<'a>>, LineError>
    ensures { IsFoundAs (option_map stands_for) (stated_of line.now) result }
{
    match next_token(line) {
        (Front::End, _) => Ok(None),
        (Front::Word(word), rest) => Ok(Some(read_behind(alloc, line, word, rest)?)),
        _ => Err(LineError::Wrong(expected(Expected::Name, line))),
    }
}

/// Returns the statement of a line, or none if the line has no token. It fails with this error if
/// the line is no statement.
#[inline(always)]
pub(crate) fn read_line<'a>(
    alloc: Global,
    line: &'a [u8],
    refusal: BenchFault,
) -> Result<Option<Stated<'a>>, BenchFault>
    ensures { IsReadAs refusal (option_map stands_for) (stated_of line.now) result }
{
    match read_statement(alloc, line) {
        Ok(statement) => Ok(statement),
        Err(LineError::Wrong(_)) => Err(refusal),
        Err(LineError::Memory) => Err(BenchFault::Memory),
    }
}
