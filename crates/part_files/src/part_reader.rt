//! The reader of part files.

ghost use Rattle.std.specs.Prelude.{◌≡◌, ◌≢◌, ◌+◌, ◌-◌, ◌<◌, ◌^◌, ◌∷◌, ◌++◌, ℕ, List, [], OnOk};
ghost use Rattle.std.specs.Prelude.{true, false, IfErr, IfOk, MatchOption, MatchResult, codes};
ghost use Rattle.std.specs.Prelude.{decimal, length};
ghost use Rattle.region_runs.specs.declared.parts.PartVerdict.{PartVerdict};
ghost use Rattle.part_files.specs.Cut.{Lacks};
ghost use Rattle.part_files.specs.PartText.{PartHead, head_line, verdict_line, verdict_text};
ghost use Rattle.part_files.specs.PartReading.{AreWords, IsHead, IsLine, IsPart, IsPartRefusal};
ghost use Rattle.part_files.specs.PartReading.{IsEndFault, IsNoFaultLine, IsVerdict, WordTexts};
ghost use Rattle.part_files.specs.PartReading.{end_of};
ghost use Rattle.part_files.specs.PartReading.{head_in, texts_in, words_in, words_text};

use crate::cut::{cut_first, cut_last, is_joined, strip};
use crate::part_writer::{count_found, count_own};
use itoa::Buffer;
use region_runs::PartVerdict;
use std::alloc::{AllocError, Global};
use std::str::from_utf8;
use thiserror::Error;

/// The content of the first line of a part file. The part counts from 0; the rest are words.
#[derive(Clone, Copy, Debug)]
pub struct PartHeader<'a> {
    pub part: u32,
    pub parts: u32,
    pub model: &'a [u8],
    pub rule: &'a [u8],
    /// The sum of the bench file.
    pub bench: &'a [u8],
    /// The sum of the test file.
    pub tests: &'a [u8],
}

/// The content of a part file.
#[derive(Drop)]
pub struct PartText<'a> {
    pub header: PartHeader<'a>,
    /// The text of each fault.
    pub faults: Vec<&'a [u8]>,
    /// The verdict of each fault.
    pub verdicts: Vec<PartVerdict>,
}

/// An error of a part file.
#[derive(Clone, Copy, Debug, PartialEq, Eq, Error)]
pub enum PartFault {
    /// This line, counted from 1, doesn't belong in a part file.
    #[error("line {0}: not a part text")]
    NotAPart(u64),
    /// The file ends before its last line does.
    #[error("cut off")]
    CutOff,
    /// Memory ran out.
    #[error("out of memory")]
    Memory,
}

/// Returns the number of decimal digits without a leading zero, if it has 32 bits.
fn number_of(word: &[u8]) -> Option<u32>
    ensures { MatchOption result ((n : ℕ) → n < 2 ^ 32 → word.now ≢ decimal n)
        (λ n. word.now ≡ decimal n) }
{
    let Ok(text) = from_utf8(word) else {
        return None;
    };
    let Ok(number) = text.parse::<u32>() else {
        return None;
    };
    let mut digits = Buffer::new();
    if digits.format(number) == text {
        Some(number)
    } else {
        None
    }
}

/// Returns the verdict of a word.
fn verdict_of(word: &[u8]) -> Option<PartVerdict>
    ensures { MatchOption result ((v : PartVerdict) → IsVerdict v → word.now ≢ verdict_text v)
        (λ v. IsVerdict v × (word.now ≡ verdict_text v)) }
{
    if word == b"-".as_slice() {
        return Some(PartVerdict::OtherPart);
    }
    if word == b"none".as_slice() {
        return Some(PartVerdict::First(None));
    }
    let test = number_of(word)?;
    Some(PartVerdict::First(Some(test)))
}

/// Cuts a field of the first line into its word, which isn't empty, and the bytes after the space.
fn field<'a>(text: &'a [u8], name: &[u8]) -> Option<(&'a [u8], &'a [u8])>
    ensures { MatchOption result
        ((word rest : List ℕ) → 0 < length word → Lacks 32 word
        → text.now ≢ name.now ++ (word ++ 32 ∷ rest))
        (λ cut. (0 < length cut.0.now) × Lacks 32 cut.0.now
        × (text.now ≡ name.now ++ (cut.0.now ++ 32 ∷ cut.1.now))) }
{
    let rest = strip(text, name)?;
    let (word, after) = cut_first(rest, b' ')?;
    if word.is_empty() {
        return None;
    }
    Some((word, after))
}

/// The words of a first line from the model on.
#[derive(Clone, Copy)]
struct Words<'a> {
    model: &'a [u8],
    rule: &'a [u8],
    bench: &'a [u8],
    tests: &'a [u8],
}

/// Returns the words of a first line from the model on, given the line from there.
fn words_of(text: &[u8]) -> Option<Words<'_>>
    requires { Lacks 10 text.now }
    ensures { MatchOption result
        ((words : WordTexts) → AreWords words → text.now ≢ words_text words)
        (λ words. AreWords (words_in words) × (text.now ≡ words_text (words_in words))) }
{
    let (model, rest) = field(text, b"model ")?;
    let (rule, rest) = field(rest, b"rule ")?;
    let (bench, rest) = field(rest, b"bench ")?;
    let tests = strip(rest, b"tests ")?;
    if tests.is_empty() {
        return None;
    }
    match cut_first(tests, b' ') {
        Some(_) => None,
        None => Some(Words {
            model,
            rule,
            bench,
            tests,
        }),
    }
}

/// Returns the part, counted from 0, and the number of parts, given as words.
fn place_of(part: &[u8], parts: &[u8]) -> Option<(u32, u32)>
    ensures { MatchOption result
        ((i n : ℕ) → i < n → n < 2 ^ 32 → part.now ≡ decimal (i + 1) → parts.now ≢ decimal n)
        (λ place. (place.0 < place.1) × (part.now ≡ decimal (place.0 + 1))
        × (parts.now ≡ decimal place.1)) }
{
    let place = number_of(part)?;
    let count = number_of(parts)?;
    if place > count {
        return None;
    }
    let before = place.checked_sub(1)?;
    Some((before, count))
}

/// Returns the content of a first line, given without its line feed.
fn header_of(line: &[u8]) -> Option<PartHeader<'_>>
    requires { Lacks 10 line.now }
    ensures { MatchOption result
        ((h : PartHead) → IsHead h → line.now ++ codes "\n" ≢ head_line h)
        (λ h. IsHead (head_in h) × (line.now ++ codes "\n" ≡ head_line (head_in h))) }
{
    let (part, rest) = field(line, b"part ")?;
    let (parts, rest) = field(rest, b"of ")?;
    let words = words_of(rest)?;
    let (part, parts) = place_of(part, parts)?;
    Some(PartHeader {
        part,
        parts,
        model: words.model,
        rule: words.rule,
        bench: words.bench,
        tests: words.tests,
    })
}

/// Returns the fault and the verdict of a line, given without its line feed.
fn line_of(line: &[u8]) -> Option<(&[u8], PartVerdict)>
    requires { Lacks 10 line.now }
    ensures { MatchOption result (IsNoFaultLine line.now)
        (λ at. IsLine (at.0.now, at.1)
        × (line.now ++ codes "\n" ≡ verdict_line (at.0.now, at.1))) }
{
    let (name, word) = cut_last(line, b' ')?;
    let verdict = verdict_of(word)?;
    match strip(name, b"part ") {
        Some(_) => None,
        None => Some((name, verdict)),
    }
}

/// Returns whether a line, given without its line feed, is the last line of a part file with this
/// first line and these verdicts.
fn is_end(line: &[u8], header: &PartHeader<'_>, verdicts: &[PartVerdict]) -> bool
    ensures yes { result ≡ true
        → line.now ++ codes "\n" ≡ end_of (head_in header.now) verdicts.now }
    ensures no { result ≡ false
        → line.now ++ codes "\n" ≢ end_of (head_in header.now) verdicts.now }
{
    let mut part = Buffer::new();
    let mut parts = Buffer::new();
    let mut found = Buffer::new();
    let mut own = Buffer::new();
    let pieces = [
        "part ",
        part.format(u64::from(header.part) + 1),
        " of ",
        parts.format(header.parts),
        ": ",
        found.format(count_found(verdicts)),
        " of ",
        own.format(count_own(verdicts)),
    ];
    is_joined(line, &pieces)
}

/// Reads a part file. It returns what the file spells, and for a part file it fails only for
/// memory.
///
/// # Errors
///
/// The first line with an error decides, counted from 1: it is [`PartFault::NotAPart`], also for a
/// line after the last one. A file whose last line lacks its line feed, or that ends before the
/// line with the counts, is [`PartFault::CutOff`]. [`PartFault::Memory`] may come instead of any
/// result, if memory ran out.
pub fn read_part(alloc: Global, text: &[u8]) -> Result<PartText<'_>, PartFault>
    ensures read { IfOk result (λ part. IsPart text.now (head_in part.header)
        (texts_in part.faults.items) part.verdicts.items) }
    ensures refused { IfErr result (IsPartRefusal text.now) }
    ensures only { (h : PartHead) (faults : List (List ℕ)) (verdicts : List PartVerdict)
        → IsPart text.now h faults verdicts → MatchResult result
        (λ part. (head_in part.header ≡ h) × (texts_in part.faults.items ≡ faults)
        × (part.verdicts.items ≡ verdicts)) (λ fault. fault ≡ PartFault.Memory) }
{
    let Some((line, rest)) = cut_first(text, b'\n') else {
        return Err(PartFault::CutOff);
    };
    let Some(header) = header_of(line) else {
        return Err(PartFault::NotAPart(1));
    };
    read_lines(alloc, text, header, rest)
}

/// Reads the lines of a part file after the first.
fn read_lines<'a>(
    alloc: Global,
    text: &'a [u8],
    header: PartHeader<'a>,
    lines: &'a [u8],
) -> Result<PartText<'a>, PartFault>
    requires head { IsHead (head_in header) }
    requires whole { text.now ≡ head_line (head_in header) ++ lines.now }
    ensures read { IfOk result (λ part. IsPart text.now (head_in part.header)
        (texts_in part.faults.items) part.verdicts.items) }
    ensures refused { IfErr result (IsPartRefusal text.now) }
{
    let mut faults = Vec::new(alloc);
    let mut verdicts = Vec::new(alloc);
    let mut rest = lines;
    let mut number = 2u64;
    while let Some((line, after)) = cut_first(rest, b'\n') {
        match line_of(line) {
            Some((fault, verdict)) => {
                add_line(&mut faults, &mut verdicts, fault, verdict)?;
            }
            None => {
                check_end(line, after, &header, verdicts.as_slice(), number)?;
                return Ok(PartText {
                    header,
                    faults,
                    verdicts,
                });
            }
        }
        rest = after;
        number += 1;
    }
    Err(PartFault::CutOff)
}

/// Checks that a line of this number, given without its line feed, is the last line of a part file.
/// The file has this first line and these verdicts, and no line follows the last. It fails with the
/// line that has the error.
fn check_end(
    line: &[u8],
    after: &[u8],
    header: &PartHeader<'_>,
    verdicts: &[PartVerdict],
    number: u64,
) -> Result<(), PartFault>
    requires { number < 2 ^ 64 - 1 }
    ensures last { OnOk result (line.now ++ codes "\n" ≡ end_of (head_in header.now) verdicts.now) }
    ensures all { OnOk result (length after.now ≡ 0) }
    ensures refused { IfErr result (IsEndFault line.now after.now (head_in header.now)
        verdicts.now number) }
{
    if !is_end(line, header, verdicts) {
        return Err(PartFault::NotAPart(number));
    }
    if !after.is_empty() {
        return Err(PartFault::NotAPart(number + 1));
    }
    Ok(())
}

/// Adds a fault and its verdict.
fn add_line<'a>(
    faults: &mut Vec<&'a [u8]>,
    verdicts: &mut Vec<PartVerdict>,
    fault: &'a [u8],
    verdict: PartVerdict,
) -> Result<(), AllocError>
    ensures faults { OnOk result (texts_in faults.new.items
        ≡ texts_in faults.old.items ++ fault.now ∷ []) }
    ensures verdicts { OnOk result (verdicts.new.items ≡ verdicts.old.items ++ verdict ∷ []) }
{
    faults.push(fault)?;
    verdicts.push(verdict)?;
    Ok(())
}

impl From<AllocError> for PartFault {
    ghost use Rattle.std.specs.Prelude.{◌≡◌};
    ghost use Rattle.part_files.specs.declared.part_reader.PartFault.TheVariants as fault;

    ghost from_gives = { λ _ f. f ≡ fault.Memory };

    fn from(_: AllocError) -> PartFault {
        PartFault::Memory
    }
}
