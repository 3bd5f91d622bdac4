//! The names of statements as numbers.

ghost use Rattle.std.specs.Prelude.{◌≡◌, ◌≢◌, ◌<◌, ◌≤◌, ◌+◌, [], ◌∷◌, ◌++◌, length, map, filter};
ghost use Rattle.std.specs.Prelude.{false, not, AllPairs, IfOk, IfErr, option_map, if◌then◌else◌};
ghost use Rattle.std.specs.List.{All, list_all};
ghost use Rattle.bench_net.specs.Circuit.{max_signals};
ghost use Rattle.bench_net.specs.Stored.{name_at};
ghost use Rattle.bench_net.specs.reader.Entries.{IsNextFor, IsNumberedLine, AreNumberedLines};
ghost use Rattle.std.specs.Option.{option_to_list};
ghost use Rattle.bench_net.specs.Statement.{defined, defines, read};
ghost use Rattle.bench_net.specs.reader.Parsed.{stands_for, names_of, FailsBy};
ghost use Rattle.bench_net.specs.reader.Entries.{names_in, is_in, MayBeOf, AreNamesFrom};

use crate::line::NumberedLine;
use crate::statement::Stated;
use crate::{BenchFault, GateLine};
use indexmap::IndexSet;
use smallvec::SmallVec;
use std::alloc::{AllocError, Global};

/// A statement with the number of its line in the file, from 1.
#[derive(Drop)]
pub struct StatedLine<'a> {
    pub number: u64,
    pub statement: Stated<'a>,
}

/// The names in the order of their definitions; the number of a name is its place.
pub type Names<'a> = IndexSet<&'a str>;

/// Returns the name that a statement defines.
pub fn defined<'a>(statement: &Stated<'a>) -> Option<&'a str>
    ensures { defined (stands_for statement.now) ≡ option_to_list (option_map (λ n. n.now) result) }
{
    match statement {
        Stated::Input(name) | Stated::Gate(name, _, _) | Stated::Dff(name, _) => Some(*name),
        Stated::Output(_) => None,
    }
}

/// Adds a name after the others, and returns whether it is new.
fn add_name<'a>(names: &mut Names<'a>, name: &'a str) -> Result<bool, BenchFault>
    ensures added { IfOk result (λ added. added ≡ not (is_in (names_of names.old.keys) name.now)) }
    ensures names { IfOk result (λ added. names_of names.new.keys
        ≡ names_of names.old.keys ++ (if added then name.now ∷ [] else [])) }
    ensures refused { IfErr result (λ fault. fault ≡ BenchFault.Memory) }
{
    let (_, added) = names.insert_full(name)?;
    Ok(added)
}

/// Adds the names that lines define, in the order of the lines. It fails at a name that is there.
pub fn add_names<'a>(names: &mut Names<'a>, stated: &[StatedLine<'a>]) -> Result<(), BenchFault>
    requires { AllPairs (λ m n. m ≢ n) (names_of names.old.keys) }
    ensures names { IfOk result (λ _. names_of names.new.keys
        ≡ names_of names.old.keys ++ names_in stated.now) }
    ensures once { IfOk result (λ _. AllPairs (λ m n. m ≢ n) (names_of names.new.keys)) }
    ensures refused { names_of names.old.keys ≡ [] → IfErr result (MayBeOf stated.now) }
{
    for line in stated {
        let Some(name) = defined(&line.statement) else {
            continue;
        };
        if !add_name(names, name)? {
            return Err(BenchFault::Redefined(line.number));
        }
    }
    Ok(())
}

/// Numbers the defined names in the order of their lines.
pub(crate) fn number_names<'a>(
    alloc: Global,
    stated: &[StatedLine<'a>],
) -> Result<Names<'a>, BenchFault>
    ensures numbered { IfOk result (λ names. names_of names.keys ≡ names_in stated.now) }
    ensures once { IfOk result (λ names. AllPairs (λ m n. m ≢ n) (names_in stated.now)) }
    ensures refused { IfErr result (MayBeOf stated.now) }
{
    let mut names = IndexSet::with_capacity(alloc, stated.len())?;
    add_names(&mut names, stated)?;
    Ok(names)
}

/// Returns the number of a defined name, or else this error.
fn number_of(names: &Names, name: &str, refusal: BenchFault) -> Result<u32, BenchFault>
    requires { length names.now.keys ≤ max_signals }
    ensures within { IfOk result (λ number. number < length (names_of names.now.keys)) }
    ensures named { IfOk result (λ number. name_at (names_of names.now.keys) number ≡ name.now) }
    ensures refused { IfErr result (λ fault. fault ≡ refusal) }
    ensures missing { IfErr result (λ fault. is_in (names_of names.now.keys) name.now ≡ false) }
{
    match names.get_index_of(name) {
        Some(index) => Ok(index as u32),
        None => Err(refusal),
    }
}

/// Returns the numbers of the names of a gate's arguments. It fails if one is not defined.
fn number_pins(
    alloc: Global,
    arguments: &[&str],
    names: &Names,
    refusal: BenchFault,
) -> Result<SmallVec<u32, 4>, BenchFault>
    requires { length names.now.keys ≤ max_signals }
    ensures within { IfOk result (λ pins.
        All (λ number. number < length (names_of names.now.keys)) pins.items) }
    ensures named { IfOk result (λ pins.
        map (name_at (names_of names.now.keys)) pins.items ≡ names_of arguments.now) }
    ensures refused { IfErr result (FailsBy refusal
        (list_all (is_in (names_of names.now.keys)) (names_of arguments.now) ≡ false)) }
{
    let mut pins = SmallVec::new(alloc);
    for argument in arguments {
        let number = number_of(names, *argument, refusal)?;
        pins.push(number)?;
    }
    Ok(pins)
}

/// Returns the statement over numbers, and fails if a name is not defined; `next` is the number of
/// the name that it defines.
fn number_line(
    alloc: Global,
    statement: &Stated,
    next: u32,
    names: &Names,
    refusal: BenchFault,
) -> Result<NumberedLine, BenchFault>
    requires few { length names.now.keys ≤ max_signals }
    requires own { IsNextFor (names_of names.now.keys) next (stands_for statement.now) }
    ensures numbered { IfOk result
        (IsNumberedLine (names_of names.now.keys) next (stands_for statement.now)) }
    ensures refused { IfErr result (FailsBy refusal
        (list_all (is_in (names_of names.now.keys)) (read (stands_for statement.now)) ≡ false)) }
{
    match statement {
        Stated::Input(_) => Ok(NumberedLine::Input(next)),
        Stated::Output(name) => {
            let number = number_of(names, *name, refusal)?;
            Ok(NumberedLine::Output(number))
        }
        Stated::Gate(_, kind, arguments) => {
            let kind = *kind;
            let pins = number_pins(alloc, arguments.as_slice(), names, refusal)?;
            Ok(NumberedLine::Gate(next, GateLine { kind, pins }))
        }
        Stated::Dff(_, data) => {
            let number = number_of(names, *data, refusal)?;
            Ok(NumberedLine::Dff(next, number))
        }
    }
}

/// Returns the number of names that a statement defines.
pub(crate) fn defined_count(statement: &Stated) -> u32
    ensures { result ≡ length (defined (stands_for statement.now)) }
{
    u32::from(defined(statement).is_some())
}

/// Returns the statements over numbers. `first` is the number of the first name that one of them
/// defines.
pub fn number_lines(
    alloc: Global,
    stated: &[StatedLine],
    first: u32,
    names: &Names,
) -> Result<Vec<NumberedLine>, BenchFault>
    requires few { length names.now.keys ≤ max_signals }
    requires own { AreNamesFrom (names_of names.now.keys) first (names_in stated.now) }
    ensures numbered { IfOk result (λ lines.
        AreNumberedLines (names_of names.now.keys) stated.now lines.items) }
    ensures refused { names_of names.now.keys ≡ names_in stated.now
        → AllPairs (λ m n. m ≢ n) (names_in stated.now) → IfErr result (MayBeOf stated.now) }
{
    let mut lines = Vec::with_capacity(alloc, stated.len())?;
    let mut next = first;
    for line in stated {
        let refusal = BenchFault::Undefined(line.number);
        let numbered = number_line(alloc, &line.statement, next, names, refusal)?;
        lines.push(numbered)?;
        next += defined_count(&line.statement);
    }
    Ok(lines)
}

/// Returns whether a statement defines a name: every statement but an OUTPUT does.
fn defines(statement: &Stated) -> bool
    ensures { result ≡ defines (stands_for statement.now) }
{
    !matches!(statement, Stated::Output(_))
}

/// Returns the numbers of the lines that define the names.
pub fn line_numbers(alloc: Global, stated: &[StatedLine]) -> Result<Vec<u64>, AllocError>
    ensures { IfOk result (λ numbers. numbers.items ≡ map (λ line. line.number)
        (filter (λ line. defines (stands_for line.statement)) stated.now)) }
{
    stated
        .iter()
        .filter(|line| defines(&line.statement))
        .map(|line| line.number)
        .collect(alloc)
}
