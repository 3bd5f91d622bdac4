//! The names of the columns of a test file, if its first line is a comment that gives them.
//!
//! For example, `# columns: a b q` names the columns of tests for a circuit with the inputs `a` and
//! `b` and the flip-flop `q`. [`check_columns`] compares the names with those of a circuit, so that
//! tests of another order don't go unnoticed. [`columns_line`] writes such a line, and
//! [`test_file`] a file that begins with it. The readers of `patterns` see only a comment.
#![tactic(auto)]

ghost use Rattle.std.specs.Prelude.{◌≡◌, ◌≢◌, IfErr, OnOk};
ghost use Rattle.test_columns.specs.Columns.{AreInOrder, IsColumnFault};
ghost use Rattle.test_columns.specs.declared.ColumnFault.TheVariants as fault;

mod file;
mod front;
mod line;
mod order;
mod written;

use bench_net::{BenchFault, one_answer, read_bench};
pub use file::test_file;
pub use front::read_front;
use line::{find_columns, first_line};
use order::compare_names;
pub use order::source_at;
use std::alloc::{AllocError, Global};
use std::fmt::{self, Display, Formatter};
pub use written::columns_line;

/// The first column that has another name than the circuit's source at its place.
#[derive(Debug, Drop)]
pub struct Mismatch {
    /// The line that names the columns, from 1.
    pub line: u64,
    /// The number of the column, from 1.
    pub column: u64,
    /// The name that the line gives the column; `None` if it gives fewer names.
    pub found: Option<Vec<u8>>,
    /// The name of the source; `None` if the circuit has fewer sources.
    pub expected: Option<Vec<u8>>,
}

/// An error of the names of columns.
#[derive(Debug, Drop)]
pub enum ColumnFault {
    /// The names aren't those of the circuit's sources.
    Mismatched(Mismatch),
    /// There is no memory for the check.
    Memory,
}

impl From<AllocError> for ColumnFault {
    ghost from_gives = { λ _ f. f ≡ fault.Memory };

    fn from(_error: AllocError) -> ColumnFault {
        ColumnFault::Memory
    }
}

/// Checks that a test file that names its columns names the sources of a circuit: first the inputs,
/// and then the flip-flops, in the order of their lines. It passes a test file without names, and
/// any file if the bench file has an error: the readers report that.
///
/// # Errors
///
/// [`ColumnFault::Mismatched`] with the first column that has another name, and
/// [`ColumnFault::Memory`] if memory ran out.
pub fn check_columns(alloc: Global, bench: &[u8], tests: &[u8]) -> Result<(), ColumnFault>
    ensures passed { OnOk result (AreInOrder bench.now tests.now) }
    ensures refused { IfErr result (IsColumnFault bench.now tests.now) }
{
    // Laws: the bench file has this circuit and no other, or none.
    one_answer();
    let Some(line) = first_line(tests) else {
        return Ok(());
    };
    let Some(names) = find_columns(alloc, line.bytes)? else {
        return Ok(());
    };
    match read_bench(alloc, bench) {
        Ok(circuit) => compare_names(alloc, &circuit, line.number, &names),
        Err(fault) => without_circuit(fault),
    }
}

/// Returns the result for a bench file with an error, which the readers report.
fn without_circuit(fault: BenchFault) -> Result<(), ColumnFault>
    ensures passed { OnOk result (fault ≢ BenchFault.Memory) }
    ensures refused { IfErr result (λ f. f ≡ ColumnFault.Memory) }
{
    match fault {
        BenchFault::Memory => Err(ColumnFault::Memory),
        _ => Ok(()),
    }
}

impl Display for Mismatch {
    /// Writes the line, the column and both names.
    fn fmt<W: fmt::Write>(&self, f: &mut Formatter<W>) -> fmt::Result {
        write!(f, "line {}: column {}: found ", self.line, self.column)?;
        write_name(&self.found, f)?;
        f.write_str(", expected ")?;
        write_name(&self.expected, f)
    }
}

/// Writes a name, with `?` for each byte that is no visible ASCII character.
fn write_name<W: fmt::Write>(name: &Option<Vec<u8>>, f: &mut Formatter<W>) -> fmt::Result {
    let Some(name) = name else {
        return f.write_str("no name");
    };
    for byte in name {
        f.write_char(match *byte {
            0x21..=0x7e => char::from(*byte),
            _ => '?',
        })?;
    }
    Ok(())
}
