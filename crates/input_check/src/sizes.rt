//! The sizes of accepted files and their warnings, as a table.

ghost use Rattle.std.specs.Prelude.{◌≡◌, ◌+◌, ◌/◌};
ghost use Rattle.input_check.specs.Objects.{megabytes, model_word};

use crate::gates::KIND_NAMES;
use crate::summary::{Counts, TestCounts, USUAL_WORKERS};
use fault_model::Model;
use patterns::MAX_TESTS;
use std::fmt::{self, Display, Formatter};

/// The sizes of accepted files, the size of a run, and warnings.
#[derive(Drop)]
pub struct Sizes {
    /// The sizes of the circuit.
    pub counts: Counts,
    /// The most tests of a run without `--parts`.
    pub tests_a_run: u32,
    /// The size of a run of the tests, if there is a test file.
    pub tests: Option<TestCounts>,
    /// The words of each warning.
    pub warnings: Vec<String>,
}

impl Display for Sizes {
    fn fmt<W: fmt::Write>(&self, f: &mut Formatter<W>) -> fmt::Result {
        fmt_counts(&self.counts, f)?;
        fmt_limit(self.tests_a_run, f)?;
        if let Some(tests) = &self.tests {
            fmt_tests(tests, f)?;
        }
        for warning in &self.warnings {
            writeln!(f, "warning: {warning}")?;
        }
        Ok(())
    }
}

/// Returns the least number of megabytes that is above a number of bytes.
pub(crate) fn megabytes(bytes: u64) -> u64
    ensures { result ≡ megabytes bytes }
{
    bytes / 1_000_000 + 1
}

/// Returns the name of a model on the command line.
pub(crate) fn model_word(model: Model) -> &'static str
    ensures { result.now ≡ model_word model }
{
    match model {
        Model::StuckAt => "stuck",
        Model::Transition => "transition",
        Model::TransitionPairs => "transition-pairs",
    }
}

/// Writes a row of a table.
fn fmt_row<W: fmt::Write>(name: &str, count: u64, f: &mut Formatter<W>) -> fmt::Result {
    writeln!(f, "{name:<12}{count:>10}")
}

/// Writes a row for each kind of gate that there is.
fn fmt_gates<W: fmt::Write>(gates: &[u32], f: &mut Formatter<W>) -> fmt::Result {
    for (count, name) in gates.iter().zip(&KIND_NAMES) {
        if *count > 0 {
            writeln!(f, "  {name:<10}{count:>10}")?;
        }
    }
    Ok(())
}

/// Writes the rows of a circuit.
fn fmt_counts<W: fmt::Write>(counts: &Counts, f: &mut Formatter<W>) -> fmt::Result {
    fmt_row("inputs", counts.inputs as u64, f)?;
    fmt_row("outputs", counts.outputs as u64, f)?;
    fmt_row("flip-flops", counts.cells as u64, f)?;
    fmt_row("gates", counts.all_gates(), f)?;
    fmt_gates(&counts.gates, f)?;
    fmt_row("signals", u64::from(counts.signals), f)?;
    fmt_row("sinks", counts.sinks, f)?;
    fmt_row("depth", u64::from(counts.depth), f)?;
    let model = model_word(counts.model);
    let faults = counts.faults;
    writeln!(f, "faults      {faults:>10} {model}")?;
    fmt_row("classes", u64::from(counts.classes), f)
}

/// Writes the most tests of a run without `--parts`.
fn fmt_limit<W: fmt::Write>(tests: u32, f: &mut Formatter<W>) -> fmt::Result {
    writeln!(f, "tests a run {tests:>10} at most")?;
    if tests < MAX_TESTS {
        writeln!(f, "  --parts   {MAX_TESTS:>10} at most")?;
    }
    Ok(())
}

/// Writes the rows of a run of tests.
fn fmt_tests<W: fmt::Write>(taken: &TestCounts, f: &mut Formatter<W>) -> fmt::Result {
    fmt_row("tests", u64::from(taken.tests), f)?;
    fmt_row("blocks", u64::from(taken.blocks), f)?;
    fmt_row("pieces", taken.pieces, f)?;
    let some = megabytes(taken.bytes);
    writeln!(
        f,
        "memory      {some:>10} MB, some, for {USUAL_WORKERS} workers"
    )
}
