//! The result of checking a bench file and a test file together.

ghost use Rattle.std.specs.Prelude.{IfOk, option_map};
ghost use Rattle.bench_net.specs.Circuit.{IsCircuit};
ghost use Rattle.job_loading.specs.Jobs.{AreTestsFor};
ghost use Rattle.input_check.specs.Checks.{IsAnswerTo, IsCircuitAnswer, IsTestsAnswer};
ghost use Rattle.input_check.specs.Checks.{IsTextAnswer};

use crate::bench::{BenchCheck, check_bench};
use crate::finding::Findings;
use crate::sizes::Sizes;
use crate::summary::{Excess, count_circuit, count_tests, excess_of};
use crate::tests::{TestCheck, check_tests};
use crate::warning::warnings_of;
use bench_net::Circuit;
use fault_model::Model;
use patterns::Tests;
use std::alloc::{AllocError, Global};

/// The result of checking the files of a run.
#[derive(Drop)]
pub enum Answer<'a> {
    /// Both are accepted, with these sizes and warnings.
    Accepted(Sizes),
    /// The bench file has errors.
    BenchRefused(Findings<'a>),
    /// The test file has errors.
    TestsRefused(Findings<'a>),
    /// Classes times blocks are more than `patterns::MAX_PIECES`.
    TooManyPieces(Excess),
}

/// Checks a bench file, and tests for it if there are any. Returns their sizes and the size of a
/// run under a fault model, or all errors of the first file that has one.
pub fn check_texts<'a>(
    alloc: Global,
    model: Model,
    bench: &'a [u8],
    tests: Option<&'a [u8]>,
) -> Result<Answer<'a>, AllocError>
    ensures { IfOk result
        (IsAnswerTo model bench.now (option_map (λ text. text.now) tests.entry)) }
{
    match check_bench(alloc, bench)? {
        BenchCheck::Accepted(circuit) => answer_for(alloc, model, &circuit, tests),
        BenchCheck::Refused(findings) => Ok(Answer::BenchRefused(findings)),
    }
}

/// Returns the result for a circuit.
fn answer_for<'a>(
    alloc: Global,
    model: Model,
    circuit: &Circuit,
    tests: Option<&'a [u8]>,
) -> Result<Answer<'a>, AllocError>
    requires { IsCircuit circuit.now }
    ensures { IfOk result
        (IsCircuitAnswer model circuit.now (option_map (λ text. text.now) tests.entry)) }
{
    match tests {
        Some(text) => answer_for_text(alloc, model, circuit, text),
        None => {
            let counts = count_circuit(alloc, model, circuit)?;
            Ok(Answer::Accepted(Sizes {
                counts,
                tests_a_run: counts.tests_a_run(),
                tests: None,
                warnings: warnings_of(alloc, model, circuit, None)?,
            }))
        }
    }
}

/// Returns the result for a circuit and the bytes of a test file.
fn answer_for_text<'a>(
    alloc: Global,
    model: Model,
    circuit: &Circuit,
    text: &'a [u8],
) -> Result<Answer<'a>, AllocError>
    requires { IsCircuit circuit.now }
    ensures { IfOk result (IsTextAnswer model circuit.now text.now) }
{
    match check_tests(alloc, text, circuit)? {
        TestCheck::Accepted(tests) => answer_for_tests(alloc, model, circuit, &tests),
        TestCheck::Refused(findings) => Ok(Answer::TestsRefused(findings)),
    }
}

/// Returns the result for a circuit and tests for it.
fn answer_for_tests<'a>(
    alloc: Global,
    model: Model,
    circuit: &Circuit,
    tests: &Tests,
) -> Result<Answer<'a>, AllocError>
    requires { AreTestsFor circuit.now tests.now }
    ensures { IfOk result (IsTestsAnswer model circuit.now tests.now) }
{
    let counts = count_circuit(alloc, model, circuit)?;
    let taken = count_tests(&counts, tests);
    match excess_of(&counts, &taken) {
        Some(excess) => Ok(Answer::TooManyPieces(excess)),
        None => {
            Ok(Answer::Accepted(Sizes {
                counts,
                tests_a_run: counts.tests_a_run(),
                tests: Some(taken),
                warnings: warnings_of(alloc, model, circuit, Some(tests))?,
            }))
        }
    }
}
