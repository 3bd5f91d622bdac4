//! The result of a check as a JSON object (RFC 8259).

ghost use Rattle.std.specs.Prelude.{◌≡◌, ◌++◌, IfOk, OnOk, Some, None, map, string_bytes};
ghost use Rattle.std.specs.List.{flat_map};
ghost use Rattle.input_check.specs.Objects.{IsObjectOf, circuit_text, gates_text, head_text};
ghost use Rattle.input_check.specs.Objects.{kinds_text, limit_text, ports_text, run_text};
ghost use Rattle.input_check.specs.Objects.{signals_text, sizes_object, warning_text};
ghost use Rattle.input_check.specs.Objects.{warnings_text};

use crate::answer::Answer;
use crate::errors::{error_rows, errors_object, excess_row};
use crate::json_text::{add_members, add_pieces, missing, numbered, quoted, without_first};
use crate::sizes::{Sizes, megabytes, model_word};
use crate::summary::{Counts, TestCounts};
use fault_model::Model;
use itoa::Buffer;
use std::alloc::{AllocError, Global};

/// What stands before each member.
const NEXT_LINE: &str = ",\n";

/// Returns a result as a JSON object, one member on each line. The files are at these paths.
///
/// # Examples
///
/// If line 5 of `a.bench` is `e = NOT(e)`, the only error, the object is
///
/// ```text
/// {
/// "errors":[
/// {"file":"a.bench","line":5,"column":1,"message":"cycle","hint":"e -> e"}],
/// "more_errors":0
/// }
/// ```
pub fn answer_object(
    alloc: Global,
    answer: &Answer<'_>,
    bench: &str,
    tests: &str,
) -> Result<Vec<u8>, AllocError>
    ensures { IfOk result (λ text. IsObjectOf bench.now tests.now answer.now text.items) }
{
    match answer {
        Answer::Accepted(sizes) => sizes_object(alloc, sizes),
        Answer::BenchRefused(findings) => {
            let rows = error_rows(alloc, bench, findings)?;
            errors_object(alloc, &rows, findings.more)
        }
        Answer::TestsRefused(findings) => {
            let rows = error_rows(alloc, tests, findings)?;
            errors_object(alloc, &rows, findings.more)
        }
        Answer::TooManyPieces(excess) => {
            let rows = [excess_row(alloc, tests, excess)?];
            errors_object(alloc, &rows, 0)
        }
    }
}

/// Returns the object of accepted files.
fn sizes_object(alloc: Global, sizes: &Sizes) -> Result<Vec<u8>, AllocError>
    ensures { IfOk result (λ text. text.items ≡ sizes_object sizes.now) }
{
    let mut text = Vec::new(alloc);
    add_head(&mut text, sizes.counts.model)?;
    add_circuit(&mut text, &sizes.counts)?;
    add_limit(&mut text, sizes.tests_a_run)?;
    add_run(&mut text, &sizes.tests)?;
    add_warnings(&mut text, alloc, &sizes.warnings)?;
    add_pieces(&mut text, &["\n}\n"])?;
    Ok(text)
}

/// Adds the members before the sizes.
fn add_head(text: &mut Vec<u8>, model: Model) -> Result<(), AllocError>
    ensures { OnOk result (text.new.items ≡ text.old.items ++ head_text model) }
{
    let pieces = [
        "{\n\"errors\":[],\n\"more_errors\":0,\n\"model\":\"",
        model_word(model),
        "\"",
    ];
    add_pieces(text, &pieces)
}

/// Adds the sizes of a circuit.
fn add_circuit(text: &mut Vec<u8>, counts: &Counts) -> Result<(), AllocError>
    ensures { OnOk result (text.new.items ≡ text.old.items ++ circuit_text counts.now) }
{
    add_ports(text, counts)?;
    add_gates(text, counts)?;
    add_signals(text, counts)
}

/// Adds the numbers of inputs, outputs and flip-flops.
fn add_ports(text: &mut Vec<u8>, counts: &Counts) -> Result<(), AllocError>
    ensures { OnOk result (text.new.items ≡ text.old.items ++ ports_text counts.now) }
{
    let members = [
        numbered("inputs", counts.inputs as u64),
        numbered("outputs", counts.outputs as u64),
        numbered("flip_flops", counts.cells as u64),
    ];
    add_members(text, NEXT_LINE, &members)
}

/// Adds the number of gates, and the number of gates of each kind.
fn add_gates(text: &mut Vec<u8>, counts: &Counts) -> Result<(), AllocError>
    ensures { OnOk result (text.new.items ≡ text.old.items ++ gates_text counts.now) }
{
    let mut all = Buffer::new();
    let pieces = [",\n\"gates\":{\"total\":", all.format(counts.all_gates())];
    add_pieces(text, &pieces)?;
    add_kinds(text, &counts.gates)?;
    add_pieces(text, &["}"])
}

/// Adds the numbers of gates of each kind.
fn add_kinds(text: &mut Vec<u8>, gates: &[u32; 8]) -> Result<(), AllocError>
    ensures { OnOk result (text.new.items ≡ text.old.items ++ kinds_text gates.now) }
{
    let [and, nand, or, nor, xor, xnor, not, buff] = *gates;
    let kinds = [
        numbered("AND", u64::from(and)),
        numbered("NAND", u64::from(nand)),
        numbered("OR", u64::from(or)),
        numbered("NOR", u64::from(nor)),
        numbered("XOR", u64::from(xor)),
        numbered("XNOR", u64::from(xnor)),
        numbered("NOT", u64::from(not)),
        numbered("BUFF", u64::from(buff)),
    ];
    add_members(text, ",", &kinds)
}

/// Adds the other sizes of a circuit.
fn add_signals(text: &mut Vec<u8>, counts: &Counts) -> Result<(), AllocError>
    ensures { OnOk result (text.new.items ≡ text.old.items ++ signals_text counts.now) }
{
    let members = [
        numbered("signals", u64::from(counts.signals)),
        numbered("sinks", counts.sinks),
        numbered("depth", u64::from(counts.depth)),
        numbered("faults", u64::from(counts.faults)),
        numbered("classes", u64::from(counts.classes)),
    ];
    add_members(text, NEXT_LINE, &members)
}

/// Adds the most tests of a run.
fn add_limit(text: &mut Vec<u8>, tests: u32) -> Result<(), AllocError>
    ensures { OnOk result (text.new.items ≡ text.old.items ++ limit_text tests) }
{
    let members = [numbered("tests_a_run", u64::from(tests))];
    add_members(text, NEXT_LINE, &members)
}

/// Adds the size of a run of tests. Each member is `null` if there is no test file.
fn add_run(text: &mut Vec<u8>, tests: &Option<TestCounts>) -> Result<(), AllocError>
    ensures { OnOk result (text.new.items ≡ text.old.items ++ run_text tests.now) }
{
    match tests {
        Some(taken) => add_taken(text, taken),
        None => add_no_run(text),
    }
}

/// Adds the members of a run of tests.
fn add_taken(text: &mut Vec<u8>, taken: &TestCounts) -> Result<(), AllocError>
    ensures { OnOk result (text.new.items ≡ text.old.items ++ run_text (Some taken.now)) }
{
    let members = [
        numbered("tests", u64::from(taken.tests)),
        numbered("blocks", u64::from(taken.blocks)),
        numbered("pieces", taken.pieces),
        numbered("memory_mb", megabytes(taken.bytes)),
    ];
    add_members(text, NEXT_LINE, &members)
}

/// Adds the members of a run without a number.
fn add_no_run(text: &mut Vec<u8>) -> Result<(), AllocError>
    ensures { OnOk result (text.new.items ≡ text.old.items ++ run_text None) }
{
    let members = [
        missing("tests"),
        missing("blocks"),
        missing("pieces"),
        missing("memory_mb"),
    ];
    add_members(text, NEXT_LINE, &members)
}

/// Adds the array of warnings.
fn add_warnings(text: &mut Vec<u8>, alloc: Global, warnings: &[String]) -> Result<(), AllocError>
    ensures { OnOk result (text.new.items
        ≡ text.old.items ++ warnings_text (map string_bytes warnings.now)) }
{
    let elements = warning_elements(alloc, warnings)?;
    add_pieces(text, &[",\n\"warnings\":["])?;
    text.extend_from_slice(without_first(&elements))?;
    add_pieces(text, &["]"])
}

/// Returns warnings as JSON strings, each after a comma and a line feed.
fn warning_elements(alloc: Global, warnings: &[String]) -> Result<Vec<u8>, AllocError>
    ensures { IfOk result (λ text. text.items
        ≡ flat_map warning_text (map string_bytes warnings.now)) }
{
    let mut text = Vec::new(alloc);
    for warning in warnings {
        let string = quoted(alloc, warning.as_str())?;
        add_pieces(&mut text, &[",\n", string.as_str()])?;
    }
    Ok(text)
}
