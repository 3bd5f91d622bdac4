//! The names of columns, compared with those of a circuit's sources.

ghost use Rattle.std.specs.Prelude.{◌≡◌, ◌+◌, ◌^◌, ◌<◌, ◌↔◌, IfErr, IfNone, IfOk, IfSome, IsTrue};
ghost use Rattle.std.specs.Prelude.{OnOk, map, option_map, slice_get};
ghost use Rattle.bench_net.specs.Circuit.{IsCircuit};
ghost use Rattle.bench_net.specs.Scan.{sources};
ghost use Rattle.test_columns.specs.Columns.{IsFirstDifference, IsNamesFault};

use crate::{ColumnFault, Mismatch};
use bench_net::Circuit;
use std::alloc::{AllocError, Global};

/// Checks that names are those of a circuit's sources. A line of this number gives them.
pub(crate) fn compare_names(
    alloc: Global,
    circuit: &Circuit,
    line: u64,
    names: &[&[u8]],
) -> Result<(), ColumnFault>
    requires { IsCircuit circuit.now }
    ensures same { OnOk result (map (λ name. name.now) names.now ≡ sources circuit.now) }
    ensures refused { IfErr result (IsNamesFault circuit.now
        (record { line = line; names = map (λ name. name.now) names.now })) }
{
    let Some(place) = first_difference(circuit, names) else {
        return Ok(());
    };
    Err(ColumnFault::Mismatched(Mismatch {
        line,
        column: place as u64 + 1,
        found: owned(alloc, name_at(names, place))?,
        expected: owned(alloc, source_at(circuit, place))?,
    }))
}

/// Returns the first place at which names differ from those of the sources; one may end there.
fn first_difference(circuit: &Circuit, names: &[&[u8]]) -> Option<usize>
    requires { IsCircuit circuit.now }
    ensures some { IfSome result
        (IsFirstDifference (map (λ name. name.now) names.now) (sources circuit.now)) }
    ensures few { IfSome result (λ place. place + 1 < 2 ^ 64) }
    ensures none { IfNone result (map (λ name. name.now) names.now ≡ sources circuit.now) }
{
    let most = names.len().max(circuit.sources() as usize);
    for place in 0..most {
        if !are_same(name_at(names, place), source_at(circuit, place)) {
            return Some(place);
        }
    }
    None
}

/// Returns the name at a place of a list.
fn name_at<'a>(names: &[&'a [u8]], place: usize) -> Option<&'a [u8]>
    ensures { option_map (λ name. name.now) result
        ≡ slice_get (map (λ name. name.now) names.now) place }
{
    names.get(place).copied()
}

/// Returns the name of the source at a place in a test.
pub fn source_at(circuit: &Circuit, place: usize) -> Option<&[u8]>
    requires { IsCircuit circuit.now }
    ensures { option_map (λ name. name.now) result ≡ slice_get (sources circuit.now) place }
{
    let inputs = circuit.inputs();
    if place < inputs.len() {
        return Some(circuit.name_of(inputs[place]).as_bytes());
    }
    let cells = circuit.scan_cells();
    if place - inputs.len() < cells.len() {
        return Some(circuit.name_of(cells[place - inputs.len()].q).as_bytes());
    }
    None
}

/// Returns whether two names are the same, or there is none of either.
fn are_same(found: Option<&[u8]>, expected: Option<&[u8]>) -> bool
    ensures { IsTrue result
        ↔ (option_map (λ name. name.now) found.entry
        ≡ option_map (λ name. name.now) expected.entry) }
{
    match (found, expected) {
        (Some(found), Some(expected)) => found == expected,
        (None, None) => true,
        _ => false,
    }
}

/// Returns a copy of a name.
fn owned(alloc: Global, name: Option<&[u8]>) -> Result<Option<Vec<u8>>, AllocError>
    ensures { IfOk result (λ copied. option_map (λ name. name.items) copied
        ≡ option_map (λ name. name.now) name.entry) }
{
    match name {
        Some(name) => Ok(Some(name.to_vec(alloc)?)),
        None => Ok(None),
    }
}
