//! The gates that read each signal.

ghost use Rattle.std.specs.Prelude.{◌+◌, ◌<◌, IfOk, OnOk, length, map};
ghost use Rattle.bench_net.specs.Scan.{names};
ghost use Rattle.blocking_pins.specs.Effects.{HaveReaders, HaveReadersBelow};

use flat_circuit::flat::FlatCircuit;
use std::alloc::{AllocError, Global};

/// Returns for each signal the gates that read it, by places. Gates that reach no observer are
/// among them.
pub(crate) fn readers_of(alloc: Global, circuit: &FlatCircuit) -> Result<Vec<Vec<u32>>, AllocError>
    ensures { IfOk result (λ readers. HaveReaders circuit.now.arranged
        (map (λ row. row.items) readers.items)) }
{
    let mut readers = no_readers(alloc, circuit)?;
    for place in 0..circuit.signals() {
        add_gate(circuit, place, &mut readers)?;
    }
    Ok(readers)
}

/// Returns an empty list for each signal.
fn no_readers(alloc: Global, circuit: &FlatCircuit) -> Result<Vec<Vec<u32>>, AllocError>
    ensures { IfOk result (λ readers. HaveReadersBelow circuit.now.arranged 0
        (map (λ row. row.items) readers.items)) }
{
    let mut readers = Vec::with_capacity(alloc, circuit.signals() as usize)?;
    for _place in 0..circuit.signals() {
        readers.push(Vec::new(alloc))?;
    }
    Ok(readers)
}

/// Adds a gate to the readers of the signals that its pins read.
fn add_gate(circuit: &FlatCircuit, place: u32, readers: &mut [Vec<u32>]) -> Result<(), AllocError>
    requires place { place < length (names circuit.now.arranged) }
    requires readers { HaveReadersBelow circuit.now.arranged place
        (map (λ row. row.items) readers.old) }
    ensures { OnOk result (HaveReadersBelow circuit.now.arranged (place + 1)
        (map (λ row. row.items) readers.new)) }
{
    let _signals = circuit.signals();
    if let Some(gate) = circuit.gate_of(place) {
        for read in gate.pins {
            readers[*read as usize].push(place)?;
        }
    }
    Ok(())
}
