//! The pins of all gates in one list.

ghost use Rattle.std.specs.Prelude.{◌≡◌, ◌+◌, ◌<◌, ◌++◌, IfOk, List, OnOk, length};
ghost use Rattle.bench_net.specs.Scan.{names};
ghost use Rattle.blocking_pins.specs.Effects.{AreGatePins, ArePinsOf};

use bench_net::Circuit;
use flat_circuit::flat::FlatCircuit;
use std::alloc::{AllocError, Global};

/// A pin of a gate.
#[derive(Clone, Copy)]
pub(crate) struct GatePin {
    /// The number of the gate's signal.
    pub(crate) gate: u32,
    /// The number of the pin, from 0.
    pub(crate) pin: u32,
}

/// The pins of all gates, in the order of the signals, and of each gate in their order.
#[derive(Drop)]
pub(crate) struct GatePins {
    /// The pins.
    pub(crate) pins: Vec<GatePin>,
    /// Where the pins of each gate begin, by the gate's place.
    pub(crate) starts: Vec<u32>,
}

impl GatePins {
    /// Lists the pins of a circuit.
    pub(crate) fn of(alloc: Global, flat: &FlatCircuit) -> Result<GatePins, AllocError>
        ensures { IfOk result (λ made. AreGatePins flat.now.statements flat.now.arranged
            (length (names flat.now.statements)) made.pins.items made.starts.items) }
    {
        let signals = flat.signals();
        let mut starts = vec![in alloc; 0u32; signals as usize]?;
        let mut pins = Vec::with_capacity(alloc, 2 * signals as usize)?;
        for signal in 0..signals {
            starts[flat.place_of(signal) as usize] = place_of(pins.len())?;
            add_pins(flat.circuit(), signal, &mut pins)?;
        }
        Ok(GatePins { pins, starts })
    }
}

/// Returns a place in the list of pins in the type of the starts. It fails for no circuit, because
/// none has that many pins.
fn place_of(length: usize) -> Result<u32, AllocError>
    ensures { IfOk result (λ place. place ≡ length) }
{
    if length <= u32::MAX as usize {
        Ok(length as u32)
    } else {
        Err(AllocError)
    }
}

/// Adds the pins of the gate that drives a signal.
fn add_pins(circuit: &Circuit, signal: u32, pins: &mut Vec<GatePin>) -> Result<(), AllocError>
    requires { signal < length (names circuit.now) }
    ensures { OnOk result ((more : List GatePin) × ArePinsOf circuit.now signal more
        × (pins.new.items ≡ pins.old.items ++ more)) }
{
    let _signals = circuit.signals();
    if let Some(gate) = circuit.gate_of(signal) {
        for pin in 0..gate.pins.len() as u32 {
            pins.push(GatePin { gate: signal, pin })?;
        }
    }
    Ok(())
}
