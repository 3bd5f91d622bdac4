//! The numbers of gates, pins and sinks of a circuit.

ghost use Rattle.std.specs.Prelude.{◌≡◌, ◌<◌, sum};
ghost use Rattle.bench_net.specs.Circuit.{sink_count};
ghost use Rattle.input_check.specs.Counts.{AreGateCountsOf, kind_place, pin_count};

use crate::summary::Counts;
use bench_net::{Circuit, Kind};

/// The names of the kinds of gates, in the order of [`Counts::gates`].
pub(crate) static KIND_NAMES: [&str; 8] = [
    "AND", "NAND", "OR", "NOR", "XOR", "XNOR", "NOT", "BUFF",
];

/// The numbers of gates of each kind, of their pins, and of all sinks.
#[derive(Clone, Copy)]
pub(crate) struct GateCounts {
    pub(crate) gates: [u32; 8],
    pub(crate) pins: u64,
    pub(crate) sinks: u64,
}

/// Returns the place of a kind among [`KIND_NAMES`].
fn place_of(kind: Kind) -> usize
    ensures place { result ≡ kind_place kind }
    ensures few { result < 8 }
{
    match kind {
        Kind::And => 0,
        Kind::Nand => 1,
        Kind::Or => 2,
        Kind::Nor => 3,
        Kind::Xor => 4,
        Kind::Xnor => 5,
        Kind::Not => 6,
        Kind::Buff => 7,
    }
}

/// Counts the gates of a circuit, their pins, and all sinks.
pub(crate) fn count_gates(circuit: &Circuit) -> GateCounts
    ensures gates { AreGateCountsOf circuit.now result.gates }
    ensures pins { result.pins ≡ pin_count circuit.now }
    ensures sinks { result.sinks ≡ sink_count circuit.now }
{
    let mut gates: [u32; 8] = [0; 8];
    let mut pins: u64 = 0;
    for signal in 0..circuit.signals() {
        let Some(gate) = circuit.gate_of(signal) else {
            continue;
        };
        pins += gate.pins.len() as u64;
        gates[place_of(gate.kind)] += 1;
    }
    let cells = circuit.scan_cells().len() as u64;
    let outputs = circuit.outputs().len() as u64;
    GateCounts {
        gates,
        pins,
        sinks: pins + cells + outputs,
    }
}

impl Counts {
    /// Returns the number of all gates.
    pub(crate) fn all_gates(&self) -> u64
        ensures { result ≡ sum self.now.gates }
    {
        let [and, nand, or, nor, xor, xnor, not, buff] = self.gates;
        let inverting = u64::from(nand) + u64::from(nor) + u64::from(xnor) + u64::from(not);
        u64::from(and) + u64::from(or) + u64::from(xor) + u64::from(buff) + inverting
    }
}
