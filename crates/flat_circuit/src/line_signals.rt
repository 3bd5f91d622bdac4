//! The signal that a line of the circuit carries.

ghost use Rattle.std.specs.Prelude.{◌≡◌, ◌<◌, Some, length};
ghost use Rattle.bench_net.specs.Statement.{Name};
ghost use Rattle.bench_net.specs.Scan.{names, signal, definition};
ghost use Rattle.bench_net.specs.Circuit.{IsCircuit};
ghost use Rattle.fault_model.specs.declared.Line.TheVariants.{Data, Out};
ghost use Rattle.fault_model.specs.Detection.{argument, name_on};

use crate::flat::FlatCircuit;
use bench_net::Circuit;
use fault_model::Line;

/// Returns the place of the signal that a line of the circuit carries: the stem's signal, or the
/// one that its branch leads from.
pub fn carried(circuit: &FlatCircuit, line: Line) -> u32
    requires circuit { IsCircuit circuit.now.arranged }
    requires named { (n : Name) × (name_on circuit.now.arranged line ≡ Some n) }
    ensures { (n : Name) → name_on circuit.now.arranged line ≡ Some n
        → result ≡ signal circuit.now.arranged n }
{
    let _signals = circuit.signals();
    match line {
        Line::Stem(signal) => signal,
        Line::Pin { gate, pin } => pin_signal(circuit, gate, pin),
        Line::Data { cell } => circuit.place_of(data_signal(circuit.circuit(), cell)),
        Line::Out { output } => circuit.place_of(output_signal(circuit.circuit(), output)),
    }
}

/// Returns the signal of the data pin of a cell.
pub fn data_signal(circuit: &Circuit, cell: u32) -> u32
    requires named { (n : Name) × (name_on circuit.now (Data cell) ≡ Some n) }
    ensures { (n : Name) → name_on circuit.now (Data cell) ≡ Some n
        → result ≡ signal circuit.now n }
{
    circuit.scan_cells()[cell as usize].d
}

/// Returns the signal of an output.
pub fn output_signal(circuit: &Circuit, output: u32) -> u32
    requires named { (n : Name) × (name_on circuit.now (Out output) ≡ Some n) }
    ensures { (n : Name) → name_on circuit.now (Out output) ≡ Some n
        → result ≡ signal circuit.now n }
{
    circuit.outputs()[output as usize]
}

/// Returns the signal that a pin of a gate reads.
fn pin_signal(circuit: &FlatCircuit, gate: u32, pin: u32) -> u32
    requires gate { gate < length (names circuit.now.arranged) }
    requires named { (n : Name) × (argument (definition circuit.now.arranged gate) pin ≡ Some n) }
    ensures { (n : Name) → argument (definition circuit.now.arranged gate) pin ≡ Some n
        → result ≡ signal circuit.now.arranged n }
{
    match circuit.gate_of(gate) {
        Some(driver) => driver.pins[pin as usize],
        None => unreachable!(),
    }
}
