//! The names of faults.

ghost use Rattle.std.specs.Prelude.{◌≡◌, ◌<◌, Contains, Some, length, map, slice_get};
ghost use Rattle.bench_net.specs.Scan.{cells, name_of, names, outputs};
ghost use Rattle.bench_net.specs.Statement.{Name};
ghost use Rattle.fault_model.specs.Fault.{faults};
ghost use Rattle.block_coverage.specs.Blocks.{fault_names, owner};

use bench_net::Circuit;
use fault_model::{Faults, Line};

/// Returns the name of a fault, given by its number.
pub(crate) fn name_of<'a>(circuit: &'a Circuit, list: &Faults, fault: u32) -> &'a str
    requires list { list.now.list ≡ faults list.now.model circuit.now }
    requires in_range { fault < length list.now.list }
    ensures { slice_get (fault_names circuit.now list.now.list) fault ≡ Some result.now }
{
    let _signals = circuit.signals();
    owner_of(circuit, list.line_of(fault))
}

/// Returns the name of a line: that of the stem, of the gate that has the pin, of the flip-flop, or
/// of the observed signal.
fn owner_of(circuit: &Circuit, line: Line) -> &str
    requires { (n : Name) × (owner circuit.now line ≡ Some n) × Contains (names circuit.now) n }
    ensures { owner circuit.now line ≡ Some result.now }
{
    match line {
        Line::Stem(signal) => signal_name(circuit, signal),
        Line::Pin { gate, .. } => signal_name(circuit, gate),
        Line::Data { cell } => cell_name(circuit, cell),
        Line::Out { output } => output_name(circuit, output),
    }
}

/// Returns the name of a signal.
fn signal_name(circuit: &Circuit, signal: u32) -> &str
    requires { (n : Name) × (name_of circuit.now signal ≡ Some n) }
    ensures { name_of circuit.now signal ≡ Some result.now }
{
    circuit.name_of(signal)
}

/// Returns the name of a flip-flop, by its number.
fn cell_name(circuit: &Circuit, cell: u32) -> &str
    requires { cell < length (cells circuit.now) }
    ensures { slice_get (map (λ qd. qd.0) (cells circuit.now)) cell ≡ Some result.now }
{
    circuit.name_of(circuit.scan_cells()[cell as usize].q)
}

/// Returns the name of the signal that an OUTPUT line observes, by the line's number.
fn output_name(circuit: &Circuit, output: u32) -> &str
    requires { (n : Name) × (slice_get (outputs circuit.now) output ≡ Some n)
        × Contains (names circuit.now) n }
    ensures { slice_get (outputs circuit.now) output ≡ Some result.now }
{
    circuit.name_of(circuit.outputs()[output as usize])
}
