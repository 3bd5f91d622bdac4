//! The row of a fault.

ghost use Rattle.std.specs.Prelude.{◌≡◌, ◌<◌, Some, Contains, length, slice_get};
ghost use Rattle.bench_net.specs.Scan.{cells, names};
ghost use Rattle.bench_net.specs.Statement.{Name};
ghost use Rattle.fault_model.specs.declared.Line.TheVariants as line;
ghost use Rattle.fault_model.specs.Detection.{name_on};
ghost use Rattle.fault_model.specs.Fault.{Fault, faults};
ghost use Rattle.report.specs.Report.{cell_text};
ghost use Rattle.tables.specs.Rows.{defect_name, line_cells, place_in, row_cells, row_in};

use bench_net::Circuit;
use fault_model::{Faults, Line, Model};

/// A line of a circuit in columns.
#[derive(Clone, Copy)]
pub(crate) struct Place<'a> {
    /// `stem`, `pin`, `data` or `out`.
    pub(crate) kind: &'static str,
    /// The name of the stem, of the gate that has the pin, of the flip-flop, or of the observed
    /// signal.
    pub(crate) name: &'a str,
    /// The number of a gate's pin or of an OUTPUT line, from 1.
    pub(crate) pin: Option<u64>,
    /// The name of the signal that the line carries.
    pub(crate) net: &'a str,
}

/// A fault in columns.
#[derive(Clone, Copy)]
pub(crate) struct FaultRow<'a> {
    pub(crate) place: Place<'a>,
    /// `sa0`, `sa1`, `str` or `stf`.
    pub(crate) defect: &'static str,
}

/// Returns the row of a fault.
pub(crate) fn row_of<'a>(circuit: &'a Circuit, list: &Faults, fault: u32) -> FaultRow<'a>
    requires list { list.now.list ≡ faults list.now.model circuit.now }
    requires in_range { fault < length list.now.list }
    ensures { (f : Fault) → slice_get list.now.list fault ≡ Some f
        → row_in result ≡ row_cells circuit.now f }
{
    let _signals = circuit.signals();
    FaultRow {
        place: place_of(circuit, list.line_of(fault)),
        defect: defect(list.model(), list.stuck_of(fault)),
    }
}

/// Returns the stuck bit or the slow edge of a line, by the model of its fault and the bit.
fn defect(model: Model, bit: bool) -> &'static str
    ensures { result.now ≡ defect_name model bit }
{
    match (model, bit) {
        (Model::StuckAt, false) => "sa0",
        (Model::StuckAt, true) => "sa1",
        (Model::Transition | Model::TransitionPairs, false) => "str",
        (Model::Transition | Model::TransitionPairs, true) => "stf",
    }
}

/// Returns the columns of a line that carries a signal.
fn place_of(circuit: &Circuit, line: Line) -> Place<'_>
    requires { (n : Name) × (name_on circuit.now line ≡ Some n) × Contains (names circuit.now) n }
    ensures { place_in result ≡ line_cells circuit.now line }
{
    match line {
        Line::Stem(signal) => stem_place(circuit, signal),
        Line::Pin { gate, pin } => pin_place(circuit, gate, pin),
        Line::Data { cell } => data_place(circuit, cell),
        Line::Out { output } => out_place(circuit, output),
    }
}

/// Returns the columns of the stem of a signal.
fn stem_place(circuit: &Circuit, signal: u32) -> Place<'_>
    requires { signal < length (names circuit.now) }
    ensures { place_in result ≡ line_cells circuit.now (line.Stem signal) }
{
    let name = circuit.name_of(signal);
    Place {
        kind: "stem",
        name,
        pin: None,
        net: name,
    }
}

/// Returns the columns of a pin of a gate.
fn pin_place(circuit: &Circuit, gate: u32, pin: u32) -> Place<'_>
    requires { (n : Name) × (name_on circuit.now (line.Pin gate pin) ≡ Some n)
        × Contains (names circuit.now) n }
    ensures { place_in result ≡ line_cells circuit.now (line.Pin gate pin) }
{
    Place {
        kind: "pin",
        name: circuit.name_of(gate),
        pin: Some(u64::from(pin) + 1),
        net: pin_net(circuit, gate, pin),
    }
}

/// Returns the name of the signal that a pin of a gate reads.
fn pin_net(circuit: &Circuit, gate: u32, pin: u32) -> &str
    requires { (n : Name) × (name_on circuit.now (line.Pin gate pin) ≡ Some n)
        × Contains (names circuit.now) n }
    ensures { name_on circuit.now (line.Pin gate pin) ≡ Some result.now }
{
    match circuit.gate_of(gate) {
        Some(driver) => circuit.name_of(driver.pins[pin as usize]),
        None => unreachable!(),
    }
}

/// Returns the columns of the data pin of a flip-flop.
fn data_place(circuit: &Circuit, cell: u32) -> Place<'_>
    requires { (n : Name) × (name_on circuit.now (line.Data cell) ≡ Some n)
        × Contains (names circuit.now) n }
    ensures { place_in result ≡ line_cells circuit.now (line.Data cell) }
{
    Place {
        kind: "data",
        name: cell_name(circuit, cell),
        pin: None,
        net: data_net(circuit, cell),
    }
}

/// Returns the name of the signal that a flip-flop drives, by the flip-flop's number.
fn cell_name(circuit: &Circuit, cell: u32) -> &str
    requires { cell < length (cells circuit.now) }
    ensures { result.now ≡ cell_text circuit.now cell }
{
    circuit.name_of(circuit.scan_cells()[cell as usize].q)
}

/// Returns the name of the signal that a flip-flop's data pin reads, by the flip-flop's number.
fn data_net(circuit: &Circuit, cell: u32) -> &str
    requires { (n : Name) × (name_on circuit.now (line.Data cell) ≡ Some n)
        × Contains (names circuit.now) n }
    ensures { name_on circuit.now (line.Data cell) ≡ Some result.now }
{
    circuit.name_of(circuit.scan_cells()[cell as usize].d)
}

/// Returns the columns of an OUTPUT line.
fn out_place(circuit: &Circuit, output: u32) -> Place<'_>
    requires { (n : Name) × (name_on circuit.now (line.Out output) ≡ Some n)
        × Contains (names circuit.now) n }
    ensures { place_in result ≡ line_cells circuit.now (line.Out output) }
{
    let name = output_net(circuit, output);
    Place {
        kind: "out",
        name,
        pin: Some(u64::from(output) + 1),
        net: name,
    }
}

/// Returns the name of the signal that an OUTPUT line observes, by the line's number.
fn output_net(circuit: &Circuit, output: u32) -> &str
    requires { (n : Name) × (name_on circuit.now (line.Out output) ≡ Some n)
        × Contains (names circuit.now) n }
    ensures { name_on circuit.now (line.Out output) ≡ Some result.now }
{
    circuit.name_of(circuit.outputs()[output as usize])
}
