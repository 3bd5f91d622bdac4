//! Equivalence collapsing.

ghost use Rattle.std.specs.Prelude.{◌≡◌, ◌<◌, ◌≤◌, ℕ, map, length, IfOk, Some, None, Option};
ghost use Rattle.std.specs.Prelude.{option_map, option_and_then, slice_get};
ghost use Rattle.bench_net.specs.Scan.{names};
ghost use Rattle.bench_net.specs.Circuit.{IsCircuit};
ghost use Rattle.fault_model.specs.Fault.{faults};
ghost use Rattle.fault_model.specs.Collapse.{kind_of, next, next_stuck, readers};
ghost use Rattle.fault_model.specs.Collapse.{representatives};
ghost use Rattle.fault_model.specs.Collapse.{AreClassesOf, ClassesShowSame};
ghost use Rattle.fault_model.specs.Known.{only_gate, IsInCircuit, HasClassAt, HasEnds, HasNext};
ghost use Rattle.fault_model.specs.Known.{HasStems, HaveKinds, HaveNexts, KeepsClasses};

use crate::Line;
use crate::faults::Faults;
use bench_net::{Circuit, Kind, Sink};
use std::alloc::{AllocError, Global};
use std::marker::Model;

/// The classes of equivalent faults of a circuit, numbered from 0 in the order of their
/// representatives in the fault list.
///
/// No call takes memory or more time than a look-up.
#[derive(Drop)]
pub struct Classes {
    class_of: Vec<u32>,
    representative: Vec<u32>,
}

impl Model for Classes {
    ghost use Rattle.std.specs.Prelude.{◌<◌, ◌^◌, vec_len};
    ghost use Rattle.fault_model.specs.Collapse.{Collapsed};

    ghost Value = { Collapsed };

    ghost view = { λ a. record {
      class_of = a.class_of.items;
      representative = a.representative.items;
    } };

    ghost invariant = { λ a. vec_len a.representative < 2 ^ 32 };
}

impl Classes {
    /// Returns the number of classes.
    pub fn count(&self) -> u32
        ensures { result ≡ length self.now.representative }
    {
        self.representative.len() as u32
    }

    /// Returns the class of a fault, whose number is below the number of faults.
    pub fn class_of(&self, fault: u32) -> u32
        requires { fault < length self.now.class_of }
        ensures { slice_get self.now.class_of fault ≡ Some result }
    {
        self.class_of[fault as usize]
    }

    /// Returns the number of the fault that represents a class, whose number is below
    /// [`Classes::count`].
    pub fn representative(&self, class: u32) -> u32
        requires { class < length self.now.representative }
        ensures { slice_get self.now.representative class ≡ Some result }
    {
        self.representative[class as usize]
    }
}

/// Returns the bit at which the output of a gate is stuck if a pin that is stuck at a bit fixes it.
/// A controlling value fixes an AND, NAND, OR or NOR, and either value fixes the one input of a NOT
/// or BUFF. No value of one input fixes an XOR or XNOR. For transition faults only the rows of NOT
/// and BUFF hold: the output of a gate with more inputs doesn't determine the bit of one input
/// under the test before.
fn next_stuck(model: crate::Model, kind: Kind, stuck: bool) -> Option<bool>
    ensures { result ≡ next_stuck model kind stuck }
{
    match (model, kind, stuck) {
        (_, Kind::Buff, _) => Some(stuck),
        (_, Kind::Not, _) => Some(!stuck),
        (crate::Model::StuckAt, Kind::And, false) | (crate::Model::StuckAt, Kind::Nor, true) => {
            Some(false)
        }
        (crate::Model::StuckAt, Kind::Nand, false) | (crate::Model::StuckAt, Kind::Or, true) => {
            Some(true)
        }
        _ => None,
    }
}

/// Returns the gate whose pin is the only one of these sinks.
pub fn only_gate(sinks: &[Sink]) -> Option<u32>
    ensures { result ≡ only_gate sinks.now }
{
    match sinks {
        [Sink::Pin { gate, .. }] => Some(*gate),
        _ => None,
    }
}

/// Returns the gate whose pin is the only sink of a line, if there is one.
fn reading_gate(circuit: &Circuit, line: Line) -> Option<u32>
    requires { IsInCircuit circuit.now line }
    ensures { result ≡ only_gate (readers circuit.now line) }
{
    match line {
        Line::Stem(signal) => only_gate(circuit.sinks_of(signal)),
        Line::Pin { gate, .. } => Some(gate),
        Line::Data { .. } | Line::Out { .. } => None,
    }
}

/// Returns the kind of the gate that drives each signal, if a gate does. These few bytes stay in a
/// cache; the lines of a circuit don't.
fn kinds_of(alloc: Global, circuit: &Circuit) -> Result<Vec<Option<Kind>>, AllocError>
    ensures { IfOk result (λ kinds.
        HaveKinds circuit.now (length (names circuit.now)) kinds.items) }
{
    let mut kinds = Vec::with_capacity(alloc, circuit.signals() as usize)?;
    for signal in 0..circuit.signals() {
        kinds.push(kind_of(circuit, signal))?;
    }
    Ok(kinds)
}

/// Returns the kind of the gate that drives a signal, if a gate does.
fn kind_of(circuit: &Circuit, signal: u32) -> Option<Kind>
    requires { signal < length (names circuit.now) }
    ensures { result ≡ kind_of circuit.now signal }
{
    match circuit.gate_of(signal) {
        Some(gate) => Some(gate.kind),
        None => None,
    }
}

/// Returns the number of a fault's next fault, which is equivalent to it, if it has one. If the
/// only sink of the fault's line is a gate's pin, the next fault is on the gate's stem, at the bit
/// of [`next_stuck`].
fn next_fault(circuit: &Circuit, kinds: &[Option<Kind>], list: &Faults, fault: u32) -> Option<u32>
    requires kinds { HaveKinds circuit.now (length (names circuit.now)) kinds.now }
    requires same { list.now.list ≡ faults list.now.model circuit.now }
    requires in_range { fault < length list.now.list }
    ensures { option_map (slice_get list.now.list) result ≡ option_map Some
        (option_and_then (next circuit.now) (slice_get list.now.list fault)) }
{
    let gate = reading_gate(circuit, list.line_of(fault))?;
    let kind = kinds[gate as usize]?;
    let stuck = next_stuck(list.model(), kind, list.stuck_of(fault))?;
    Some(list.stem_fault(gate, stuck))
}

/// Returns the number of each fault's next fault, if it has one.
fn next_faults(
    alloc: Global,
    circuit: &Circuit,
    list: &Faults,
) -> Result<Vec<Option<u32>>, AllocError>
    requires { list.now.list ≡ faults list.now.model circuit.now }
    ensures { IfOk result (λ nexts.
        HaveNexts list.now.model circuit.now (length list.now.list) nexts.items) }
{
    let kinds = kinds_of(alloc, circuit)?;
    let mut nexts = Vec::with_capacity(alloc, list.count() as usize)?;
    for fault in 0..list.count() {
        nexts.push(next_fault(circuit, &kinds, list, fault))?;
    }
    Ok(nexts)
}

/// Returns the number of a fault's next fault in the table of all.
fn next_in(circuit: &Circuit, list: &Faults, nexts: &[Option<u32>], fault: u32) -> Option<u32>
    requires same { list.now.list ≡ faults list.now.model circuit.now }
    requires nexts { HaveNexts list.now.model circuit.now (length list.now.list) nexts.now }
    requires in_range { fault < length list.now.list }
    ensures { option_map (slice_get list.now.list) result ≡ option_map Some
        (option_and_then (next circuit.now) (slice_get list.now.list fault)) }
{
    nexts[fault as usize]
}

/// Two unfinished tables: the class of each fault, which is right if the fault has no next fault,
/// and the representative of each class.
#[derive(Drop)]
struct Ends {
    class_of: Vec<u32>,
    representative: Vec<u32>,
}

/// Numbers the classes of the faults that have no next fault, in the order of the list.
fn number_ends(
    alloc: Global,
    circuit: &Circuit,
    list: &Faults,
    nexts: &[Option<u32>],
) -> Result<Ends, AllocError>
    requires same { list.now.list ≡ faults list.now.model circuit.now }
    requires nexts { HaveNexts list.now.model circuit.now (length list.now.list) nexts.now }
    ensures count { IfOk result (λ ends. length ends.class_of.items ≡ length list.now.list) }
    ensures few { IfOk result (λ ends. length ends.representative.items ≤ length list.now.list) }
    ensures classes { IfOk result (λ ends. HasEnds list.now.model circuit.now ends.class_of.items) }
    ensures representatives { IfOk result
        (λ ends. map (slice_get list.now.list) ends.representative.items ≡ map Some
        (representatives list.now.model circuit.now)) }
{
    let mut class_of = Vec::with_capacity(alloc, list.count() as usize)?;
    let mut representative = Vec::with_capacity(alloc, list.count() as usize)?;
    for fault in 0..list.count() {
        class_of.push(representative.len() as u32)?;
        if next_in(circuit, list, nexts, fault).is_none() {
            representative.push(fault)?;
        }
    }
    Ok(Ends {
        class_of,
        representative,
    })
}

/// Gives a fault the class of its next fault.
fn follow(circuit: &Circuit, list: &Faults, nexts: &[Option<u32>], class_of: &mut [u32], fault: u32)
    requires same { list.now.list ≡ faults list.now.model circuit.now }
    requires nexts { HaveNexts list.now.model circuit.now (length list.now.list) nexts.now }
    requires count { length class_of.old ≡ length list.now.list }
    requires in_range { fault < length list.now.list }
    requires ends { HasEnds list.now.model circuit.now class_of.old }
    requires next { HasNext list.now.model circuit.now class_of.old fault }
    ensures known { HasClassAt list.now.model circuit.now class_of.new fault }
    ensures kept { KeepsClasses list.now.model circuit.now class_of.old class_of.new }
{
    if let Some(next) = next_in(circuit, list, nexts, fault) {
        class_of[fault as usize] = class_of[next as usize];
    }
}

/// Sets the classes of the faults on stems. Signals go from the highest level down, because a next
/// fault is on the stem of a signal of a higher level.
fn follow_stems(circuit: &Circuit, list: &Faults, nexts: &[Option<u32>], class_of: &mut [u32])
    requires same { list.now.list ≡ faults list.now.model circuit.now }
    requires nexts { HaveNexts list.now.model circuit.now (length list.now.list) nexts.now }
    requires count { length class_of.old ≡ length list.now.list }
    requires ends { HasEnds list.now.model circuit.now class_of.old }
    ensures stems { HasStems list.now.model circuit.now class_of.new }
    ensures kept { KeepsClasses list.now.model circuit.now class_of.old class_of.new }
    ensures circuit { IsCircuit circuit.now }
{
    let order = circuit.in_level_order();
    for place in (0..circuit.signals()).rev() {
        let signal = order[place as usize];
        follow(
            circuit,
            list,
            nexts,
            class_of,
            list.stem_fault(signal, false),
        );
        follow(
            circuit,
            list,
            nexts,
            class_of,
            list.stem_fault(signal, true),
        );
    }
}

/// Sets the classes of all faults from the classes of the faults on stems, because a next fault is
/// on a stem.
fn follow_all(circuit: &Circuit, list: &Faults, nexts: &[Option<u32>], class_of: &mut [u32])
    requires same { list.now.list ≡ faults list.now.model circuit.now }
    requires nexts { HaveNexts list.now.model circuit.now (length list.now.list) nexts.now }
    requires count { length class_of.old ≡ length list.now.list }
    requires ends { HasEnds list.now.model circuit.now class_of.old }
    requires stems { HasStems list.now.model circuit.now class_of.old }
    ensures { (i : ℕ) → i < length list.now.list
        → HasClassAt list.now.model circuit.now class_of.new i }
{
    for fault in 0..list.count() {
        follow(circuit, list, nexts, class_of, fault);
    }
}

/// Sets the classes of all faults from the classes of the faults without a next fault.
fn follow_chains(circuit: &Circuit, list: &Faults, nexts: &[Option<u32>], class_of: &mut [u32])
    requires same { list.now.list ≡ faults list.now.model circuit.now }
    requires nexts { HaveNexts list.now.model circuit.now (length list.now.list) nexts.now }
    requires count { length class_of.old ≡ length list.now.list }
    requires ends { HasEnds list.now.model circuit.now class_of.old }
    ensures known { (i : ℕ) → i < length list.now.list
        → HasClassAt list.now.model circuit.now class_of.new i }
    ensures circuit { IsCircuit circuit.now }
{
    follow_stems(circuit, list, nexts, class_of);
    follow_all(circuit, list, nexts, class_of);
}

/// Collapses the faults of a circuit into equivalence classes. If the only sink of a fault's line
/// is a gate pin, the fault may have an equivalent fault on the gate's stem. It then goes with that
/// fault, and so on along the gates. The end of this chain is the representative. The faults with
/// one representative are a class.
///
/// The list belongs to the circuit. Time and memory are linear in the number of sinks.
///
/// # Errors
///
/// `AllocError` if there is no memory for the classes.
pub fn collapse(alloc: Global, circuit: &Circuit, list: &Faults) -> Result<Classes, AllocError>
    requires { list.now.list ≡ faults list.now.model circuit.now }
    ensures classes { IfOk result (λ classes. AreClassesOf list.now.model circuit.now classes) }
    ensures same { IfOk result (λ _. ClassesShowSame circuit.now) }
{
    let nexts = next_faults(alloc, circuit, list)?;
    let Ends {
        mut class_of,
        representative,
    } = number_ends(alloc, circuit, list, &nexts)?;
    follow_chains(circuit, list, &nexts, class_of.as_mut_slice());
    Ok(Classes {
        class_of,
        representative,
    })
}
