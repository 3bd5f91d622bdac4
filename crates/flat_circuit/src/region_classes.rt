//! The fanout-free region of each class: its stem, and its other classes.

ghost use Rattle.std.specs.Prelude.{◌≡◌, ◌<◌, ◌^◌, ℕ, All, IfOk, IfSome, Some, length};
ghost use Rattle.bench_net.specs.Statement.{Name};
ghost use Rattle.bench_net.specs.Scan.{names};
ghost use Rattle.bench_net.specs.Circuit.{IsCircuit};
ghost use Rattle.fault_model.specs.Fault.{fault_list};
ghost use Rattle.fault_model.specs.Collapse.{AreClassesOf};
ghost use Rattle.fault_model.specs.Detection.{name_on};
ghost use Rattle.flat_circuit.specs.Regions.{HasStem, HaveStems, IsStemOf, lone_reader, way_from};

use crate::flat::lone_reader_of;
use crate::line_signals::{data_signal, output_signal};
use bench_net::Circuit;
use fault_model::{Classes, Faults, Line};
use std::alloc::{AllocError, Global};

/// Returns the stem of each class: the stem of the region of its representative's line.
pub(crate) fn class_stems(
    alloc: Global,
    circuit: &Circuit,
    faults: &Faults,
    classes: &Classes,
) -> Result<Vec<u32>, AllocError>
    requires circuit { IsCircuit circuit.now }
    requires list { faults.now ≡ fault_list faults.now.model circuit.now }
    requires classes { AreClassesOf faults.now.model circuit.now classes.now }
    ensures count { IfOk result (λ stems.
        length stems.items ≡ length classes.now.representative) }
    ensures stems { IfOk result (λ stems.
        HaveStems faults.now.model circuit.now stems.items) }
{
    let stems = stems_of(alloc, circuit)?;
    let mut class_stems = Vec::with_capacity(alloc, classes.count() as usize)?;
    for class in 0..classes.count() {
        let line = faults.line_of(classes.representative(class));
        let stem = stems[way_from(circuit, line) as usize];
        class_stems.push(stem)?;
    }
    Ok(class_stems)
}

/// Returns for each class the next one with its stem, and for the last the first, for this number
/// of signals.
pub(crate) fn next_with_stem(
    alloc: Global,
    stems: &[u32],
    signals: u32,
) -> Result<Vec<u32>, AllocError>
    requires stems { All (λ stem. stem < signals) stems.now }
    requires few { length stems.now < 2 ^ 32 }
    ensures count { IfOk result (λ next. length next.items ≡ length stems.now) }
    ensures within { IfOk result (λ next.
        All (λ class. class < length stems.now) next.items) }
{
    let mut last = vec![in alloc; None; signals as usize]?;
    let mut next = Vec::with_capacity(alloc, stems.len())?;
    for class in 0..stems.len() {
        next.push(class as u32)?;
    }
    join_circles(stems, &mut last, &mut next);
    Ok(next)
}

/// Puts each class after the last one that has its stem, in the circle of that stem.
fn join_circles(stems: &[u32], last: &mut [Option<u32>], next: &mut [u32])
    requires few { length stems.now < 2 ^ 32 }
    requires stems { All (λ stem. stem < length last.old) stems.now }
    requires last { All (λ last. IfSome last (λ class. class < length stems.now)) last.old }
    requires next { (length next.old ≡ length stems.now)
        × All (λ class. class < length stems.now) next.old }
    ensures next { (length next.new ≡ length stems.now)
        × All (λ class. class < length stems.now) next.new }
{
    for class in 0..stems.len() {
        let stem = stems[class] as usize;
        let before = last[stem];
        last[stem] = Some(class as u32);
        let Some(before) = before else {
            continue;
        };
        next[class] = next[before as usize];
        next[before as usize] = class as u32;
    }
}

/// Returns the signal at which a line's way to its stem begins: the gate's signal for a pin, and
/// for any other line the signal that it carries.
fn way_from(circuit: &Circuit, line: Line) -> u32
    requires circuit { IsCircuit circuit.now }
    requires named { (n : Name) × (name_on circuit.now line ≡ Some n) }
    ensures { way_from circuit.now line ≡ Some result }
{
    match line {
        Line::Stem(signal) => signal,
        Line::Pin { gate, pin: _ } => gate,
        Line::Data { cell } => data_signal(circuit, cell),
        Line::Out { output } => output_signal(circuit, output),
    }
}

/// Returns for each signal the stem of its region.
fn stems_of(alloc: Global, circuit: &Circuit) -> Result<Vec<u32>, AllocError>
    requires circuit { IsCircuit circuit.now }
    ensures count { IfOk result (λ stems. length stems.items ≡ length (names circuit.now)) }
    ensures stems { IfOk result (λ stems. (signal : ℕ) → signal < length (names circuit.now)
        → HasStem circuit.now stems.items signal) }
{
    let signals = circuit.signals() as usize;
    let mut stems = vec![in alloc; 0u32; signals]?;
    find_stems(circuit, &mut stems);
    Ok(stems)
}

/// Finds the stem of each signal, from the last in level order on: a gate comes after the signals
/// that it reads.
fn find_stems(circuit: &Circuit, stems: &mut [u32])
    requires circuit { IsCircuit circuit.now }
    requires room { length stems.old ≡ length (names circuit.now) }
    ensures { (signal : ℕ) → signal < length (names circuit.now)
        → HasStem circuit.now stems.new signal }
{
    let order = circuit.in_level_order();
    for place in (0..order.len()).rev() {
        let signal = order[place];
        let stem = next_stem(circuit, stems, signal);
        stems[signal as usize] = stem;
    }
}

/// Returns the stem of a signal, from the stem of the only gate that reads it: the stem of that
/// gate, or the signal itself if there is no such gate.
fn next_stem(circuit: &Circuit, stems: &[u32], signal: u32) -> u32
    requires circuit { IsCircuit circuit.now }
    requires room { length stems.now ≡ length (names circuit.now) }
    requires signal { signal < length (names circuit.now) }
    requires reader { (gate : ℕ) → lone_reader circuit.now signal ≡ Some gate
        → HasStem circuit.now stems.now gate }
    ensures stem { IsStemOf circuit.now result signal }
    ensures within { result < length (names circuit.now) }
{
    match lone_reader_of(circuit, signal) {
        Some(gate) => stems[gate as usize],
        None => signal,
    }
}
