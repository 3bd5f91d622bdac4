//! A walk through a circuit against the flow, depth first.
//!
//! From a gate it goes to the signal of its first pin and everything before it, and then to the
//! signal of each further pin. It leaves the gate after all of these. So the signals that lead to a
//! gate are left shortly before it. It starts from the observed signals, the lowest level first,
//! and at last from the signals that it hasn't met. So everything that leads to the lowest observer
//! comes first, then the further signals that the next observer needs, and so on.

ghost use Rattle.std.specs.Prelude.{◌≡◌, ◌<◌, All, Contains, IfOk, IfSome, OnOk, length};
ghost use Rattle.bench_net.specs.Circuit.{IsCircuit};
ghost use Rattle.bench_net.specs.Scan.{names};
ghost use Rattle.flat_circuit.specs.SignalOrder.{IsWalk};

use crate::flat::PINS_OF_A_SIGNAL;
use bench_net::Circuit;
use std::alloc::{AllocError, Global};

/// The signals that the pins of all gates read, gate by gate in one list. The walk goes from gate
/// to gate in no order of memory. This list is short enough for the caches; the lines of a circuit
/// are not.
#[derive(Drop)]
struct PinRows {
    /// For each signal the number of pins of the gates of the signals before it, and after these
    /// the number of all pins.
    starts: Vec<u32>,
    pins: Vec<u32>,
}

/// A signal that the walk has entered, the place of the pin from which it goes on next, and the
/// place after the last pin of the signal's gate.
#[derive(Clone, Copy)]
struct Entered {
    signal: u32,
    next: u32,
    end: u32,
}

/// The state of the walk.
#[derive(Drop)]
struct Walk {
    /// For each signal whether the walk has entered it.
    entered: Vec<bool>,
    /// The signals that it has entered and not left, the last one on top.
    path: Vec<Entered>,
    /// The number of its starts.
    starts: usize,
    /// For each signal that it has left, the number of signals that it left before.
    ranks: Vec<u32>,
    left: u32,
}

/// Returns for each signal how many signals the walk leaves before it.
///
/// ```text
/// m = NOT(b)    z = AND(a, m)    y = OR(b, c)        a 0    b 1    m 2    z 3    c 4    y 5
/// ```
///
/// No clause promises anything about these numbers: they affect the speed of a simulation, and no
/// result.
pub(crate) fn walk_ranks(alloc: Global, circuit: &Circuit) -> Result<Vec<u32>, AllocError>
    requires { IsCircuit circuit.now }
    ensures { IfOk result (λ ranks. length ranks.items ≡ length (names circuit.now)) }
{
    let signals = circuit.signals() as usize;
    let rows = pin_rows(alloc, circuit)?;
    let starts = starts_of(alloc, circuit)?;
    let mut walk = Walk {
        entered: vec![in alloc; false; signals]?,
        path: Vec::new(alloc),
        starts: 0,
        ranks: vec![in alloc; 0u32; signals]?,
        left: 0,
    };
    for _step in 0..steps_of(&rows, starts.as_slice()) {
        step(&rows, starts.as_slice(), &mut walk)?;
    }
    Ok(walk.ranks)
}

/// Returns the signals that the pins of all gates read.
fn pin_rows(alloc: Global, circuit: &Circuit) -> Result<PinRows, AllocError>
    requires { IsCircuit circuit.now }
    ensures { IfOk result (λ rows.
        All (λ pin. pin < length (names circuit.now)) rows.pins.items) }
{
    let signals = circuit.signals();
    let mut starts = Vec::with_capacity(alloc, signals as usize + 1)?;
    let room = (signals as usize).saturating_mul(PINS_OF_A_SIGNAL);
    let mut pins = Vec::with_capacity(alloc, room)?;
    for signal in 0..signals {
        starts.push(u32::try_from(pins.len()).unwrap_or(u32::MAX))?;
        pins.extend_from_slice(pins_of(circuit, signal))?;
    }
    starts.push(u32::try_from(pins.len()).unwrap_or(u32::MAX))?;
    Ok(PinRows { starts, pins })
}

/// Returns the signals that the pins of a signal's gate read: none for a source.
fn pins_of(circuit: &Circuit, signal: u32) -> &[u32]
    requires circuit { IsCircuit circuit.now }
    requires signal { signal < length (names circuit.now) }
    ensures { All (λ pin. pin < length (names circuit.now)) result.now }
{
    match circuit.gate_of(signal) {
        Some(line) => line.pins.as_slice(),
        None => &[],
    }
}

/// Returns the signals from which the walk starts, one after another: in level order the observed
/// ones, and then all.
fn starts_of(alloc: Global, circuit: &Circuit) -> Result<Vec<u32>, AllocError>
    requires { IsCircuit circuit.now }
    ensures { IfOk result (λ starts.
        All (λ signal. signal < length (names circuit.now)) starts.items) }
{
    let mut observed = vec![in alloc; false; circuit.signals() as usize]?;
    mark_observed(circuit, &mut observed);
    let order = circuit.in_level_order();
    let mut starts = Vec::with_capacity(alloc, order.len())?;
    for place in 0..order.len() {
        let signal = order[place];
        if is_marked(&observed, signal) {
            starts.push(signal)?;
        }
    }
    starts.extend_from_slice(order)?;
    Ok(starts)
}

/// Marks the signals that an observer observes.
fn mark_observed(circuit: &Circuit, observed: &mut [bool]) {
    for cell in circuit.scan_cells() {
        if let Some(mark) = observed.get_mut(cell.d as usize) {
            *mark = true;
        }
    }
    for output in circuit.outputs() {
        if let Some(mark) = observed.get_mut(*output as usize) {
            *mark = true;
        }
    }
}

/// Returns whether a signal is marked.
fn is_marked(marks: &[bool], signal: u32) -> bool {
    match marks.get(signal as usize) {
        Some(mark) => *mark,
        None => false,
    }
}

/// Returns the number of steps of the walk: one for each pin, one for each start, and one to leave
/// each signal.
fn steps_of(rows: &PinRows, starts: &[u32]) -> usize {
    let others = rows.starts.len().saturating_add(starts.len());
    rows.pins.len().saturating_add(others)
}

/// Goes a step on from the signal that was entered last, or starts from another one.
fn step(rows: &PinRows, starts: &[u32], walk: &mut Walk) -> Result<(), AllocError>
    requires pins { All (λ pin. pin < length walk.old.ranks.items) rows.now.pins.items }
    requires starts { All (λ signal. signal < length walk.old.ranks.items) starts.now }
    requires walk { IsWalk (length walk.old.ranks.items) walk.old }
    ensures { OnOk result (IsWalk (length walk.old.ranks.items) walk.new) }
{
    match walk.path.pop() {
        Some(at) => go_on(rows, at, walk),
        None => start(rows, starts, walk),
    }
}

/// Starts from the next signal.
fn start(rows: &PinRows, starts: &[u32], walk: &mut Walk) -> Result<(), AllocError>
    requires starts { All (λ signal. signal < length walk.old.ranks.items) starts.now }
    requires walk { IsWalk (length walk.old.ranks.items) walk.old }
    ensures { OnOk result (IsWalk (length walk.old.ranks.items) walk.new) }
{
    let place = walk.starts;
    walk.starts = place.saturating_add(1);
    match starts.get(place) {
        Some(signal) => enter(rows, *signal, walk),
        None => Ok(()),
    }
}

/// Goes on from a signal to the next pin of its gate, or leaves it if there is none.
fn go_on(rows: &PinRows, at: Entered, walk: &mut Walk) -> Result<(), AllocError>
    requires pins { All (λ pin. pin < length walk.old.ranks.items) rows.now.pins.items }
    requires signal { at.signal < length walk.old.ranks.items }
    requires walk { IsWalk (length walk.old.ranks.items) walk.old }
    ensures { OnOk result (IsWalk (length walk.old.ranks.items) walk.new) }
{
    match next_pin(rows, at) {
        Some(pin) => {
            walk.path.push(Entered {
                signal: at.signal,
                next: at.next.saturating_add(1),
                end: at.end,
            })?;
            enter(rows, pin, walk)
        }
        None => {
            walk.ranks[at.signal as usize] = walk.left;
            walk.left = walk.left.saturating_add(1);
            Ok(())
        }
    }
}

/// Returns the signal that the next pin of a signal's gate reads.
fn next_pin(rows: &PinRows, at: Entered) -> Option<u32>
    ensures { IfSome result (λ pin. Contains rows.now.pins.items pin) }
{
    if at.next >= at.end {
        return None;
    }
    match rows.pins.as_slice().get(at.next as usize) {
        Some(pin) => Some(*pin),
        None => None,
    }
}

/// Enters a signal, if the walk has not done so.
fn enter(rows: &PinRows, signal: u32, walk: &mut Walk) -> Result<(), AllocError>
    requires signal { signal < length walk.old.ranks.items }
    requires walk { IsWalk (length walk.old.ranks.items) walk.old }
    ensures { OnOk result (IsWalk (length walk.old.ranks.items) walk.new) }
{
    if !walk.entered[signal as usize] {
        walk.entered[signal as usize] = true;
        let next = start_of(rows, signal as usize);
        let end = start_of(rows, (signal as usize).saturating_add(1));
        walk.path.push(Entered { signal, next, end })?;
    }
    Ok(())
}

/// Returns the place of the first pin of a signal's gate.
fn start_of(rows: &PinRows, signal: usize) -> u32 {
    match rows.starts.as_slice().get(signal) {
        Some(start) => *start,
        None => 0,
    }
}
