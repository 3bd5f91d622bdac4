//! The fault list of a circuit.

ghost use Rattle.std.specs.Prelude.{◌≡◌, ◌++◌, ◌<◌, map, length, IfOk, IfSome};
ghost use Rattle.std.specs.Prelude.{OnOk, Some, slice_get, nat_le, if◌then◌else◌, []};
ghost use Rattle.fault_model.specs.declared.Line.TheVariants as line;
ghost use Rattle.fault_model.specs.declared.Model.TheVariants as model;
ghost use Rattle.fault_model.specs.Fault.{branch, faults, fault_list};
ghost use Rattle.fault_model.specs.Signals.{IsSignalOf};

use crate::Line;
use bench_net::{Circuit, Sink};
use std::alloc::{AllocError, Global};
use std::marker::Model;

/// The faults of a circuit, numbered from 0, by signal: first its stem stuck at 0 and stuck at 1.
/// If two or more sinks read the signal, each branch follows, stuck at 0 and stuck at 1, in the
/// order of [`Circuit::sinks_of`].
///
/// No call takes memory or more time than a look-up.
#[derive(Drop)]
pub struct Faults {
    model: crate::Model,
    /// The lines in the order of their faults: line `i` has the faults `2 * i` and `2 * i + 1`.
    lines: Vec<Line>,
    /// The place in `lines` of the stem of each signal.
    stems: Vec<u32>,
}

impl Model for Faults {
    ghost use Rattle.std.specs.Prelude.{flat_map};
    ghost use Rattle.fault_model.specs.Fault.{FaultList, both};
    ghost use Rattle.fault_model.specs.Lines.{AreStemsOf, IsWithinLimits};

    ghost Value = { FaultList };

    ghost view = { λ a. record { model = a.model; list = flat_map (both a.model) a.lines.items } };

    ghost invariant = { λ a. AreStemsOf a.lines.items a.stems.items
        × IsWithinLimits a.lines.items };
}

impl Faults {
    /// Returns the model of the faults.
    pub fn model(&self) -> crate::Model
        ensures { result ≡ self.now.model }
    {
        self.model
    }

    /// Returns the number of faults.
    pub fn count(&self) -> u32
        ensures { result ≡ length self.now.list }
    {
        (2 * self.lines.len()) as u32
    }

    /// Returns the line of a fault, whose number is below [`Faults::count`].
    pub fn line_of(&self, fault: u32) -> Line
        requires { fault < length self.now.list }
        ensures { IfSome (slice_get self.now.list fault) (λ f. result ≡ f.line) }
    {
        self.lines[(fault / 2) as usize]
    }

    /// Returns whether a fault, whose number is below [`Faults::count`], is stuck at 1, or slow to
    /// fall: the second of its line.
    pub fn stuck_of(&self, fault: u32) -> bool
        requires { fault < length self.now.list }
        ensures { IfSome (slice_get self.now.list fault) (λ f. result ≡ f.stuck) }
    {
        // The fault of bit 0 comes first. Only the number decides; the borrow shows the proof the
        // lines of the list.
        let _lines = &self.lines;
        fault % 2 == 1
    }

    /// Returns the number of a fault on the stem of `signal`, which counts from 0 and is below the
    /// number of the circuit's signals. Its bit is `stuck`, as [`Faults::stuck_of`] returns it.
    pub fn stem_fault(&self, signal: u32, stuck: bool) -> u32
        requires { IsSignalOf self.now signal }
        ensures { slice_get self.now.list result ≡ Some
            (record { model = self.now.model; line = line.Stem signal; stuck = stuck }) }
    {
        let at_zero = 2 * self.stems[signal as usize];
        if stuck { at_zero + 1 } else { at_zero }
    }
}

/// The number of lines for each signal that a list gets room for at first. Most circuits have
/// fewer.
const LINES_OF_A_SIGNAL: usize = 4;

/// Lists the stuck-at faults of a circuit: [`list_faults_in`] with [`crate::Model::StuckAt`].
///
/// # Errors
///
/// `AllocError` if there is no memory for the list.
pub fn list_faults(alloc: Global, circuit: &Circuit) -> Result<Faults, AllocError>
    ensures { IfOk result (λ list. list ≡ fault_list model.StuckAt circuit.now) }
{
    list_faults_in(alloc, circuit, crate::Model::StuckAt)
}

/// Lists the faults of a circuit under a model: signals in their order, for each its stem and then
/// its branches in the order of the sinks. Each line has first the fault of bit 0 and then the
/// fault of bit 1.
///
/// # Errors
///
/// `AllocError` if there is no memory for the list.
pub fn list_faults_in(
    alloc: Global,
    circuit: &Circuit,
    model: crate::Model,
) -> Result<Faults, AllocError>
    ensures { IfOk result (λ list. list ≡ fault_list model circuit.now) }
{
    let signals = circuit.signals() as usize;
    let mut lines = Vec::with_capacity(alloc, LINES_OF_A_SIGNAL * signals)?;
    let mut stems = Vec::with_capacity(alloc, signals)?;
    for signal in 0..circuit.signals() {
        stems.push(lines.len() as u32)?;
        lines.push(Line::Stem(signal))?;
        push_branches(&mut lines, circuit.sinks_of(signal))?;
    }
    Ok(Faults {
        model,
        lines,
        stems,
    })
}

/// Adds the branches of a stem with these sinks: none if there is at most one sink.
fn push_branches(lines: &mut Vec<Line>, sinks: &[Sink]) -> Result<(), AllocError>
    ensures { OnOk result (lines.new.items ≡ lines.old.items
        ++ map branch (if nat_le 2 (length sinks.now) then sinks.now else [])) }
{
    if sinks.len() < 2 {
        return Ok(());
    }
    for sink in sinks {
        lines.push(branch(*sink))?;
    }
    Ok(())
}

/// Returns the branch that a sink reads.
fn branch(sink: Sink) -> Line
    ensures { result ≡ branch sink }
{
    match sink {
        Sink::Pin { gate, pin } => Line::Pin { gate, pin },
        Sink::Data { cell } => Line::Data { cell },
        Sink::Out { output } => Line::Out { output },
    }
}
