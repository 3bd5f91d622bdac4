//! Which faults some test activates, for all signals at once.

ghost use Rattle.std.specs.Prelude.{◌≡◌, ◌↔◌, ◌+◌, ◌<◌, Bool, Contains, IfOk, IsTrue, List, Some};
ghost use Rattle.std.specs.Prelude.{false, length, slice_get, true};
ghost use Rattle.bench_net.specs.Scan.{names};
ghost use Rattle.bench_net.specs.Statement.{Name};
ghost use Rattle.fault_model.specs.declared.Line.TheVariants as line;
ghost use Rattle.fault_model.specs.Detection.{name_on};
ghost use Rattle.fault_model.specs.Fault.{Fault};
ghost use Rattle.block_sim.specs.Parts.{Parts};
ghost use Rattle.flat_circuit.specs.BlockSpans.{groups};
ghost use Rattle.flat_circuit.specs.Origins.{Carries};
ghost use Rattle.undetected.specs.Activated.{AreActivations, AreActivationsBelow, AreAdded};
ghost use Rattle.undetected.specs.Activated.{AreAddedBefore, end_at};
ghost use Rattle.undetected.specs.Activation.{IsActivated};

use crate::activating::activates_in_group;
use bench_net::Circuit;
use block_sim::Job;
use fault_model::Line;
use region_runs::{RunJob, WordReader};
use std::alloc::{AllocError, Global};

/// Whether some test activates the faults on the lines that carry a signal. All these lines have
/// the signal's bit, so one flag holds for a stem and its branches.
#[derive(Drop)]
pub(crate) struct Activations {
    /// For the faults stuck at 0, or slow to rise, by signals.
    pub(crate) at_zero: Vec<bool>,
    /// For the faults stuck at 1, or slow to fall, by signals.
    pub(crate) at_one: Vec<bool>,
}

impl Activations {
    /// Makes the flags of no test.
    pub(crate) fn none(alloc: Global, circuit: &Circuit) -> Result<Activations, AllocError>
        ensures { IfOk result (λ new. (job : Parts) → circuit.now ≡ job.circuit
            → AreActivationsBelow job 0 new) }
    {
        let signals = circuit.signals() as usize;
        let at_zero = vec![in alloc; false; signals]?;
        let at_one = vec![in alloc; false; signals]?;
        Ok(Activations { at_zero, at_one })
    }

    /// Returns whether some test activates the fault of a number.
    pub(crate) fn of(&self, run: &RunJob, fault: u32) -> bool
        requires known { AreActivations run.now.whole self.now }
        requires fault { fault < length run.now.whole.list.list }
        ensures { (f : Fault) → slice_get run.now.whole.list.list fault ≡ Some f
            → IsTrue result ↔ IsActivated run.now.whole.circuit run.now.whole.tests.tests f }
    {
        let _tests = run.tests();
        let job = run.job();
        let list = job.faults();
        let signal = signal_on(job.circuit(), list.line_of(fault)) as usize;
        if list.stuck_of(fault) {
            self.at_one[signal]
        } else {
            self.at_zero[signal]
        }
    }
}

impl WordReader for Activations {
    ghost use Rattle.undetected.specs.Activated.{AreActivationsBelow};

    ghost gathered = { λ known job end. AreActivationsBelow job end known };

    fn read(&mut self, job: &Job) {
        add_groups(job, &mut self.at_zero, &mut self.at_one);
    }
}

/// Adds the tests of all groups to the flags of all signals.
fn add_groups(job: &Job, at_zero: &mut [bool], at_one: &mut [bool])
    requires zero_room { length at_zero.old ≡ length (names job.now.circuit) }
    requires one_room { length at_one.old ≡ length (names job.now.circuit) }
    ensures zero_room { length at_zero.new ≡ length (names job.now.circuit) }
    ensures one_room { length at_one.new ≡ length (names job.now.circuit) }
    ensures zero { AreAdded job.now false at_zero.old at_zero.new }
    ensures one { AreAdded job.now true at_one.old at_one.new }
{
    for group in 0..job.tests().blocks().div_ceil(2) {
        add_group(job, group, at_zero, at_one);
    }
}

/// Adds the tests of a group to the flags of all signals.
fn add_group(job: &Job, group: u32, at_zero: &mut [bool], at_one: &mut [bool])
    requires group { group < groups (length job.now.tests.tests) }
    requires zero_room { length at_zero.old ≡ length (names job.now.circuit) }
    requires one_room { length at_one.old ≡ length (names job.now.circuit) }
    ensures zero_room { length at_zero.new ≡ length (names job.now.circuit) }
    ensures one_room { length at_one.new ≡ length (names job.now.circuit) }
    ensures zero { (start : List Bool)
        → AreAddedBefore job.now false start (end_at group 0) at_zero.old
        → AreAddedBefore job.now false start (end_at (group + 1) 0) at_zero.new }
    ensures one { (start : List Bool)
        → AreAddedBefore job.now true start (end_at group 0) at_one.old
        → AreAddedBefore job.now true start (end_at (group + 1) 0) at_one.new }
{
    for signal in 0..job.circuit().signals() {
        add_words(job, group, signal, false, at_zero);
        add_words(job, group, signal, true, at_one);
    }
}

/// Adds the tests of a group to the flag of a signal, for the faults of a bit. A flag that is set
/// stays so.
#[inline(always)]
fn add_words(job: &Job, group: u32, signal: u32, bit: bool, flags: &mut [bool])
    requires group { group < groups (length job.now.tests.tests) }
    requires signal { signal < length (names job.now.circuit) }
    requires room { length flags.old ≡ length (names job.now.circuit) }
    ensures room { length flags.new ≡ length (names job.now.circuit) }
    ensures after { (start : List Bool)
        → AreAddedBefore job.now bit start (end_at group signal) flags.old
        → AreAddedBefore job.now bit start (end_at group (signal + 1)) flags.new }
{
    if !flags[signal as usize] {
        flags[signal as usize] = activates_in_group(job, group, signal, bit);
    }
}

/// Returns the signal that a line carries.
fn signal_on(circuit: &Circuit, line: Line) -> u32
    requires { (n : Name) × (name_on circuit.now line ≡ Some n)
        × Contains (names circuit.now) n }
    ensures carries { Carries circuit.now line result }
    ensures within { result < length (names circuit.now) }
{
    let _signals = circuit.signals();
    match line {
        Line::Stem(signal) => signal,
        Line::Pin { gate, pin } => pin_signal(circuit, gate, pin),
        Line::Data { cell } => circuit.scan_cells()[cell as usize].d,
        Line::Out { output } => circuit.outputs()[output as usize],
    }
}

/// Returns the signal that a pin of a gate reads.
fn pin_signal(circuit: &Circuit, gate: u32, pin: u32) -> u32
    requires { (n : Name) × (name_on circuit.now (line.Pin gate pin) ≡ Some n)
        × Contains (names circuit.now) n }
    ensures carries { Carries circuit.now (line.Pin gate pin) result }
    ensures within { result < length (names circuit.now) }
{
    match circuit.gate_of(gate) {
        Some(driver) => driver.pins[pin as usize],
        None => unreachable!(),
    }
}
