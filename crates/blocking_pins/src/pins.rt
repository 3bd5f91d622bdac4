//! The pins that block effects.

ghost use Rattle.std.specs.Prelude.{◌≡◌, ◌<◌, All, Bool, IfOk, List, ℕ, Some, length, map};
ghost use Rattle.std.specs.Prelude.{◌/◌, ◌↔◌, IsTrue, if◌then◌else◌, slice_get};
ghost use Rattle.bench_net.specs.declared.Kind.{Kind};
ghost use Rattle.bench_net.specs.Scan.{gate_of};
ghost use Rattle.flat_circuit.specs.BlockSpans.{groups};
ghost use Rattle.flat_circuit.specs.Words.{lane};
ghost use Rattle.blocking_pins.specs.Blocking.{AreBlockingPins, AreDetected, HaveCount};
ghost use Rattle.blocking_pins.specs.Blocking.{controlling};
ghost use Rattle.blocking_pins.specs.Counting.{AreListedPins, HasBit, IsTallyBelow};
ghost use Rattle.blocking_pins.specs.Effects.{AreAllPins, IsGatePin};

use crate::counting::tally_of;
use crate::gate_pins::{GatePin, GatePins};
use crate::sorted::{by_faults, by_tests};
use crate::tally::Tally;
use bench_net::Circuit;
use block_sim::Job;
use std::alloc::{AllocError, Global};

/// A pin that blocks effects of undetected faults.
#[derive(Clone, Copy, Debug, PartialEq, Eq)]
pub struct BlockingPin {
    /// The number of the gate's signal.
    pub gate: u32,
    /// The number of the pin, from 0.
    pub pin: u32,
    /// The number of the signal that the pin reads.
    pub read: u32,
    /// The controlling value of the gate.
    pub value: bool,
    /// The number of undetected faults that the pin blocks.
    pub faults: u32,
    /// The number of tests under which it blocks one.
    pub tests: u32,
}

/// Returns all pins that block effects of undetected faults, those that block the most faults
/// first.
pub fn blocking_pins(
    alloc: Global,
    job: &Job,
    detected: &[bool],
) -> Result<Vec<BlockingPin>, AllocError>
    requires { AreDetected job.now detected.now }
    ensures { IfOk result (λ rows. AreBlockingPins job.now rows.items) }
{
    let words = job.words();
    let pins = GatePins::of(alloc, words.circuit)?;
    let tally = tally_of(alloc, job, words, detected, &pins)?;
    let rows = rows_of(alloc, job, &pins, &tally)?;
    let by_tests = by_tests(alloc, &rows, job.tests().count())?;
    let sorted = by_faults(alloc, &by_tests, job.faults().count())?;
    Ok(sorted)
}

/// Returns the pins that block some fault, in the order of the list of pins.
fn rows_of(
    alloc: Global,
    job: &Job,
    pins: &GatePins,
    tally: &Tally,
) -> Result<Vec<BlockingPin>, AllocError>
    requires pins { AreAllPins job.now.circuit pins.now.pins.items }
    requires tally { IsTallyBelow job.now pins.now.pins.items (length job.now.list.list)
        tally.now.counts.items (map (λ row. row.items) tally.now.rows.items) }
    ensures { IfOk result (λ rows. AreListedPins job.now rows.items) }
{
    let _circuit = job.circuit();
    let mut rows = Vec::new(alloc);
    for (at, pin) in pins.pins.iter().enumerate() {
        let faults = tally.counts[at].faults;
        if faults > 0 {
            let tests = tests_of(tally, at, job.tests().count());
            rows.push(row_of(job.circuit(), *pin, faults, tests))?;
        }
    }
    Ok(rows)
}

/// Returns a pin that blocks this many faults under this many tests.
fn row_of(circuit: &Circuit, pin: GatePin, faults: u32, tests: u32) -> BlockingPin
    requires { IsGatePin circuit.now pin }
    ensures gate { result.gate ≡ pin.gate }
    ensures pin { result.pin ≡ pin.pin }
    ensures faults { result.faults ≡ faults }
    ensures tests { result.tests ≡ tests }
    ensures read { (kind : Kind) (reads : List ℕ) → gate_of circuit.now pin.gate
        ≡ Some (kind, reads) → slice_get reads pin.pin ≡ Some result.read }
    ensures value { (kind : Kind) (reads : List ℕ) (value : Bool) → gate_of circuit.now pin.gate
        ≡ Some (kind, reads) → controlling kind ≡ Some value → result.value ≡ value }
{
    match circuit.gate_of(pin.gate) {
        Some(gate) => BlockingPin {
            gate: pin.gate,
            pin: pin.pin,
            read: gate.pins[pin.pin as usize],
            value: crate::blocked::controlling_value(gate.kind) == Some(true),
            faults,
            tests,
        },
        None => unreachable!(),
    }
}

/// Returns the number of tests under which a pin blocks a fault.
fn tests_of(tally: &Tally, at: usize, count: u32) -> u32
    requires rows { length tally.now.rows.items ≡ groups count }
    requires at { All (λ row. at < length row) (map (λ row. row.items) tally.now.rows.items) }
    ensures { HaveCount (HasBit (map (λ row. row.items) tally.now.rows.items) at) count result }
{
    let mut tests = 0;
    for test in 0..count {
        tests += bit_of(blocks_under(tally, at, test));
    }
    tests
}

/// Returns whether a pin blocks a fault under a test.
fn blocks_under(tally: &Tally, at: usize, test: u32) -> bool
    requires rows { test / 128 < length tally.now.rows.items }
    requires at { All (λ row. at < length row) (map (λ row. row.items) tally.now.rows.items) }
    ensures { IsTrue result ↔ HasBit (map (λ row. row.items) tally.now.rows.items) at test }
{
    has_lane(tally.rows[(test / 128) as usize][at], test % 128)
}

/// Returns 1 for a flag that is set, else 0.
fn bit_of(flag: bool) -> u32
    ensures { result ≡ (if flag then 1 else 0) }
{
    u32::from(flag)
}

/// Returns whether a lane of a word is 1.
fn has_lane(word: u128, number: u32) -> bool
    requires { number < 128 }
    ensures { result ≡ lane word number }
{
    (word >> number) & 1 == 1
}
