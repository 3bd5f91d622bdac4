//! Gates on wide words, with some of their pins complemented and no other difference.

ghost use Rattle.std.specs.Prelude.{◌≡◌, ℕ, ◌+◌, ◌<◌, ◌≤◌, ◌&&◌, All, List, Some, length};
ghost use Rattle.std.specs.Prelude.{true};
ghost use Rattle.std.specs.List.{list_all};
ghost use Rattle.bench_net.specs.declared.Kind.{Kind};
ghost use Rattle.bench_net.specs.Circuit.{IsCircuit};
ghost use Rattle.bench_net.specs.Scan.{gate_of, names};
ghost use Rattle.fault_model.specs.Solution.{is_odd, value};
ghost use Rattle.wide_words.specs.Wide.{number};
ghost use Rattle.flat_circuit.specs.GateForms.{IsFormOf, inverted_if};
ghost use Rattle.flat_circuit.specs.SlotWords.{AreWithin, copied_bit};
ghost use Rattle.region_sim.specs.Pack.{HaveCounts};
ghost use Rattle.region_sim.specs.Units.{is_turned, turned_bits};
ghost use Rattle.flat_circuit.specs.Words.{lane};

use block_sim::flat::{FlatCircuit, FlatGate};
use block_sim::wide_lanes::in_each_wide_lane;
use wide_words::{Copies, Wide};

/// The pins of a gate that are complemented: those that read a signal, or one.
#[derive(Clone, Copy)]
pub(crate) enum Turned {
    Signal(u32),
    Pin(u32),
}

impl Turned {
    /// Returns whether a pin is complemented, by its place and the signal that it reads.
    #[inline(always)]
    fn has(self, place: usize, read: u32) -> bool
        ensures { result ≡ is_turned self place read }
    {
        match self {
            Turned::Signal(signal) => read == signal,
            Turned::Pin(pin) => place == pin as usize,
        }
    }
}

/// Returns the bits that a gate sees at a pin, complemented in some lanes if the pin is.
#[inline(always)]
fn word_of_pin<C: Copies>(copies: C, turned: Turned, place: usize, read: u32, lanes: Wide) -> Wide
    requires { AreWithin C.layout (C.rows copies) read }
    ensures { (k : ℕ) → k < 512 → lane (number result) k
        ≡ inverted_if (is_turned turned place read && lane (number lanes) k)
        (copied_bit C.layout (C.rows copies) k read) }
{
    let word = copies.of(read);
    if turned.has(place, read) {
        word.xor(lanes)
    } else {
        word
    }
}

/// Returns the lanes in which the bits that a gate sees are all 1, each inverted if its form
/// inverts inputs.
#[inline(always)]
fn all_turned<C: Copies>(gate: FlatGate<'_>, copies: C, turned: Turned, lanes: Wide) -> Wide
    requires { All (AreWithin C.layout (C.rows copies)) gate.pins.now }
    ensures { (k : ℕ) → k < 512 → lane (number result) k
        ≡ list_all (λ b. inverted_if gate.entry.form.inverts_inputs b)
        (turned_bits C.layout (C.rows copies) turned (number lanes) gate.entry.pins.now k) }
{
    let inverted = in_each_wide_lane(gate.form.inverts_inputs);
    let mut all = in_each_wide_lane(true);
    for place in 0..gate.pins.len() {
        let word = word_of_pin(copies, turned, place, gate.pins[place], lanes);
        all = all.and(word.xor(inverted));
    }
    all
}

/// Returns the lanes in which an odd number of the bits that a gate sees are 1.
#[inline(always)]
fn odd_turned<C: Copies>(gate: FlatGate<'_>, copies: C, turned: Turned, lanes: Wide) -> Wide
    requires { All (AreWithin C.layout (C.rows copies)) gate.pins.now }
    ensures { (k : ℕ) → k < 512 → lane (number result) k
        ≡ is_odd
        (turned_bits C.layout (C.rows copies) turned (number lanes) gate.entry.pins.now k) }
{
    let mut odd = Wide::none();
    for place in 0..gate.pins.len() {
        let word = word_of_pin(copies, turned, place, gate.pins[place], lanes);
        odd = odd.xor(word);
    }
    odd
}

/// Returns what a gate gives for the bits that it sees.
#[inline(always)]
fn gate_turned<C: Copies>(gate: FlatGate<'_>, copies: C, turned: Turned, lanes: Wide) -> Wide
    requires form { IsFormOf gate.kind gate.form }
    requires pins { All (AreWithin C.layout (C.rows copies)) gate.pins.now }
    ensures { (k : ℕ) → k < 512 → lane (number result) k ≡ value gate.entry.kind
        (turned_bits C.layout (C.rows copies) turned (number lanes) gate.entry.pins.now k) }
{
    let word = if gate.form.is_xor {
        odd_turned(gate, copies, turned, lanes)
    } else {
        all_turned(gate, copies, turned, lanes)
    };
    word.xor(in_each_wide_lane(gate.form.inverts_output))
}

/// Evaluates a gate with some of its pins complemented in some lanes. Returns those of these lanes
/// in which its signal is another one then.
#[inline(always)]
pub(crate) fn pass<C: Copies>(
    circuit: &FlatCircuit,
    copies: C,
    gate: u32,
    turned: Turned,
    lanes: Wide,
) -> Wide
    requires circuit { IsCircuit circuit.now.arranged }
    requires view { HaveCounts circuit.now.arranged C.layout (C.rows copies) }
    requires within { gate < length (names circuit.now.arranged) }
    requires driven { (line : Kind × List ℕ) × (gate_of circuit.now.arranged gate ≡ Some line) }
    ensures inside { (k : ℕ) → lane (number result) k ≡ true → lane (number lanes) k ≡ true }
    ensures changed { (kind : Kind) (pins : List ℕ) (k : ℕ)
        → gate_of circuit.now.arranged gate ≡ Some (kind, pins) → k < 512
        → lane (number lanes) k ≡ true
        → inverted_if (lane (number result) k) (copied_bit C.layout (C.rows copies) k gate)
        ≡ value kind
        (turned_bits C.layout (C.rows copies) turned (number lanes) pins k) }
{
    match circuit.gate_of(gate) {
        Some(driver) => {
            let word = gate_turned(driver, copies, turned, lanes);
            word.xor(copies.of(gate)).and(lanes)
        }
        None => unreachable!(),
    }
}
