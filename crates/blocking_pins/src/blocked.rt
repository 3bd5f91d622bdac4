//! The lanes in which a pin of a gate blocks the effect of a fault.

ghost use Rattle.std.specs.Prelude.{◌≡◌, ◌<◌, ◌≤◌, ◌^◌, All, ℕ, Some, length, slice_index_or, true};
ghost use Rattle.std.specs.Bool.{Decides};
ghost use Rattle.bench_net.specs.Circuit.{max_sinks};
ghost use Rattle.fault_model.specs.declared.Line.TheVariants.{Pin};
ghost use Rattle.fault_model.specs.Solution.{under};
ghost use Rattle.flat_circuit.specs.Stuck.{stuck_fault};
ghost use Rattle.flat_circuit.specs.Words.{lane, word_over};
ghost use Rattle.blocking_pins.specs.Blocking.{controlling};
ghost use Rattle.blocking_pins.specs.Effects.{Differs};

use bench_net::Kind;
use fault_model::Line;
use flat_circuit::block_lanes::in_each_lane;
use flat_circuit::words::Stuck;

/// Returns the value of a pin that decides the output of a gate, whatever the other pins have. Only
/// AND, NAND, OR and NOR have one.
pub(crate) fn controlling_value(kind: Kind) -> Option<bool>
    ensures { result ≡ controlling kind }
{
    match kind {
        Kind::And | Kind::Nand => Some(false),
        Kind::Or | Kind::Nor => Some(true),
        Kind::Xor | Kind::Xnor | Kind::Not | Kind::Buff => None,
    }
}

/// A gate of a circuit under a fault: the words without a fault, and the lanes in which each signal
/// differs.
#[derive(Clone, Copy)]
pub(crate) struct FaultyGate<'a> {
    pub(crate) good: &'a [u128],
    pub(crate) delta: &'a [u128],
    pub(crate) fault: Stuck,
    /// The place of the gate.
    pub(crate) place: u32,
}

/// Returns the word that a pin of a gate sees, by the signal that it reads.
#[inline(always)]
fn seen(gate: FaultyGate<'_>, pin: usize, read: u32) -> u128
    requires pin { pin < 2 ^ 32 }
    requires read { read < length gate.good.now }
    requires room { length gate.good.now ≤ length gate.delta.now }
    ensures { (k : ℕ) → k < 128 → lane result k
        ≡ under (Some (stuck_fault gate.entry.fault)) (Pin gate.entry.place pin)
        (lane (word_over gate.entry.good.now gate.entry.delta.now read) k) }
{
    let own = Line::Pin {
        gate: gate.place,
        pin: pin as u32,
    };
    if gate.fault.line == own {
        gate.fault.word()
    } else {
        gate.good[read as usize] ^ gate.delta[read as usize]
    }
}

/// Returns the lanes in which some pin of a gate sees another bit than without the fault.
#[inline(always)]
pub(crate) fn entered(gate: FaultyGate<'_>, pins: &[u32]) -> u128
    requires few { length pins.now ≤ max_sinks }
    requires within { All (λ read. read < length gate.good.now) pins.now }
    requires room { length gate.good.now ≤ length gate.delta.now }
    ensures { (k : ℕ) → k < 128 → Decides (lane result k)
        (Differs (stuck_fault gate.entry.fault) gate.entry.good.now gate.entry.delta.now
        gate.entry.place pins.now k) }
{
    let mut entered = 0;
    for (pin, read) in pins.iter().enumerate() {
        entered |= seen(gate, pin, *read) ^ gate.good[*read as usize];
    }
    entered
}

/// Returns the lanes, among some, in which a pin of a gate sees a value both with the fault and
/// without it.
#[inline(always)]
pub(crate) fn steady(gate: FaultyGate<'_>, pin: usize, read: u32, value: bool, lanes: u128) -> u128
    requires pin { pin < 2 ^ 32 }
    requires read { read < length gate.good.now }
    requires room { length gate.good.now ≤ length gate.delta.now }
    ensures { (k : ℕ) → k < 128 → Decides (lane result k) ((lane lanes k ≡ true)
        × (lane (slice_index_or gate.entry.good.now read 0) k ≡ value)
        × (under (Some (stuck_fault gate.entry.fault)) (Pin gate.entry.place pin)
        (lane (word_over gate.entry.good.now gate.entry.delta.now read) k) ≡ value)) }
{
    let other = in_each_lane(!value);
    let free = gate.good[read as usize] ^ other;
    let faulty = seen(gate, pin, read) ^ other;
    lanes & free & faulty
}
