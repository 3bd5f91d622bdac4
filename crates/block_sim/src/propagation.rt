//! Simulation by events: the change of one signal spreads from gate to gate, in the order of their
//! places.
//!
//! The fault-free words stay as they are. An overlay has for each signal the lanes in which it
//! differs, and a gate is evaluated only if a signal that it reads differs (event-driven
//! simulation: Bushnell and Agrawal, Essentials of Electronic Testing).

ghost use Rattle.std.specs.Prelude.{◌≡◌, ◌≢◌, ◌⊎◌, ◌↔◌, ℕ, ◌+◌, ◌<◌, ◌≤◌, ◌==◌, Contains, List};
ghost use Rattle.std.specs.Prelude.{IfNone, IfSome, IsTrue};
ghost use Rattle.std.specs.Prelude.{true, false, length, bit_or, count_by, slice_index_or};
ghost use Rattle.std.specs.Prelude.{None, slice_set};
ghost use Rattle.std.specs.Bool.{Decides};
ghost use Rattle.bench_net.specs.Scan.{names};
ghost use Rattle.bench_net.specs.Circuit.{IsCircuit};
ghost use Rattle.fault_model.specs.Fault.{Fault};
ghost use Rattle.fault_model.specs.Solution.{Test};
ghost use Rattle.block_sim.specs.PropagationState.{HasRoomFor, IsAsLarge, IsClear, IsTaken};
ghost use Rattle.flat_circuit.specs.Readers.{IsObserved};
ghost use Rattle.block_sim.specs.Events.{AreScheduled};
ghost use Rattle.block_sim.specs.Moments.{Leads, moment, not_yet_taken};
ghost use Rattle.block_sim.specs.Propagation.{AreShown, HaveHits, IsFirstChange, IsSettled};
ghost use Rattle.block_sim.specs.Propagation.{LeavesSettled};
ghost use Rattle.block_sim.specs.ActiveGates.{AreInGroup, HasActiveIn};
ghost use Rattle.block_sim.specs.Flips.{DetectsFlip};
ghost use Rattle.flat_circuit.specs.Words.{lane, test_of, AreWords, HasWords};

use crate::propagation_state::PropagationState;
use event_queue::Places;
use flat_circuit::block_lanes::lanes_below;
use flat_circuit::block_view::BlockView;
use flat_circuit::flat::FlatCircuit;
use flat_circuit::words::evaluate_gate;

/// A followed class, the place where its result is kept, and the lanes in which its fault reached
/// the start of the simulation.
#[derive(Clone, Copy)]
pub struct Followed {
    pub class: u32,
    pub place: usize,
    pub lanes: u128,
}

/// The extent to which the lanes of a group are followed.
#[derive(Clone, Copy)]
pub enum Extent<'a> {
    /// Each lane to the end.
    WholeBlock,
    /// Each lane below the least of its own lanes in which a difference was observed, for some of
    /// the followed classes.
    FirstHits(&'a [Followed]),
}

impl Extent<'_> {
    /// Returns the lanes that are still followed, among these, after these lanes were seen.
    #[inline(always)]
    fn followed(self, lanes: u128, seen: u128) -> u128
        ensures within { (k : ℕ) → k < 128 → lane result k ≡ true → lane lanes k ≡ true }
        ensures rest { (k : ℕ) → k < 128 → lane lanes k ≡ true → lane result k ≡ false
            → IsSettled self.entry seen k }
        ensures below { (k : ℕ) → k < 128 → IsSettled self.entry seen k → lane result k ≡ false }
    {
        match self {
            Extent::WholeBlock => lanes,
            Extent::FirstHits(followed) => lanes & below_hits(followed, seen),
        }
    }
}

/// Returns the lanes of some of the followed classes, each below the least of its own that was
/// seen.
pub fn below_hits(followed: &[Followed], seen: u128) -> u128
    ensures below { (k : ℕ) → k < 128 → lane result k ≡ true → (one : Followed)
        × Contains followed.now one × (lane one.lanes k ≡ true)
        × ((j : ℕ) → j ≤ k → lane one.lanes j ≡ true → lane seen j ≡ false) }
    ensures rest { (k : ℕ) → k < 128 → lane result k ≡ false
        → HaveHits followed.now seen k }
{
    let mut below = 0;
    for one in followed {
        let hits = one.lanes & seen;
        below |= one.lanes & lanes_below(hits.trailing_zeros());
    }
    below
}

/// Lets the gates that read a signal wait, and returns whether an observer reads it.
#[inline(always)]
pub fn schedule_fanout(circuit: &FlatCircuit, signal: u32, waiting: &mut Places) -> bool
    requires circuit { IsCircuit circuit.now.arranged }
    requires signal { signal < length (names circuit.now.arranged) }
    requires gates { length (names circuit.now.arranged) ≤ length waiting.old }
    ensures scheduled { AreScheduled circuit.now.arranged signal waiting.old waiting.new }
    ensures observed { IsTrue result ↔ IsObserved circuit.now.arranged signal }
    ensures gates { length waiting.new ≡ length waiting.old }
{
    for reader in circuit.readers_of(signal) {
        waiting.add(*reader);
    }
    circuit.is_observed(signal)
}

/// Lets a signal differ in some lanes, so that its readers wait, and returns the lanes in which an
/// observer sees it.
#[inline(always)]
fn change(circuit: &FlatCircuit, signal: u32, diff: u128, changes: &mut PropagationState) -> u128
    requires circuit { IsCircuit circuit.now.arranged }
    requires signal { signal < length (names circuit.now.arranged) }
    requires room { HasRoomFor circuit.now.arranged changes.old }
    requires clear { slice_index_or changes.old.overlay signal 0 ≡ 0 }
    requires differs { diff ≢ 0 }
    ensures changed { changes.new.overlay ≡ slice_set changes.old.overlay signal diff }
    ensures scheduled { AreScheduled circuit.now.arranged signal changes.old.waiting
        changes.new.waiting }
    ensures shown { (k : ℕ) → k < 128
        → Decides (lane result k) (IsObserved circuit.now.arranged signal × (lane diff k ≡ true)) }
    ensures some { (k : ℕ) × (k < 128) × (lane diff k ≡ true) }
    ensures evaluations { changes.new.evaluations ≡ changes.old.evaluations }
    ensures room { IsAsLarge changes.old changes.new }
{
    changes.overlay.change(signal, diff);
    if schedule_fanout(circuit, signal, &mut changes.waiting) {
        diff
    } else {
        0
    }
}

/// Evaluates a gate that waited, and lets its signal differ if its word does in some of the
/// followed lanes. Returns the lanes in which an observer sees that.
#[inline(always)]
fn evaluate_waiting(
    view: BlockView<'_>,
    kept: u128,
    gate: u32,
    changes: &mut PropagationState,
) -> u128
    requires view { HasWords view.circuit.now.arranged view.good.now }
    requires room { HasRoomFor view.circuit.now.arranged changes.old }
    requires taken { IsTaken view.circuit.now.arranged changes.old gate }
    ensures leads { (seen : ℕ) → Leads
        view.entry.circuit.now.arranged view.entry.good.now view.entry.lanes
        (not_yet_taken gate (moment changes.old gate kept seen))
        (moment changes.new gate kept (bit_or seen result)) }
    ensures idle { slice_index_or changes.new.waiting gate 0 ≡ 0 }
    ensures room { IsAsLarge changes.old changes.new }
{
    match view.circuit.gate_of(gate) {
        Some(driver) => {
            let delta = changes.overlay.words();
            let evaluations = &mut changes.evaluations;
            let word = evaluate_gate(driver, gate, None, view.good, delta, evaluations);
            let diff = (word ^ view.good[gate as usize]) & kept;
            if diff == 0 {
                return 0;
            }
            change(view.circuit, gate, diff, changes)
        }
        None => unreachable!(),
    }
}

/// The lanes in which an observer has seen a difference, and the lanes that are still followed.
#[derive(Clone, Copy)]
struct Found {
    detected: u128,
    followed: u128,
}

/// Evaluates the gate that was taken, the least of the waiting ones, and returns the lanes found so
/// far.
#[inline(always)]
fn follow_gate(
    view: BlockView<'_>,
    extent: Extent<'_>,
    gate: u32,
    found: Found,
    changes: &mut PropagationState,
) -> Found
    requires view { HasWords view.circuit.now.arranged view.good.now }
    requires room { HasRoomFor view.circuit.now.arranged changes.old }
    requires taken { IsTaken view.circuit.now.arranged changes.old gate }
    ensures leads { Leads view.entry.circuit.now.arranged view.entry.good.now view.entry.lanes
        (not_yet_taken gate (moment changes.old gate found.followed found.detected))
        (moment changes.new gate result.followed result.detected) }
    ensures idle { slice_index_or changes.new.waiting gate 0 ≡ 0 }
    ensures settled { LeavesSettled extent.entry view.entry.lanes found.followed found.detected
        → LeavesSettled extent.entry view.entry.lanes result.followed result.detected }
    ensures room { IsAsLarge changes.old changes.new }
{
    let detected = found.detected | evaluate_waiting(view, found.followed, gate, changes);
    if detected == found.detected {
        return found;
    }
    Found {
        detected,
        followed: extent.followed(found.followed, detected),
    }
}

/// Takes the least gate that waits, from a place before which none does. `None` if none waits, or
/// if no lane is followed any more, because then nothing can change the result.
#[inline(always)]
fn next_gate(followed: u128, from: u32, waiting: &mut Places) -> Option<u32>
    requires within { from < length waiting.old }
    requires low { (gate : ℕ) → slice_index_or waiting.old gate 0 ≢ 0 → from ≤ gate }
    ensures none { IfNone result ((waiting.new ≡ waiting.old)
        × ((followed ≡ 0) ⊎ ((gate : ℕ) → slice_index_or waiting.old gate 0 ≡ 0))) }
    ensures some { IfSome result (λ gate. (slice_index_or waiting.old gate 0 ≡ 1)
        × (waiting.new ≡ slice_set waiting.old gate 0)) }
    ensures least { IfSome result (λ gate. (other : ℕ)
        → slice_index_or waiting.old other 0 ≢ 0 → gate ≤ other) }
{
    if followed == 0 {
        return None;
    }
    waiting.take(from)
}

/// Spreads the first change of a fault: of one signal in some of the requested lanes; each lane may
/// have a fault of its own. Returns lanes in which an observer shows another bit: all such lanes,
/// or if first hits are requested some of them with the least of each.
pub fn propagate(
    view: BlockView<'_>,
    extent: Extent<'_>,
    start: u32,
    diff: u128,
    changes: &mut PropagationState,
) -> u128
    requires view { HasWords view.circuit.now.arranged view.good.now }
    requires room { HasRoomFor view.circuit.now.arranged changes.old }
    requires clear { IsClear changes.old }
    requires start { start < length (names view.circuit.now.arranged) }
    requires inside { (k : ℕ) → k < 128 → lane diff k ≡ true → lane view.lanes k ≡ true }
    requires first { (tests : List Test) × (group : ℕ) × (f : ℕ → Fault) × IsFirstChange
        view.circuit.now.arranged tests group f view.good.now view.lanes changes.old.overlay start
        diff }
    ensures shown { (tests : List Test) (group : ℕ) (f : ℕ → Fault) → IsFirstChange
        view.entry.circuit.now.arranged tests group f view.entry.good.now view.entry.lanes
        changes.old.overlay start diff → AreShown
        view.entry.circuit.now.arranged tests group f view.entry.good.now view.entry.lanes
        (IsSettled extent.entry result) result }
    ensures counted { (tests : List Test) (group : ℕ) (f : ℕ → Fault) (gates : List ℕ)
        → IsFirstChange
        view.entry.circuit.now.arranged tests group f view.entry.good.now view.entry.lanes
        changes.old.overlay start diff
        → AreInGroup tests group view.entry.lanes
        → HasActiveIn view.entry.circuit.now.arranged tests group view.entry.lanes f gates
        → changes.new.evaluations + count_by (λ g. g == start) gates
        ≤ changes.old.evaluations + length gates }
    ensures grown { changes.old.evaluations ≤ changes.new.evaluations }
    ensures room { IsAsLarge changes.old changes.new }
    ensures clear { IsClear changes.new }
{
    if diff == 0 {
        return 0;
    }
    let seen = change(view.circuit, start, diff, changes);
    let kept = extent.followed(view.lanes, seen);
    let mut found = Found {
        detected: seen,
        followed: kept,
    };
    let _signals = view.circuit.signals();
    let mut from = start;
    while let Some(gate) = next_gate(found.followed, from, &mut changes.waiting) {
        found = follow_gate(view, extent, gate, found, changes);
        from = gate + 1;
    }
    changes.waiting.clear(from);
    changes.overlay.clear();
    found.detected
}

/// Complements a signal in some lanes, and returns those of them in which the test detects that.
/// Each test detects a complemented signal that is observed.
pub fn flip_in_lanes(
    view: BlockView<'_>,
    signal: u32,
    lanes: u128,
    changes: &mut PropagationState,
) -> u128
    requires view { HasWords view.circuit.now.arranged view.good.now }
    requires words { (tests : List Test) × (group : ℕ)
        × AreWords view.circuit.now.arranged tests group None view.good.now }
    requires room { HasRoomFor view.circuit.now.arranged changes.old }
    requires clear { IsClear changes.old }
    requires signal { signal < length (names view.circuit.now.arranged) }
    ensures detection { (tests : List Test) (group : ℕ)
        → AreWords view.entry.circuit.now.arranged tests group None view.entry.good.now
        → (k : ℕ) → k < 128 → lane lanes k ≡ true → Decides (lane result k)
        (DetectsFlip view.entry.circuit.now.arranged (test_of tests group k) signal) }
    ensures room { IsAsLarge changes.old changes.new }
    ensures clear { IsClear changes.new }
{
    if view.circuit.is_observed(signal) {
        return lanes;
    }
    let own = BlockView {
        circuit: view.circuit,
        good: view.good,
        lanes,
    };
    propagate(own, Extent::WholeBlock, signal, lanes, changes)
}
