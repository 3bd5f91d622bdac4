//! Packs: several stems are simulated at once, each in lanes of its own.
//!
//! A wide word has 512 lanes: the tests of one block in eight copies, those of a group of two
//! blocks in four, or those of four groups. Each stem of a pack has a slot, and differs from the
//! start in the lanes of that slot alone. So lane `k` stands for a pair of a test and a stem. One
//! stem that has four slots, each with the tests of a group of its own, is simulated on 512 tests
//! at once.
//!
//! Fault-free words stand once, as the groups have them, and are put side by side as they are read.

ghost use Rattle.std.specs.Prelude.{◌≡◌, ◌≢◌, ◌⊎◌, ℕ, ◌+◌, ◌^◌, ◌<◌, ◌≤◌, ◌||◌, All, IfNone, IfOk};
ghost use Rattle.std.specs.Prelude.{IfSome, List, None, Some, [], bit_or, false, length, map};
ghost use Rattle.std.specs.Prelude.{slice_index_or, slice_set, true, vec_capacity};
ghost use Rattle.std.specs.Bool.{Decides};
ghost use Rattle.std.specs.List.{list_all};
ghost use Rattle.bench_net.specs.declared.Kind.{Kind};
ghost use Rattle.bench_net.specs.Scan.{gate_of, names};
ghost use Rattle.bench_net.specs.Circuit.{IsCircuit};
ghost use Rattle.fault_model.specs.Solution.{Test, is_odd};
ghost use Rattle.wide_words.specs.Lanes.{lane_in, slot_of, slots};
ghost use Rattle.wide_words.specs.Wide.{number};
ghost use Rattle.flat_circuit.specs.Readers.{IsObserved};
ghost use Rattle.block_sim.specs.Events.{AreScheduled};
ghost use Rattle.flat_circuit.specs.Flat.{HasEnds};
ghost use Rattle.flat_circuit.specs.GateForms.{inverted_if};
ghost use Rattle.region_sim.specs.Pack.{AreGateRows, AreHitIn, AreKeptAfter, AreRows, AreSlots};
ghost use Rattle.region_sim.specs.Pack.{AreStarted, HasPackRoom, HaveCounts};
ghost use Rattle.region_sim.specs.Pack.{HaveHitsIn, HaveLane, IsDifference, IsEvaluated};
ghost use Rattle.region_sim.specs.Pack.{IsPackClear, IsWithin, TellsPack, wide_bit};
ghost use Rattle.flat_circuit.specs.SlotWords.{AreWithin};
ghost use Rattle.flat_circuit.specs.Words.{lane};

use crate::goal::Goal;
use block_sim::flat::{FlatCircuit, FlatGate};
use block_sim::propagation::{Followed, below_hits, schedule_fanout};
use block_sim::wide_lanes::in_each_wide_lane;
use event_queue::Places;
use std::alloc::{AllocError, Global};
use wide_words::{Copies, Wide, WideOverlay};

/// A stem that differs in the lanes of one slot from the start, and the part of the followed
/// classes that came to it: from one up to another.
#[derive(Clone, Copy)]
pub(crate) struct Slot {
    pub(crate) stem: u32,
    pub(crate) begin: usize,
    pub(crate) end: usize,
}

/// The words that differ, the gates that wait, and the stems of a pack.
#[derive(Drop)]
pub(crate) struct Pack {
    pub(crate) deltas: WideOverlay,
    pub(crate) waiting: Places,
    pub(crate) slots: Vec<Slot>,
}

impl Pack {
    /// Makes room for this many signals and for eight stems: no signal differs, no gate waits, and
    /// there is no stem.
    pub(crate) fn new(alloc: Global, signals: u32) -> Result<Pack, AllocError>
        ensures clear { IfOk result IsPackClear }
        ensures room { IfOk result (λ pack. (length pack.deltas ≡ signals)
            × (signals < length pack.waiting)) }
        ensures slots { IfOk result (λ pack. pack.slots.items ≡ []) }
        ensures capacity { IfOk result (λ pack. 8 ≤ vec_capacity pack.slots) }
    {
        let deltas = WideOverlay::new(alloc, signals)?;
        let waiting = Places::new(alloc, signals)?;
        let slots = Vec::with_capacity(alloc, 8)?;
        Ok(Pack {
            deltas,
            waiting,
            slots,
        })
    }
}

/// Returns the bits that a gate sees at a pin, in each slot, inverted if this is asked for.
#[inline(always)]
fn pin_lanes<C: Copies>(copies: C, turn: bool, deltas: &WideOverlay, pin: u32) -> Wide
    requires pin { AreWithin C.layout (C.rows copies) pin }
    requires room { pin < length deltas.now }
    ensures { (k : ℕ) → k < 512 → lane (number result) k
        ≡ inverted_if turn (wide_bit C.layout (C.rows copies) deltas.now k pin) }
{
    copies
        .of(pin)
        .xor(in_each_wide_lane(turn))
        .xor(deltas.lanes_of(pin))
}

/// Returns the lanes in which the bits that a gate sees are all 1, each inverted if its form
/// inverts inputs. It reads the first pin and the last apart from the others, as `folds_of` does.
#[inline(always)]
fn lanes_of_all<C: Copies>(gate: FlatGate<'_>, copies: C, deltas: &WideOverlay) -> Wide
    requires some { 0 < length gate.pins.now }
    requires pins_in { All (AreWithin C.layout (C.rows copies)) gate.pins.now }
    requires room { All (λ p. p < length deltas.now) gate.pins.now }
    requires ends { HasEnds gate.pins.now gate.first gate.last }
    ensures { (k : ℕ) → k < 512 → lane (number result) k
        ≡ list_all (λ b. inverted_if gate.entry.form.inverts_inputs b)
        (map (wide_bit C.layout (C.rows copies) deltas.now k) gate.entry.pins.now) }
{
    let turn = gate.form.inverts_inputs;
    let last = gate.pins.len() - 1;
    let mut all = pin_lanes(copies, turn, deltas, gate.first);
    for place in 1..last {
        let word = pin_lanes(copies, turn, deltas, gate.pins[place]);
        all = all.and(word);
    }
    let word = pin_lanes(copies, turn, deltas, gate.last);
    all.and(word)
}

/// Returns the lanes in which an odd number of the signals that a gate reads differ.
#[inline(always)]
fn lanes_of_odd(gate: FlatGate<'_>, deltas: &WideOverlay) -> Wide
    requires some { 0 < length gate.pins.now }
    requires pins_in { All (λ p. p < length deltas.now) gate.pins.now }
    requires ends { HasEnds gate.pins.now gate.first gate.last }
    ensures { (k : ℕ) → k < 512 → lane (number result) k
        ≡ is_odd (map (λ s. lane (slice_index_or deltas.now s 0) k) gate.entry.pins.now) }
{
    let last = gate.pins.len() - 1;
    let mut odd = deltas.lanes_of(gate.first);
    for place in 1..last {
        let word = deltas.lanes_of(gate.pins[place]);
        odd = odd.xor(word);
    }
    if last == 0 {
        return odd;
    }
    odd.xor(deltas.lanes_of(gate.last))
}

/// Returns the lanes in which the signal of a gate differs, by what its pins see. An XOR differs
/// where an odd number of its pins do, whatever their fault-free bits are.
#[inline(always)]
fn difference<C: Copies>(circuit: &FlatCircuit, copies: C, gate: u32, deltas: &WideOverlay) -> Wide
    requires circuit { IsCircuit circuit.now.arranged }
    requires view { HaveCounts circuit.now.arranged C.layout (C.rows copies) }
    requires words { AreGateRows circuit.now.arranged C.layout (C.rows copies) }
    requires room { length (names circuit.now.arranged) ≤ length deltas.now }
    requires within { gate < length (names circuit.now.arranged) }
    requires driven { (line : Kind × List ℕ) × (gate_of circuit.now.arranged gate ≡ Some line) }
    ensures { IsDifference circuit.now.arranged C.layout (C.rows copies) deltas.now gate
        (number result) }
{
    match circuit.gate_of(gate) {
        Some(driver) => {
            if driver.form.is_xor {
                return lanes_of_odd(driver, deltas);
            }
            let word = copies
                .of(gate)
                .xor(in_each_wide_lane(driver.form.inverts_output));
            lanes_of_all(driver, copies, deltas).xor(word)
        }
        None => unreachable!(),
    }
}

/// Returns the lanes in which some of the followed classes came to a stem.
fn lanes_of_classes(followed: &[Followed]) -> u128
    ensures { (j : ℕ) → j < 128 → Decides (lane result j) (HaveLane followed.now j) }
{
    let mut lanes = 0;
    for one in followed {
        lanes |= one.lanes;
    }
    lanes
}

/// Returns the word with which the stem of a slot differs at the start: in the lanes of its slot in
/// which its classes came to it.
#[inline(always)]
fn lanes_of_stem<C: Copies>(copies: C, followed: &[Followed], slot: usize) -> Wide
    requires { slot < slots C.layout }
    ensures own { (k : ℕ) → k < 512 → slot_of C.layout k ≡ slot
        → Decides (lane (number result) k) (HaveLane followed.now (lane_in C.layout k)) }
    ensures others { (k : ℕ) → k < 512 → slot_of C.layout k ≢ slot
        → lane (number result) k ≡ false }
{
    copies.put(slot, lanes_of_classes(followed))
}

/// Returns the lanes that are still followed, in one slot each below the hits of its classes.
#[inline(always)]
fn kept_in_slot<C: Copies>(
    copies: C,
    followed: &[Followed],
    slot: usize,
    kept: Wide,
    seen: Wide,
) -> Wide
    requires { slot < slots C.layout }
    ensures own { (k : ℕ) → k < 512 → slot_of C.layout k ≡ slot
        → Decides (lane (number result) k) ((lane (number kept) k ≡ true)
        × (HaveHitsIn C.layout followed.now (number seen) k → ⊥)) }
    ensures others { (k : ℕ) → k < 512 → slot_of C.layout k ≢ slot
        → lane (number result) k ≡ lane (number kept) k }
{
    let lanes = copies.part(slot, kept);
    let below = below_hits(followed, copies.part(slot, seen));
    kept.xor(copies.put(slot, lanes ^ (lanes & below)))
}

/// Returns the lanes that are still followed after more were seen: in each slot in which some are
/// fresh, those below the hits of its classes.
#[inline(never)]
fn kept_after<C: Copies>(
    copies: C,
    followed: &[Followed],
    stems: &[Slot],
    kept: Wide,
    fresh: Wide,
    seen: Wide,
) -> Wide
    requires slots { length stems.now ≤ slots C.layout }
    requires within { All (IsWithin followed.now) stems.now }
    ensures { AreKeptAfter C.layout followed.now stems.now (number kept) (number fresh)
        (number seen) (number result) (length stems.now) }
{
    let mut rest = kept;
    for slot in 0..stems.len() {
        if copies.part(slot, fresh) != 0 {
            let at = stems[slot];
            rest = kept_in_slot(copies, &followed[at.begin..at.end], slot, rest, seen);
        }
    }
    rest
}

/// Lets a signal differ that did not, so that its readers wait, and returns the lanes in which an
/// observer sees it.
#[inline(always)]
fn change(
    circuit: &FlatCircuit,
    signal: u32,
    word: Wide,
    deltas: &mut WideOverlay,
    waiting: &mut Places,
) -> Wide
    requires circuit { IsCircuit circuit.now.arranged }
    requires signal { signal < length (names circuit.now.arranged) }
    requires deltas { length (names circuit.now.arranged) ≤ length deltas.old }
    requires gates { length (names circuit.now.arranged) ≤ length waiting.old }
    requires clear { slice_index_or deltas.old signal 0 ≡ 0 }
    requires word { number word ≢ 0 }
    ensures changed { deltas.new ≡ slice_set deltas.old signal (number word) }
    ensures scheduled { AreScheduled circuit.now.arranged signal waiting.old waiting.new }
    ensures shown { (k : ℕ) → k < 512 → Decides (lane (number result) k)
        (IsObserved circuit.now.arranged signal × (lane (number word) k ≡ true)) }
    ensures gates { length waiting.new ≡ length waiting.old }
{
    deltas.change(signal, word);
    if schedule_fanout(circuit, signal, waiting) {
        word
    } else {
        Wide::none()
    }
}

/// Lets the signal of a gate that waited differ in the followed lanes in which its gate says so,
/// and returns those of them in which an observer sees this. The signal of a stem differs already,
/// in its own slot, and its readers wait: it differs in these lanes too.
#[inline(always)]
fn evaluate_waiting<C: Copies>(
    circuit: &FlatCircuit,
    copies: C,
    kept: Wide,
    gate: u32,
    deltas: &mut WideOverlay,
    waiting: &mut Places,
) -> Wide
    requires circuit { IsCircuit circuit.now.arranged }
    requires view { HaveCounts circuit.now.arranged C.layout (C.rows copies) }
    requires words { AreGateRows circuit.now.arranged C.layout (C.rows copies) }
    requires room { length (names circuit.now.arranged) ≤ length deltas.old }
    requires gates { length (names circuit.now.arranged) ≤ length waiting.old }
    requires within { gate < length (names circuit.now.arranged) }
    requires driven { (line : Kind × List ℕ) × (gate_of circuit.now.arranged gate ≡ Some line) }
    ensures evaluated { IsEvaluated circuit.now.arranged C.layout (C.rows copies) (number kept)
        gate deltas.old deltas.new }
    ensures scheduled { slice_index_or deltas.old gate 0 ≡ 0
        → slice_index_or deltas.new gate 0 ≢ 0
        → AreScheduled circuit.now.arranged gate waiting.old waiting.new }
    ensures same { (slice_index_or deltas.old gate 0 ≢ 0) ⊎ (slice_index_or deltas.new gate 0 ≡ 0)
        → waiting.new ≡ waiting.old }
    ensures some { slice_index_or deltas.old gate 0 ≡ 0 → slice_index_or deltas.new gate 0 ≢ 0
        → (k : ℕ) × (k < 512) × (lane (slice_index_or deltas.new gate 0) k ≡ true) }
    ensures shown { (k : ℕ) → k < 512 → Decides (lane (number result) k)
        (IsObserved circuit.now.arranged gate × (slice_index_or deltas.old gate 0 ≡ 0)
        × (lane (slice_index_or deltas.new gate 0) k ≡ true)) }
    ensures gates { length waiting.new ≡ length waiting.old }
{
    let word = difference(circuit, copies, gate, deltas).and(kept);
    if deltas.differs(gate) {
        deltas.join(gate, word);
        return Wide::none();
    }
    if word.is_none() {
        return Wide::none();
    }
    change(circuit, gate, word, deltas, waiting)
}

/// The lanes that are followed at the start, and the least place of a stem that differs.
#[derive(Clone, Copy)]
struct Begun {
    kept: Wide,
    from: u32,
}

/// The lanes that are still followed, and those in which an observer has seen a difference.
#[derive(Clone, Copy)]
struct PackFound {
    kept: Wide,
    seen: Wide,
}

/// Lets a stem differ in some lanes more than it did, so that its readers wait.
#[inline(always)]
fn begin_stem(
    circuit: &FlatCircuit,
    stem: u32,
    lanes: Wide,
    deltas: &mut WideOverlay,
    waiting: &mut Places,
)
    requires circuit { IsCircuit circuit.now.arranged }
    requires signal { stem < length (names circuit.now.arranged) }
    requires deltas { length (names circuit.now.arranged) ≤ length deltas.old }
    requires gates { length (names circuit.now.arranged) ≤ length waiting.old }
    requires lanes { number lanes ≢ 0 }
    ensures changed { deltas.new ≡ slice_set deltas.old stem
        (bit_or (slice_index_or deltas.old stem 0) (number lanes)) }
    ensures scheduled { slice_index_or deltas.old stem 0 ≡ 0
        → AreScheduled circuit.now.arranged stem waiting.old waiting.new }
    ensures same { slice_index_or deltas.old stem 0 ≢ 0 → waiting.new ≡ waiting.old }
    ensures gates { length waiting.new ≡ length waiting.old }
{
    if deltas.differs(stem) {
        deltas.join(stem, lanes);
        return;
    }
    change(circuit, stem, lanes, deltas, waiting);
}

/// Lets each stem of a pack differ in its own slot, in the lanes in which its classes came to it.
fn begin_stems<C: Copies>(
    circuit: &FlatCircuit,
    copies: C,
    followed: &[Followed],
    stems: &[Slot],
    deltas: &mut WideOverlay,
    waiting: &mut Places,
) -> Begun
    requires circuit { IsCircuit circuit.now.arranged }
    requires slots { AreSlots C.layout circuit.now.arranged stems.now followed.now }
    requires room { (length (names circuit.now.arranged) ≤ length deltas.old)
        × (length (names circuit.now.arranged) < length waiting.old) }
    requires clear { All (λ word. word ≡ 0) deltas.old × All (λ at. at ≡ 0) waiting.old }
    ensures started { AreStarted C.layout circuit.now.arranged stems.now followed.now deltas.new
        waiting.new (number result.kept) result.from }
    ensures within { result.from ≤ length (names circuit.now.arranged) }
    ensures room { (length deltas.new ≡ length deltas.old)
        × (length waiting.new ≡ length waiting.old) }
{
    let mut kept = Wide::none();
    let mut from = circuit.signals();
    for slot in 0..stems.len() {
        let one = stems[slot];
        let lanes = lanes_of_stem(copies, &followed[one.begin..one.end], slot);
        if !lanes.is_none() {
            kept = kept.or(lanes);
            from = from.min(one.stem);
            begin_stem(circuit, one.stem, lanes, deltas, waiting);
        }
    }
    Begun { kept, from }
}

/// Returns the lanes that are followed and seen, after an observer saw a difference in fresh ones.
#[inline(always)]
fn follow_on<C: Copies, G: Goal>(
    copies: C,
    followed: &[Followed],
    stems: &[Slot],
    found: PackFound,
    fresh: Wide,
) -> PackFound
    requires slots { length stems.now ≤ slots C.layout }
    requires within { All (IsWithin followed.now) stems.now }
    ensures seen { (k : ℕ) → k < 512 → lane (number result.seen) k
        ≡ (lane (number found.seen) k || lane (number fresh) k) }
    ensures narrow { (k : ℕ) → k < 512 → lane (number result.kept) k ≡ true
        → lane (number found.kept) k ≡ true }
    ensures rest { (k : ℕ) → k < 512 → lane (number found.kept) k ≡ true
        → lane (number result.kept) k ≡ false → (G.ALL_LANES ≡ false)
        × AreHitIn C.layout stems.now followed.now (number result.seen) k }
{
    if fresh.is_none() {
        return found;
    }
    let seen = found.seen.or(fresh);
    if G::ALL_LANES {
        let kept = found.kept;
        return PackFound { kept, seen };
    }
    let kept = kept_after(copies, followed, stems, found.kept, fresh, seen);
    PackFound { kept, seen }
}

/// Takes the least gate that waits, from a place before which none does. `None` if none waits, or
/// if no lane is followed any more.
#[inline(always)]
fn next_gate(kept: Wide, from: u32, waiting: &mut Places) -> Option<u32>
    requires within { from < length waiting.old }
    requires low { (gate : ℕ) → slice_index_or waiting.old gate 0 ≢ 0 → from ≤ gate }
    ensures none { IfNone result ((waiting.new ≡ waiting.old)
        × ((number kept ≡ 0) ⊎ ((gate : ℕ) → slice_index_or waiting.old gate 0 ≡ 0))) }
    ensures some { IfSome result (λ gate. (slice_index_or waiting.old gate 0 ≡ 1)
        × (waiting.new ≡ slice_set waiting.old gate 0)) }
    ensures least { IfSome result (λ gate. (other : ℕ)
        → slice_index_or waiting.old other 0 ≢ 0 → gate ≤ other) }
{
    if kept.is_none() {
        return None;
    }
    waiting.take(from)
}

/// Complements the stems of a pack, none of which is observed, and returns lanes in which an
/// observer sees that: all of them, or of each class up to the least, as the goal asks for.
pub(crate) fn propagate<C: Copies, G: Goal>(
    circuit: &FlatCircuit,
    copies: C,
    followed: &[Followed],
    pack: &mut Pack,
) -> Wide
    requires circuit { IsCircuit circuit.now.arranged }
    requires words { HaveCounts circuit.now.arranged C.layout (C.rows copies) }
    requires free { (tests : List Test) × (group : ℕ → ℕ)
        × AreRows circuit.now.arranged tests C.layout group (C.rows copies) }
    requires room { HasPackRoom circuit.now.arranged pack.old }
    requires clear { IsPackClear pack.old }
    requires slots { AreSlots C.layout circuit.now.arranged pack.old.slots.items followed.now }
    ensures detected { (tests : List Test) (group : ℕ → ℕ)
        → AreRows circuit.now.arranged tests C.layout group (C.rows copies)
        → TellsPack G.ALL_LANES C.layout circuit.now.arranged tests group pack.old.slots.items
        followed.now (number result) }
    ensures slots { pack.new.slots ≡ pack.old.slots }
    ensures room { (length pack.new.deltas ≡ length pack.old.deltas)
        × (length pack.new.waiting ≡ length pack.old.waiting) }
    ensures clear { IsPackClear pack.new }
{
    let _signals = circuit.signals();
    let deltas = &mut pack.deltas;
    let waiting = &mut pack.waiting;
    let stems = pack.slots.as_slice();
    let begun = begin_stems(circuit, copies, followed, stems, deltas, waiting);
    let mut from = begun.from;
    let mut found = PackFound {
        kept: begun.kept,
        seen: Wide::none(),
    };
    while let Some(gate) = next_gate(found.kept, from, waiting) {
        let fresh = evaluate_waiting(circuit, copies, found.kept, gate, deltas, waiting);
        found = follow_on::<C, G>(copies, followed, stems, found, fresh);
        from = gate + 1;
    }
    waiting.clear(from);
    deltas.clear();
    found.seen
}
