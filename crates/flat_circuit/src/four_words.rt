//! The fault-free words of all signals on four groups that follow each other, in one pass.
//!
//! A gate's row is read once for the four groups. The words of each pin stand side by side in a
//! wide word, and the pins are folded there.

ghost use Rattle.std.specs.Prelude.{◌≡◌, ℕ, ◌+◌, ◌*◌, ◌<◌, ◌≤◌, All, None, length, map, slice_get};
ghost use Rattle.std.specs.List.{list_all};
ghost use Rattle.bench_net.specs.Scan.{names, sources, name_of, gate_of};
ghost use Rattle.bench_net.specs.Circuit.{IsCircuit};
ghost use Rattle.fault_model.specs.Solution.{is_odd, value};
ghost use Rattle.wide_words.specs.Layouts.{one_of};
ghost use Rattle.wide_words.specs.Wide.{number};
ghost use Rattle.flat_circuit.specs.BlockSpans.{groups};
ghost use Rattle.flat_circuit.specs.Flat.{HasEnds};
ghost use Rattle.flat_circuit.specs.GateForms.{IsFormOf, inverted_if};
ghost use Rattle.flat_circuit.specs.SlotWords.{AreWithin, copied_bit};
ghost use Rattle.flat_circuit.specs.Words.{AreWords, IsGroupWord, IsSignalWord, lane};

use crate::flat::{FlatCircuit, FlatGate};
use crate::wide_lanes::in_each_wide_lane;
use crate::words::source_word;
use patterns::Tests;
use wide_words::{Copies, Four, Wide, side_by_side};

/// The words of a signal on four groups.
#[derive(Clone, Copy)]
struct FourWords {
    first: u128,
    second: u128,
    third: u128,
    fourth: u128,
}

/// Returns the lanes in which the signals that a gate reads are all 1, each inverted if its form
/// inverts inputs. It reads the first pin and the last apart from the others, as `folds_of` does.
#[inline(always)]
fn wide_all_of<C: Copies>(gate: FlatGate<'_>, copies: C) -> Wide
    requires some { 0 < length gate.pins.now }
    requires pins_in { All (AreWithin C.layout (C.rows copies)) gate.pins.now }
    requires ends { HasEnds gate.pins.now gate.first gate.last }
    ensures { (k : ℕ) → k < 512 → lane (number result) k
        ≡ list_all (λ b. inverted_if gate.entry.form.inverts_inputs b)
        (map (copied_bit C.layout (C.rows copies) k) gate.entry.pins.now) }
{
    let inverted = in_each_wide_lane(gate.form.inverts_inputs);
    let last = gate.pins.len() - 1;
    let mut all = copies.of(gate.first).xor(inverted);
    for place in 1..last {
        let word = copies.of(gate.pins[place]);
        all = all.and(word.xor(inverted));
    }
    let word = copies.of(gate.last);
    all.and(word.xor(inverted))
}

/// Returns the lanes in which an odd number of the signals that a gate reads are 1.
#[inline(always)]
fn wide_odd_of<C: Copies>(gate: FlatGate<'_>, copies: C) -> Wide
    requires some { 0 < length gate.pins.now }
    requires pins_in { All (AreWithin C.layout (C.rows copies)) gate.pins.now }
    requires ends { HasEnds gate.pins.now gate.first gate.last }
    ensures { (k : ℕ) → k < 512 → lane (number result) k
        ≡ is_odd (map (copied_bit C.layout (C.rows copies) k) gate.entry.pins.now) }
{
    let last = gate.pins.len() - 1;
    let mut odd = copies.of(gate.first);
    for place in 1..last {
        let word = copies.of(gate.pins[place]);
        odd = odd.xor(word);
    }
    if last == 0 {
        return odd;
    }
    odd.xor(copies.of(gate.last))
}

/// Returns in each slot the fault-free word of a gate's signal, by the words of the signals that
/// the gate reads.
#[inline(always)]
fn wide_gate_word<C: Copies>(gate: FlatGate<'_>, copies: C) -> Wide
    requires form { IsFormOf gate.kind gate.form }
    requires some { 0 < length gate.pins.now }
    requires pins_in { All (AreWithin C.layout (C.rows copies)) gate.pins.now }
    requires ends { HasEnds gate.pins.now gate.first gate.last }
    ensures { (k : ℕ) → k < 512 → lane (number result) k ≡ value gate.entry.kind
        (map (copied_bit C.layout (C.rows copies) k) gate.entry.pins.now) }
{
    let word = if gate.form.is_xor {
        wide_odd_of(gate, copies)
    } else {
        wide_all_of(gate, copies)
    };
    word.xor(in_each_wide_lane(gate.form.inverts_output))
}

/// Returns the words of the four slots of a wide word.
#[inline(always)]
fn words_in_slots(rows: Four<'_>, word: Wide) -> FourWords
    ensures { (slot j : ℕ) → slot < 4 → j < 128
        → lane (one_of result.first result.second result.third result.fourth slot) j
        ≡ lane (number word) (128 * slot + j) }
{
    FourWords {
        first: rows.part(0, word),
        second: rows.part(1, word),
        third: rows.part(2, word),
        fourth: rows.part(3, word),
    }
}

/// Returns the words that the tests of four groups give a source.
fn source_words(circuit: &FlatCircuit, tests: &Tests, group: u32, signal: u32) -> FourWords
    requires circuit { IsCircuit circuit.now.arranged }
    requires signal { signal < length (names circuit.now.arranged) }
    requires source { gate_of circuit.now.arranged signal ≡ None }
    requires width { tests.now.width ≡ length (sources circuit.now.arranged) }
    requires group { group + 3 < groups (length tests.now.tests) }
    ensures { (slot i : ℕ) → slot < 4 → slice_get (sources circuit.now.arranged) i
        ≡ name_of circuit.now.arranged signal → IsGroupWord tests.now.tests (group + slot) i
        (one_of result.first result.second result.third result.fourth slot) }
{
    let _blocks = tests.blocks();
    FourWords {
        first: source_word(circuit, tests, group, signal),
        second: source_word(circuit, tests, group + 1, signal),
        third: source_word(circuit, tests, group + 2, signal),
        fourth: source_word(circuit, tests, group + 3, signal),
    }
}

/// Returns in each slot the fault-free word of one signal, from the tests or from the words of the
/// signals that its gate reads.
#[inline(always)]
fn wide_signal_word(
    circuit: &FlatCircuit,
    tests: &Tests,
    group: u32,
    rows: Four<'_>,
    signal: u32,
) -> Wide
    requires circuit { IsCircuit circuit.now.arranged }
    requires signal { signal < length (names circuit.now.arranged) }
    requires first { length (names circuit.now.arranged) ≤ length rows.first.now }
    requires second { length (names circuit.now.arranged) ≤ length rows.second.now }
    requires third { length (names circuit.now.arranged) ≤ length rows.third.now }
    requires fourth { length (names circuit.now.arranged) ≤ length rows.fourth.now }
    requires width { tests.now.width ≡ length (sources circuit.now.arranged) }
    requires group { group + 3 < groups (length tests.now.tests) }
    ensures { (slot word : ℕ) → slot < 4
        → ((j : ℕ) → j < 128 → lane word j ≡ lane (number result) (128 * slot + j))
        → IsSignalWord circuit.now.arranged tests.now.tests (group + slot) None
        (one_of rows.entry.first.now rows.entry.second.now rows.entry.third.now
        rows.entry.fourth.now slot) signal word }
{
    match circuit.gate_of(signal) {
        Some(gate) => wide_gate_word(gate, rows),
        None => {
            let words = source_words(circuit, tests, group, signal);
            side_by_side(words.first, words.second, words.third, words.fourth)
        }
    }
}

/// Returns the fault-free words of one signal on four groups. They come from one wide word, so that
/// each is written as a whole: a word that is written in halves is read late by the gates after it.
#[inline(always)]
fn signal_words(
    circuit: &FlatCircuit,
    tests: &Tests,
    group: u32,
    rows: Four<'_>,
    signal: u32,
) -> FourWords
    requires circuit { IsCircuit circuit.now.arranged }
    requires signal { signal < length (names circuit.now.arranged) }
    requires first { length (names circuit.now.arranged) ≤ length rows.first.now }
    requires second { length (names circuit.now.arranged) ≤ length rows.second.now }
    requires third { length (names circuit.now.arranged) ≤ length rows.third.now }
    requires fourth { length (names circuit.now.arranged) ≤ length rows.fourth.now }
    requires width { tests.now.width ≡ length (sources circuit.now.arranged) }
    requires group { group + 3 < groups (length tests.now.tests) }
    ensures { (slot : ℕ) → slot < 4 → IsSignalWord circuit.now.arranged tests.now.tests
        (group + slot) None (one_of rows.entry.first.now rows.entry.second.now
        rows.entry.third.now rows.entry.fourth.now slot) signal
        (one_of result.first result.second result.third result.fourth slot) }
{
    words_in_slots(rows, wide_signal_word(circuit, tests, group, rows, signal))
}

/// Writes the fault-free word of every signal on four groups, the first of which is given, as
/// [`evaluate`](crate::words::evaluate) does on one.
pub(crate) fn evaluate_four(
    circuit: &FlatCircuit,
    tests: &Tests,
    group: u32,
    first: &mut [u128],
    second: &mut [u128],
    third: &mut [u128],
    fourth: &mut [u128],
)
    requires circuit { IsCircuit circuit.now.arranged }
    requires first { length (names circuit.now.arranged) ≤ length first.old }
    requires second { length (names circuit.now.arranged) ≤ length second.old }
    requires third { length (names circuit.now.arranged) ≤ length third.old }
    requires fourth { length (names circuit.now.arranged) ≤ length fourth.old }
    requires width { tests.now.width ≡ length (sources circuit.now.arranged) }
    requires group { group + 3 < groups (length tests.now.tests) }
    ensures words { (slot : ℕ) → slot < 4 → AreWords circuit.now.arranged tests.now.tests
        (group + slot) None (one_of first.new second.new third.new fourth.new slot) }
    ensures first_room { length first.new ≡ length first.old }
    ensures second_room { length second.new ≡ length second.old }
    ensures third_room { length third.new ≡ length third.old }
    ensures fourth_room { length fourth.new ≡ length fourth.old }
{
    for signal in 0..circuit.signals() {
        let rows = Four {
            first,
            second,
            third,
            fourth,
        };
        let words = signal_words(circuit, tests, group, rows, signal);
        first[signal as usize] = words.first;
        second[signal as usize] = words.second;
        third[signal as usize] = words.third;
        fourth[signal as usize] = words.fourth;
    }
}
