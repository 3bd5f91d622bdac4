//! The words of a circuit's signals: the 128 tests of a group of two blocks side by side, without a
//! fault or under one.
//!
//! Bit `k` of a word is the bit of test `128 * group + k`. A gate is evaluated on a whole word at
//! once (parallel-pattern simulation: Bushnell and Agrawal, Essentials of Electronic Testing).

ghost use Rattle.std.specs.Prelude.{◌≡◌, ℕ, ◌+◌, ◌-◌, ◌^◌, ◌<◌, ◌≤◌, All, min, length, map, None};
ghost use Rattle.std.specs.Prelude.{Some, [], slice_get, slice_index_or};
ghost use Rattle.std.specs.List.{list_all};
ghost use Rattle.bench_net.specs.Statement.{Name};
ghost use Rattle.bench_net.specs.Scan.{names, sources, name_of, gate_of};
ghost use Rattle.bench_net.specs.Circuit.{IsCircuit, max_sinks};
ghost use Rattle.fault_model.specs.declared.Line.TheVariants.{Pin};
ghost use Rattle.fault_model.specs.Detection.{name_on};
ghost use Rattle.fault_model.specs.Fault.{Fault};
ghost use Rattle.fault_model.specs.Reordered.{moved_fault};
ghost use Rattle.fault_model.specs.Solution.{is_odd, value, under};
ghost use Rattle.patterns.specs.Tests.{IsWord, blocks};
ghost use Rattle.flat_circuit.specs.BlockSpans.{groups};
ghost use Rattle.flat_circuit.specs.Flat.{HasEnds};
ghost use Rattle.flat_circuit.specs.GateForms.{IsFormOf, inverted_if};
ghost use Rattle.flat_circuit.specs.Words.{lane, word_over, pin_bits, AreWords, IsGroupWord};
ghost use Rattle.flat_circuit.specs.Words.{IsSignalWord, turned_word};
ghost use Rattle.flat_circuit.specs.Stuck.{fault_of, stuck_fault};

use crate::block_lanes::{group_word, in_each_lane};
use crate::flat::{FlatCircuit, FlatGate};
use fault_model::Line;
use patterns::Tests;

/// The stuck-at fault that is propagated for a fault of any model: its line is held at 0 or at 1
/// for all its readers. A transition fault is detected if this fault is and the test before fits.
#[derive(Clone, Copy)]
pub struct Stuck {
    pub line: Line,
    pub model: fault_model::Model,
    pub at_one: bool,
}

impl Stuck {
    /// Returns the stuck bit in every lane.
    #[inline(always)]
    pub fn word(self) -> u128
        ensures { (k : ℕ) → k < 128 → lane result k ≡ self.at_one }
    {
        in_each_lane(self.at_one)
    }

    /// Returns the fault in the numbers of the lists of the circuit.
    pub fn moved(self, circuit: &FlatCircuit) -> Stuck
        requires { (n : Name) × (name_on circuit.now.statements self.line ≡ Some n) }
        ensures { stuck_fault result
            ≡ moved_fault circuit.now.statements circuit.now.arranged (stuck_fault self) }
    {
        Stuck {
            model: self.model,
            line: circuit.moved_line(self.line),
            at_one: self.at_one,
        }
    }
}

/// Returns the word that the readers of a line get: the stuck bit in every lane if the fault is on
/// this very line, or else the word that drives it.
#[inline(always)]
fn seen(fault: Option<Stuck>, own: Line, word: u128) -> u128
    ensures { (k : ℕ) → k < 128 → lane result k ≡ under (fault_of fault) own (lane word k) }
{
    match fault {
        Some(stuck) if stuck.line == own => stuck.word(),
        _ => word,
    }
}

/// Returns the word that a pin of a gate reads: the word of its signal, inverted in the lanes in
/// which the signal differs, or the stuck bit if the fault is on the pin.
#[inline(always)]
fn pin_word(
    gate: FlatGate<'_>,
    signal: u32,
    place: usize,
    read: u32,
    fault: Option<Stuck>,
    words: &[u128],
    delta: &[u128],
) -> u128
    requires place { place < length gate.pins.now }
    requires reads { slice_index_or gate.pins.now place 0 ≡ read }
    requires pins_in { All (λ p. p < length words.now) gate.pins.now }
    requires same { length words.now ≤ length delta.now }
    requires few { length gate.pins.now ≤ max_sinks }
    ensures { (k : ℕ) → k < 128 → lane result k ≡ under (fault_of fault) (Pin signal place)
        (lane (word_over words.now delta.now (slice_index_or gate.entry.pins.now place 0)) k) }
{
    let own = Line::Pin {
        gate: signal,
        pin: place as u32,
    };
    let at = read as usize;
    seen(fault, own, words[at] ^ delta[at])
}

/// The folded words of a gate's pins: their AND, each inverted if the form inverts inputs, and
/// their XOR.
#[derive(Clone, Copy)]
struct Folds {
    all: u128,
    odd: u128,
}

/// Returns the folded words of a gate's pins. It reads the first pin and the last apart from the
/// others. So the loop makes no pass for a gate of one or two pins, as most are. No branch decides
/// whether a gate has one pin or two.
#[inline(always)]
fn folds_of(
    gate: FlatGate<'_>,
    signal: u32,
    fault: Option<Stuck>,
    words: &[u128],
    delta: &[u128],
) -> Folds
    requires some { 0 < length gate.pins.now }
    requires pins_in { All (λ p. p < length words.now) gate.pins.now }
    requires same { length words.now ≤ length delta.now }
    requires few { length gate.pins.now ≤ max_sinks }
    requires ends { HasEnds gate.pins.now gate.first gate.last }
    ensures all { (k : ℕ) → k < 128
        → lane result.all k ≡ list_all (λ b. inverted_if gate.entry.form.inverts_inputs b)
        (pin_bits (fault_of fault) signal gate.entry.pins.now words.now delta.now k) }
    ensures odd { (k : ℕ) → k < 128 → lane result.odd k
        ≡ is_odd (pin_bits (fault_of fault) signal gate.entry.pins.now words.now delta.now k) }
{
    let inverted = in_each_lane(gate.form.inverts_inputs);
    let last = gate.pins.len() - 1;
    let first = pin_word(gate, signal, 0, gate.first, fault, words, delta);
    let mut all = first ^ inverted;
    let mut odd = first;
    for place in 1..last {
        let read = gate.pins[place];
        let word = pin_word(gate, signal, place, read, fault, words, delta);
        all &= word ^ inverted;
        odd ^= word;
    }
    let word = pin_word(gate, signal, last, gate.last, fault, words, delta);
    Folds {
        all: all & (word ^ inverted),
        odd: odd ^ (word & in_each_lane(last > 0)),
    }
}

/// Counts an evaluation of a gate. The count stays at the greatest u64.
#[inline(always)]
pub fn count_evaluation(evaluations: &mut u64)
    ensures few { evaluations.new ≤ evaluations.old + 1 }
    ensures grown { evaluations.old ≤ evaluations.new }
    ensures counted { evaluations.new ≡ min (evaluations.old + 1) (2 ^ 64 - 1) }
{
    *evaluations = evaluations.saturating_add(1);
}

/// Evaluates a gate on a word, with differing signals or a fault on a pin, and counts it.
#[inline(always)]
pub fn evaluate_gate(
    gate: FlatGate<'_>,
    signal: u32,
    fault: Option<Stuck>,
    words: &[u128],
    delta: &[u128],
    evaluations: &mut u64,
) -> u128
    requires form { IsFormOf gate.kind gate.form }
    requires some { 0 < length gate.pins.now }
    requires pins_in { All (λ p. p < length words.now) gate.pins.now }
    requires same { length words.now ≤ length delta.now }
    requires few { length gate.pins.now ≤ max_sinks }
    requires ends { HasEnds gate.pins.now gate.first gate.last }
    ensures value { (k : ℕ) → k < 128
        → lane result k ≡ value gate.entry.kind
        (pin_bits (fault_of fault) signal gate.entry.pins.now words.now delta.now k) }
    ensures grown { evaluations.old ≤ evaluations.new }
    ensures counted { evaluations.new ≡ min (evaluations.old + 1) (2 ^ 64 - 1) }
{
    count_evaluation(evaluations);
    let folds = folds_of(gate, signal, fault, words, delta);
    let word = if gate.form.is_xor {
        folds.odd
    } else {
        folds.all
    };
    word ^ in_each_lane(gate.form.inverts_output)
}

/// Returns the word that a pin of a gate reads if one pin is stuck, and no signal differs.
#[inline(always)]
fn word_at_pin(place: usize, read: u32, pin: u32, stuck: u128, words: &[u128]) -> u128
    requires place { place < 2 ^ 32 }
    requires read { read < length words.now }
    ensures { (f : Fault) (signal k : ℕ) → f.line ≡ Pin signal pin → lane stuck k ≡ f.stuck
        → lane result k ≡ under (Some f) (Pin signal place)
        (lane (word_over words.now [] read) k) }
{
    if place as u32 == pin {
        stuck
    } else {
        words[read as usize]
    }
}

/// Returns the AND of the words that the pins of a gate read if one of them is stuck, each inverted
/// if the form inverts inputs. No signal differs.
#[inline(always)]
fn all_with_stuck(gate: FlatGate<'_>, pin: u32, stuck: u128, words: &[u128]) -> u128
    requires some { 0 < length gate.pins.now }
    requires pins_in { All (λ p. p < length words.now) gate.pins.now }
    requires few { length gate.pins.now ≤ max_sinks }
    requires ends { HasEnds gate.pins.now gate.first gate.last }
    ensures { (f : Fault) (signal k : ℕ) → k < 128 → f.line ≡ Pin signal pin
        → lane stuck k ≡ f.stuck → lane result k
        ≡ list_all (λ b. inverted_if gate.entry.form.inverts_inputs b)
        (pin_bits (Some f) signal gate.entry.pins.now words.now [] k) }
{
    let inverted = in_each_lane(gate.form.inverts_inputs);
    let last = gate.pins.len() - 1;
    let mut all = word_at_pin(0, gate.first, pin, stuck, words) ^ inverted;
    for place in 1..last {
        let word = word_at_pin(place, gate.pins[place], pin, stuck, words);
        all &= word ^ inverted;
    }
    let word = word_at_pin(last, gate.last, pin, stuck, words);
    all & (word ^ inverted)
}

/// Evaluates a gate on a word with a fault on one of its pins, while no signal differs, and counts
/// it. An XOR is evaluated as [`evaluate_gate`] does.
#[inline(always)]
pub fn evaluate_stuck(
    gate: FlatGate<'_>,
    signal: u32,
    pin: u32,
    fault: Stuck,
    words: &[u128],
    delta: &[u128],
    evaluations: &mut u64,
) -> u128
    requires form { IsFormOf gate.kind gate.form }
    requires some { 0 < length gate.pins.now }
    requires pins_in { All (λ p. p < length words.now) gate.pins.now }
    requires same { length words.now ≤ length delta.now }
    requires few { length gate.pins.now ≤ max_sinks }
    requires ends { HasEnds gate.pins.now gate.first gate.last }
    requires line { fault.line ≡ Pin signal pin }
    requires clear { All (λ word. word ≡ 0) delta.now }
    ensures value { (k : ℕ) → k < 128
        → lane result k ≡ value gate.entry.kind
        (pin_bits (Some (stuck_fault fault)) signal gate.entry.pins.now words.now delta.now k) }
    ensures grown { evaluations.old ≤ evaluations.new }
    ensures counted { evaluations.new ≡ min (evaluations.old + 1) (2 ^ 64 - 1) }
{
    if gate.form.is_xor {
        return evaluate_gate(gate, signal, Some(fault), words, delta, evaluations);
    }
    count_evaluation(evaluations);
    let word = all_with_stuck(gate, pin, fault.word(), words);
    word ^ in_each_lane(gate.form.inverts_output)
}

/// Returns the word of a block at a source, and 0 past the last block.
fn word_at(tests: &Tests, count: u32, block: u32, source: u32) -> u64
    requires count { count ≡ blocks (length tests.now.tests) }
    requires source { source < tests.now.width }
    ensures { IsWord tests.now.tests block source result }
{
    if block < count {
        tests.word(block, source)
    } else {
        0
    }
}

/// Returns the word that a group's tests give a source.
pub fn source_word(circuit: &FlatCircuit, tests: &Tests, group: u32, signal: u32) -> u128
    requires circuit { IsCircuit circuit.now.arranged }
    requires signal { signal < length (names circuit.now.arranged) }
    requires source { gate_of circuit.now.arranged signal ≡ None }
    requires width { tests.now.width ≡ length (sources circuit.now.arranged) }
    requires group { group < groups (length tests.now.tests) }
    ensures { (i : ℕ) → slice_get (sources circuit.now.arranged) i
        ≡ name_of circuit.now.arranged signal → IsGroupWord tests.now.tests group i result }
{
    match circuit.source_of(signal) {
        Some(source) => {
            let count = tests.blocks();
            let block = 2 * group;
            let low = word_at(tests, count, block, source);
            let high = word_at(tests, count, block + 1, source);
            group_word(low, high)
        }
        None => unreachable!(),
    }
}

/// Returns the lanes in which the signals that a gate reads are all 1, each inverted if its form
/// inverts inputs. It reads the first pin and the last apart from the others, as [`folds_of`] does.
#[inline(always)]
fn all_of(gate: FlatGate<'_>, words: &[u128]) -> u128
    requires some { 0 < length gate.pins.now }
    requires pins_in { All (λ p. p < length words.now) gate.pins.now }
    requires ends { HasEnds gate.pins.now gate.first gate.last }
    ensures { (k : ℕ) → k < 128 → lane result k
        ≡ list_all (λ b. inverted_if gate.entry.form.inverts_inputs b)
        (map (λ s. lane (slice_index_or words.now s 0) k) gate.entry.pins.now) }
{
    let inverted = in_each_lane(gate.form.inverts_inputs);
    let last = gate.pins.len() - 1;
    let mut all = words[gate.first as usize] ^ inverted;
    for place in 1..last {
        all &= words[gate.pins[place] as usize] ^ inverted;
    }
    all & (words[gate.last as usize] ^ inverted)
}

/// Returns the lanes in which an odd number of the signals that a gate reads are 1.
#[inline(always)]
fn odd_of(gate: FlatGate<'_>, words: &[u128]) -> u128
    requires some { 0 < length gate.pins.now }
    requires pins_in { All (λ p. p < length words.now) gate.pins.now }
    requires ends { HasEnds gate.pins.now gate.first gate.last }
    ensures { (k : ℕ) → k < 128 → lane result k
        ≡ is_odd (map (λ s. lane (slice_index_or words.now s 0) k) gate.entry.pins.now) }
{
    let last = gate.pins.len() - 1;
    let mut odd = words[gate.first as usize];
    for place in 1..last {
        odd ^= words[gate.pins[place] as usize];
    }
    if last == 0 {
        return odd;
    }
    odd ^ words[gate.last as usize]
}

/// Returns the word that a pin of a gate reads if one signal is complemented in some lanes.
#[inline(always)]
fn word_turned(read: u32, turned: u32, lanes: u128, words: &[u128]) -> u128
    requires { read < length words.now }
    ensures { result ≡ turned_word words.now turned lanes read }
{
    let word = words[read as usize];
    if read == turned { word ^ lanes } else { word }
}

/// Returns what [`all_of`] does if one signal is complemented in some lanes.
#[inline(always)]
fn all_turned(gate: FlatGate<'_>, turned: u32, lanes: u128, words: &[u128]) -> u128
    requires some { 0 < length gate.pins.now }
    requires pins_in { All (λ p. p < length words.now) gate.pins.now }
    requires ends { HasEnds gate.pins.now gate.first gate.last }
    ensures { (k : ℕ) → k < 128 → lane result k
        ≡ list_all (λ b. inverted_if gate.entry.form.inverts_inputs b)
        (map (λ s. lane (turned_word words.now turned lanes s) k) gate.entry.pins.now) }
{
    let inverted = in_each_lane(gate.form.inverts_inputs);
    let last = gate.pins.len() - 1;
    let mut all = word_turned(gate.first, turned, lanes, words) ^ inverted;
    for place in 1..last {
        let word = word_turned(gate.pins[place], turned, lanes, words);
        all &= word ^ inverted;
    }
    let word = word_turned(gate.last, turned, lanes, words);
    all & (word ^ inverted)
}

/// Returns what [`odd_of`] does if one signal is complemented in some lanes.
#[inline(always)]
fn odd_turned(gate: FlatGate<'_>, turned: u32, lanes: u128, words: &[u128]) -> u128
    requires some { 0 < length gate.pins.now }
    requires pins_in { All (λ p. p < length words.now) gate.pins.now }
    requires ends { HasEnds gate.pins.now gate.first gate.last }
    ensures { (k : ℕ) → k < 128 → lane result k
        ≡ is_odd (map (λ s. lane (turned_word words.now turned lanes s) k) gate.entry.pins.now) }
{
    let last = gate.pins.len() - 1;
    let mut odd = word_turned(gate.first, turned, lanes, words);
    for place in 1..last {
        let word = word_turned(gate.pins[place], turned, lanes, words);
        odd ^= word;
    }
    if last == 0 {
        return odd;
    }
    odd ^ word_turned(gate.last, turned, lanes, words)
}

/// Evaluates a gate on a word with one signal complemented in some lanes, while no other differs,
/// and counts it.
#[inline(always)]
pub fn evaluate_turned(
    gate: FlatGate<'_>,
    turned: u32,
    lanes: u128,
    words: &[u128],
    evaluations: &mut u64,
) -> u128
    requires form { IsFormOf gate.kind gate.form }
    requires some { 0 < length gate.pins.now }
    requires pins_in { All (λ p. p < length words.now) gate.pins.now }
    requires ends { HasEnds gate.pins.now gate.first gate.last }
    ensures value { (k : ℕ) → k < 128 → lane result k ≡ value gate.entry.kind
        (map (λ s. lane (turned_word words.now turned lanes s) k) gate.entry.pins.now) }
    ensures grown { evaluations.old ≤ evaluations.new }
    ensures counted { evaluations.new ≡ min (evaluations.old + 1) (2 ^ 64 - 1) }
{
    count_evaluation(evaluations);
    let word = if gate.form.is_xor {
        odd_turned(gate, turned, lanes, words)
    } else {
        all_turned(gate, turned, lanes, words)
    };
    word ^ in_each_lane(gate.form.inverts_output)
}

/// Returns the fault-free word of a gate's signal, from those of the signals that it reads.
#[inline(always)]
fn gate_word(gate: FlatGate<'_>, words: &[u128]) -> u128
    requires form { IsFormOf gate.kind gate.form }
    requires some { 0 < length gate.pins.now }
    requires pins_in { All (λ p. p < length words.now) gate.pins.now }
    requires ends { HasEnds gate.pins.now gate.first gate.last }
    ensures { (k : ℕ) → k < 128 → lane result k ≡ value gate.entry.kind
        (map (λ s. lane (slice_index_or words.now s 0) k) gate.entry.pins.now) }
{
    let word = if gate.form.is_xor {
        odd_of(gate, words)
    } else {
        all_of(gate, words)
    };
    word ^ in_each_lane(gate.form.inverts_output)
}

/// Returns the fault-free word of one signal, from the tests or from the words of the signals that
/// its gate reads.
fn signal_word(
    circuit: &FlatCircuit,
    tests: &Tests,
    group: u32,
    words: &[u128],
    signal: u32,
) -> u128
    requires circuit { IsCircuit circuit.now.arranged }
    requires signal { signal < length (names circuit.now.arranged) }
    requires words { length (names circuit.now.arranged) ≤ length words.now }
    requires width { tests.now.width ≡ length (sources circuit.now.arranged) }
    requires group { group < groups (length tests.now.tests) }
    ensures { IsSignalWord circuit.now.arranged tests.now.tests group None words.now signal
        result }
{
    match circuit.gate_of(signal) {
        Some(gate) => gate_word(gate, words),
        None => source_word(circuit, tests, group, signal),
    }
}

/// Writes the fault-free word of every signal on a group, at the signal's place. It goes from
/// place to place, so a gate comes after the signals that it reads.
pub fn evaluate(circuit: &FlatCircuit, tests: &Tests, group: u32, words: &mut [u128])
    requires circuit { IsCircuit circuit.now.arranged }
    requires words { length (names circuit.now.arranged) ≤ length words.old }
    requires width { tests.now.width ≡ length (sources circuit.now.arranged) }
    requires group { group < groups (length tests.now.tests) }
    ensures words { AreWords circuit.now.arranged tests.now.tests group None words.new }
    ensures room { length words.new ≡ length words.old }
{
    for signal in 0..circuit.signals() {
        let word = signal_word(circuit, tests, group, words, signal);
        words[signal as usize] = word;
    }
}
