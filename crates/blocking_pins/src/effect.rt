//! The effect of a fault on the tests of a group: the signals that differ, and the gates that it
//! comes to.

ghost use Rattle.std.specs.Prelude.{◌≡◌, ◌≢◌, ◌⊎◌, ◌+◌, ◌*◌, ◌<◌, ◌≤◌, ◌^◌, ◌++◌, ◌∷◌, []};
ghost use Rattle.std.specs.Prelude.{All, Contains, IfOk, IfNone, IfSome, OnOk, ℕ, length, map};
ghost use Rattle.std.specs.Prelude.{slice_index_or};
ghost use Rattle.bench_net.specs.Scan.{names};
ghost use Rattle.fault_model.specs.declared.Line.TheVariants as line;
ghost use Rattle.fault_model.specs.Fault.{faults};
ghost use Rattle.flat_circuit.specs.Stuck.{stuck_fault};
ghost use Rattle.flat_circuit.specs.Words.{HasWords};
ghost use Rattle.flat_circuit.specs.Readers.{Reads};
ghost use Rattle.blocking_pins.specs.Effects.{AreFaulty, CanChange, HaveReaders, IsTouched};
ghost use Rattle.blocking_pins.specs.Effects.{IsVisited, IsWordUnder};

use event_queue::{Overlay, Places};
use fault_model::Line;
use flat_circuit::block_view::BlockView;
use flat_circuit::words::{Stuck, evaluate_gate};
use std::alloc::{AllocError, Global};

/// Room for the effect of a fault. It is used again and again.
#[derive(Drop)]
pub(crate) struct Effect {
    /// The lanes in which each signal differs.
    pub(crate) overlay: Overlay,
    /// The signals that wait to be evaluated.
    pub(crate) waiting: Places,
    /// The signals that were evaluated: gates with a pin that differs among them.
    pub(crate) reached: Vec<u32>,
}

impl Effect {
    /// Makes room for this many signals.
    pub(crate) fn new(alloc: Global, signals: u32) -> Result<Effect, AllocError>
        ensures overlay { IfOk result (λ effect. length effect.overlay ≡ signals) }
        ensures waiting { IfOk result (λ effect. signals < length effect.waiting) }
        ensures same { IfOk result (λ effect. All (λ word. word ≡ 0) effect.overlay) }
        ensures idle { IfOk result (λ effect. All (λ flag. flag ≡ 0) effect.waiting) }
        ensures none { IfOk result (λ effect. effect.reached.items ≡ []) }
    {
        let overlay = Overlay::new(alloc, signals)?;
        let waiting = Places::new(alloc, signals)?;
        Ok(Effect {
            overlay,
            waiting,
            reached: Vec::new(alloc),
        })
    }

    /// Forgets the effect.
    pub(crate) fn clear(&mut self)
        ensures room { length self.new.overlay ≡ length self.old.overlay }
        ensures waiting { self.new.waiting ≡ self.old.waiting }
        ensures same { All (λ word. word ≡ 0) self.new.overlay }
        ensures none { self.new.reached.items ≡ [] }
    {
        self.overlay.clear();
        self.reached.clear();
    }
}

/// Returns the first signal that a fault can change, none if it is on a branch to an observer.
fn start_of(fault: Stuck) -> Option<u32>
    ensures some { IfSome result (λ start. (fault.line ≡ line.Stem start)
        ⊎ ((pin : ℕ) × (fault.line ≡ line.Pin start pin))) }
    ensures none { IfNone result ((s pin : ℕ) → (fault.line ≢ line.Stem s)
        × (fault.line ≢ line.Pin s pin)) }
{
    match fault.line {
        Line::Stem(place) => Some(place),
        Line::Pin { gate, pin: _ } => Some(gate),
        Line::Data { .. } | Line::Out { .. } => None,
    }
}

/// Spreads the effect of a fault in some lanes, from signal to signal in the order of their places.
pub(crate) fn spread(
    view: BlockView<'_>,
    readers: &[Vec<u32>],
    fault: Stuck,
    effect: &mut Effect,
) -> Result<(), AllocError>
    requires view { HasWords view.circuit.now.arranged view.good.now }
    requires readers { HaveReaders view.circuit.now.arranged
        (map (λ row. row.items) readers.now) }
    requires listed { Contains (faults fault.model view.circuit.now.arranged) (stuck_fault fault) }
    requires overlay { length (names view.circuit.now.arranged) ≤ length effect.old.overlay }
    requires waiting { length (names view.circuit.now.arranged) < length effect.old.waiting }
    requires same { All (λ word. word ≡ 0) effect.old.overlay }
    requires idle { All (λ flag. flag ≡ 0) effect.old.waiting }
    requires none { effect.old.reached.items ≡ [] }
    ensures faulty { OnOk result (AreFaulty view.entry.circuit.now.arranged (stuck_fault fault)
        view.entry.good.now view.entry.lanes effect.new.overlay) }
    ensures touched { OnOk result ((g : ℕ) → IsTouched view.entry.circuit.now.arranged
        (stuck_fault fault) effect.new.overlay g → Contains effect.new.reached.items g) }
    ensures listed { OnOk result (All (λ s. s < length (names view.entry.circuit.now.arranged))
        effect.new.reached.items) }
    ensures idle { OnOk result (All (λ flag. flag ≡ 0) effect.new.waiting) }
    ensures overlay { OnOk result (length effect.new.overlay ≡ length effect.old.overlay) }
    ensures waiting { OnOk result (length effect.new.waiting ≡ length effect.old.waiting) }
{
    let _signals = view.circuit.signals();
    let Some(start) = start_of(fault) else {
        return Ok(());
    };
    effect.waiting.add(start);
    let mut from = start;
    while let Some(place) = effect.waiting.take(from) {
        visit(view, readers, fault, place, effect)?;
        from = place + 1;
    }
    Ok(())
}

/// Evaluates a signal, and lets its readers wait if it differs in some lane.
fn visit(
    view: BlockView<'_>,
    readers: &[Vec<u32>],
    fault: Stuck,
    place: u32,
    effect: &mut Effect,
) -> Result<(), AllocError>
    requires view { HasWords view.circuit.now.arranged view.good.now }
    requires readers { HaveReaders view.circuit.now.arranged
        (map (λ row. row.items) readers.now) }
    requires overlay { length (names view.circuit.now.arranged) ≤ length effect.old.overlay }
    requires waiting { length (names view.circuit.now.arranged) < length effect.old.waiting }
    requires place { place < length (names view.circuit.now.arranged) }
    requires change { CanChange view.circuit.now.arranged (stuck_fault fault) place }
    requires same { slice_index_or effect.old.overlay place 0 ≡ 0 }
    ensures reached { OnOk result (effect.new.reached.items
        ≡ effect.old.reached.items ++ place ∷ []) }
    ensures visited { OnOk result (IsVisited view.entry.circuit.now.arranged (stuck_fault fault)
        view.entry.good.now view.entry.lanes place effect.old.overlay effect.old.waiting
        effect.new.overlay effect.new.waiting) }
{
    effect.reached.push(place)?;
    let word = word_under(view, fault, place, effect.overlay.words());
    let diff = (word ^ view.good[place as usize]) & view.lanes;
    if diff != 0 {
        effect.overlay.change(place, diff);
        add_all(readers[place as usize].as_slice(), &mut effect.waiting);
    }
    Ok(())
}

/// Lets signals wait.
fn add_all(signals: &[u32], waiting: &mut Places)
    requires { All (λ s. s < length waiting.old) signals.now }
    ensures all { All (λ s. slice_index_or waiting.new s 0 ≢ 0) signals.now }
    ensures only { (s : ℕ) → (slice_index_or waiting.new s 0 ≡ slice_index_or waiting.old s 0)
        ⊎ (Contains signals.now s × (slice_index_or waiting.new s 0 ≢ 0)) }
    ensures room { length waiting.new ≡ length waiting.old }
{
    for signal in signals {
        waiting.add(*signal);
    }
}

/// Returns the word of a signal under a fault, from the words of the signals that its gate reads.
fn word_under(view: BlockView<'_>, fault: Stuck, place: u32, delta: &[u128]) -> u128
    requires view { HasWords view.circuit.now.arranged view.good.now }
    requires delta { length (names view.circuit.now.arranged) ≤ length delta.now }
    requires place { place < length (names view.circuit.now.arranged) }
    requires change { CanChange view.circuit.now.arranged (stuck_fault fault) place }
    ensures { IsWordUnder view.entry.circuit.now.arranged (stuck_fault fault)
        view.entry.good.now delta.now place result }
{
    if fault.line == Line::Stem(place) {
        return fault.word();
    }
    match view.circuit.gate_of(place) {
        Some(gate) => {
            let mut evaluations = 0;
            evaluate_gate(gate, place, Some(fault), view.good, delta, &mut evaluations)
        }
        None => unreachable!(),
    }
}
