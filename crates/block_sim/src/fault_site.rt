//! The effect of one fault on a group of tests: the lanes in which it is excited, the first signal
//! that it changes, and the lanes in which an observer shows it.

ghost use Rattle.std.specs.Prelude.{◌≡◌, ℕ, ◌+◌, ◌<◌, ◌≤◌, Contains, List, None, Some, true};
ghost use Rattle.std.specs.Prelude.{length, bit_xor, slice_index_or};
ghost use Rattle.bench_net.specs.declared.Kind.{Kind};
ghost use Rattle.bench_net.specs.Scan.{names, gate_of};
ghost use Rattle.fault_model.specs.declared.Line.TheVariants.{Pin};
ghost use Rattle.fault_model.specs.Fault.{faults};
ghost use Rattle.fault_model.specs.Solution.{Test, value};
ghost use Rattle.block_sim.specs.PropagationState.{HasRoomFor, IsAsLarge, IsClear};
ghost use Rattle.block_sim.specs.Propagation.{AreShown, IsSettled};
ghost use Rattle.block_sim.specs.ActiveGates.{AreInGroup, HasActiveIn};
ghost use Rattle.flat_circuit.specs.Stuck.{stuck_fault};
ghost use Rattle.flat_circuit.specs.Words.{lane, pin_bits, AreWords, HasWords};

use crate::propagation::{Extent, propagate};
use crate::propagation_state::PropagationState;
use fault_model::Line;
use flat_circuit::block_view::BlockView;
use flat_circuit::line_signals::carried;
use flat_circuit::words::{Stuck, evaluate_stuck};

/// Returns the lanes, among the requested ones, in which some observer shows another bit with the
/// fault than without it. If first hits are requested, it may leave out lanes: for each class that
/// is followed in such a lane it returns a lower lane of that class. It evaluates no gate if the
/// fault is excited in none of the lanes.
pub fn propagate_fault(
    view: BlockView<'_>,
    fault: Stuck,
    extent: Extent<'_>,
    changes: &mut PropagationState,
) -> u128
    requires view { HasWords view.circuit.now.arranged view.good.now }
    requires words { (tests : List Test) × (group : ℕ)
        × AreWords view.circuit.now.arranged tests group None view.good.now }
    requires listed { Contains (faults fault.model view.circuit.now.arranged) (stuck_fault fault) }
    requires room { HasRoomFor view.circuit.now.arranged changes.old }
    requires clear { IsClear changes.old }
    ensures shown { (tests : List Test) (group : ℕ)
        → AreWords view.entry.circuit.now.arranged tests group None view.entry.good.now
        → AreShown view.entry.circuit.now.arranged tests group (λ _. stuck_fault fault)
        view.entry.good.now view.entry.lanes (IsSettled extent.entry result) result }
    ensures counted { (tests : List Test) (group : ℕ) (gates : List ℕ)
        → AreWords view.entry.circuit.now.arranged tests group None view.entry.good.now
        → AreInGroup tests group view.entry.lanes
        → HasActiveIn view.entry.circuit.now.arranged tests group view.entry.lanes
        (λ _. stuck_fault fault) gates
        → changes.new.evaluations ≤ changes.old.evaluations + length gates }
    ensures grown { changes.old.evaluations ≤ changes.new.evaluations }
    ensures room { IsAsLarge changes.old changes.new }
    ensures clear { IsClear changes.new }
{
    let signal = carried(view.circuit, fault.line) as usize;
    let excited = (fault.word() ^ view.good[signal]) & view.lanes;
    if excited == 0 {
        return 0;
    }
    match fault.line {
        Line::Stem(start) => propagate(view, extent, start, excited, changes),
        Line::Pin { gate, pin } => {
            let diff = gate_change(view, fault, gate, pin, changes);
            propagate(view, extent, gate, diff, changes)
        }
        Line::Data { .. } | Line::Out { .. } => excited,
    }
}

/// Returns the lanes, among the requested ones, in which a fault on a pin of a gate changes the
/// gate's word.
#[inline(always)]
pub fn gate_change(
    view: BlockView<'_>,
    fault: Stuck,
    gate: u32,
    pin: u32,
    changes: &mut PropagationState,
) -> u128
    requires view { HasWords view.circuit.now.arranged view.good.now }
    requires room { HasRoomFor view.circuit.now.arranged changes.old }
    requires clear { IsClear changes.old }
    requires line { fault.line ≡ Pin gate pin }
    requires gate { gate < length (names view.circuit.now.arranged) }
    requires driven { (line : Kind × List ℕ)
        × (gate_of view.circuit.now.arranged gate ≡ Some line) }
    ensures inside { (k : ℕ) → k < 128 → lane result k ≡ true → lane view.entry.lanes k ≡ true }
    ensures changed { (kind : Kind) (pins : List ℕ) (k : ℕ)
        → gate_of view.entry.circuit.now.arranged gate ≡ Some (kind, pins) → k < 128
        → lane view.entry.lanes k ≡ true
        → lane (bit_xor (slice_index_or view.entry.good.now gate 0) result) k
        ≡ value kind (pin_bits (Some (stuck_fault fault)) gate pins view.entry.good.now
        changes.old.overlay k) }
    ensures grown { changes.old.evaluations ≤ changes.new.evaluations }
    ensures counted { changes.new.evaluations ≤ changes.old.evaluations + 1 }
    ensures overlay { changes.new.overlay ≡ changes.old.overlay }
    ensures waiting { changes.new.waiting ≡ changes.old.waiting }
{
    match view.circuit.gate_of(gate) {
        Some(driver) => {
            let delta = changes.overlay.words();
            let evaluations = &mut changes.evaluations;
            let word = evaluate_stuck(driver, gate, pin, fault, view.good, delta, evaluations);
            (word ^ view.good[gate as usize]) & view.lanes
        }
        None => unreachable!(),
    }
}
