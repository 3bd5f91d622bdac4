//! The way of a fault through its fanout-free region: from gate to gate, each of which is the only
//! reader of the signal before it, to the stem; and the stem complemented for all faults that reach
//! it.

ghost use Rattle.std.specs.Prelude.{◌≡◌, ◌≢◌, ℕ, ◌+◌, ◌<◌, ◌≤◌, Contains, List, None, true};
ghost use Rattle.std.specs.Prelude.{Some, length};
ghost use Rattle.std.specs.Bool.{Decides};
ghost use Rattle.bench_net.specs.Scan.{names};
ghost use Rattle.fault_model.specs.Fault.{Fault, faults};
ghost use Rattle.fault_model.specs.Solution.{Test};
ghost use Rattle.block_sim.specs.PropagationState.{HasRoomFor, IsAsLarge, IsClear};
ghost use Rattle.flat_circuit.specs.Origins.{Carries};
ghost use Rattle.flat_circuit.specs.Regions.{IsReadBy, IsStemOf, IsStemOfLine, way_from};
ghost use Rattle.block_sim.specs.Flips.{HasCome, Passes, TellsFirstFlips};
ghost use Rattle.region_sim.specs.Reached.{IsReached};
ghost use Rattle.flat_circuit.specs.BlockSpans.{AreInSpan, group_of};
ghost use Rattle.flat_circuit.specs.declared.block_span.BlockSpan.{BlockSpan};
ghost use Rattle.flat_circuit.specs.Stuck.{stuck_fault};
ghost use Rattle.flat_circuit.specs.Words.{lane, test_of, AreWords, HasWords};

use block_sim::block_view::BlockView;
use block_sim::fault_site::gate_change;
use block_sim::origin::Origin;
use block_sim::propagation_state::PropagationState;
use block_sim::words::evaluate_turned;
use fault_model::Line;

/// A signal that a fault reaches, and the lanes in which it does.
#[derive(Clone, Copy)]
pub(crate) struct Arrival {
    pub(crate) signal: u32,
    pub(crate) lanes: u128,
}

/// Returns the lanes in which a fault passes the only gate that reads a signal, among the lanes in
/// which it has reached the signal. There is at least one of these.
#[inline(always)]
pub(crate) fn cross(
    view: BlockView<'_>,
    at: Arrival,
    gate: u32,
    changes: &mut PropagationState,
) -> u128
    requires view { HasWords view.circuit.now.arranged view.good.now }
    requires room { HasRoomFor view.circuit.now.arranged changes.old }
    requires clear { IsClear changes.old }
    requires some { at.lanes ≢ 0 }
    requires read { IsReadBy view.circuit.now.arranged gate at.signal }
    ensures come { (tests : List Test) (group : ℕ) (f : Fault)
        → AreWords view.entry.circuit.now.arranged tests group None view.entry.good.now
        → HasCome view.entry.circuit.now.arranged tests group f view.entry.lanes at.signal at.lanes
        → HasCome view.entry.circuit.now.arranged tests group f view.entry.lanes gate result }
    ensures passed { (tests : List Test) (group k : ℕ)
        → AreWords view.entry.circuit.now.arranged tests group None view.entry.good.now
        → k < 128 → lane at.lanes k ≡ true
        → Decides (lane result k) ((lane view.entry.lanes k ≡ true)
        × Passes view.entry.circuit.now.arranged (test_of tests group k) at.signal gate) }
    ensures inside { (k : ℕ) → lane result k ≡ true → lane view.entry.lanes k ≡ true }
    ensures room { IsAsLarge changes.old changes.new }
    ensures clear { IsClear changes.new }
{
    match view.circuit.gate_of(gate) {
        Some(driver) => {
            let evaluations = &mut changes.evaluations;
            let word = evaluate_turned(driver, at.signal, at.lanes, view.good, evaluations);
            (word ^ view.good[gate as usize]) & view.lanes
        }
        None => unreachable!(),
    }
}

/// The point up to which a fault is followed on a group before it shares its way with others.
#[derive(Clone, Copy)]
pub(crate) enum Reach {
    /// To an observer, or nowhere: the lanes in which it is detected.
    Observed(u128),
    /// To a signal, in some lanes.
    Stem(Arrival),
}

/// Follows a fault from its line to the first signal that it can complement: a fault on a signal to
/// that signal, a fault on a gate's pin to the gate's signal. A fault on an observer's line is
/// detected if it complements that line.
#[inline(always)]
pub(crate) fn set_out(view: BlockView<'_>, origin: Origin, changes: &mut PropagationState) -> Reach
    requires view { HasWords view.circuit.now.arranged view.good.now }
    requires words { (tests : List Test) × (group : ℕ)
        × AreWords view.circuit.now.arranged tests group None view.good.now }
    requires listed { Contains (faults origin.fault.model view.circuit.now.arranged)
        (stuck_fault origin.fault) }
    requires carried { Carries view.circuit.now.arranged origin.fault.line origin.carried }
    requires room { HasRoomFor view.circuit.now.arranged changes.old }
    requires clear { IsClear changes.old }
    ensures reached { (tests : List Test) (group : ℕ)
        → AreWords view.entry.circuit.now.arranged tests group None view.entry.good.now
        → IsReached view.entry.circuit.now.arranged tests group (stuck_fault origin.fault)
        view.entry.lanes result }
    ensures signal { (at : Arrival) → result ≡ Reach.Stem at
        → at.signal < length (names view.entry.circuit.now.arranged) }
    ensures from { (at : Arrival) → result ≡ Reach.Stem at
        → way_from view.entry.circuit.now.arranged origin.fault.line ≡ Some at.signal }
    ensures room { IsAsLarge changes.old changes.new }
    ensures clear { IsClear changes.new }
{
    let fault = origin.fault;
    let excited = (fault.word() ^ view.good[origin.carried as usize]) & view.lanes;
    if excited == 0 {
        return Reach::Observed(0);
    }
    match fault.line {
        Line::Stem(start) => {
            Reach::Stem(Arrival {
                signal: start,
                lanes: excited,
            })
        }
        Line::Pin { gate, pin } => {
            let lanes = gate_change(view, fault, gate, pin, changes);
            Reach::Stem(Arrival {
                signal: gate,
                lanes,
            })
        }
        Line::Data { .. } | Line::Out { .. } => Reach::Observed(excited),
    }
}

/// The result of following a class by itself on some blocks.
#[derive(Clone, Copy)]
pub(crate) enum Approach {
    /// The first test that detects the class is known: the least lane that is 1.
    Known(u128),
    /// The class reached the stem of its region, in some lanes.
    Stem(Arrival),
}
