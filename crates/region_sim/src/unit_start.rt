//! Following a fault to the stem of its region on wide words, each slot of which has the tests of a
//! group of its own, as `region.rt` and `sensitized.rt` follow it on one group.

ghost use Rattle.std.specs.Prelude.{◌≡◌, ℕ, ◌+◌, ◌<◌, ◌≤◌, Contains, List, Some, length};
ghost use Rattle.bench_net.specs.Circuit.{IsCircuit};
ghost use Rattle.bench_net.specs.Scan.{names};
ghost use Rattle.fault_model.specs.Fault.{faults};
ghost use Rattle.fault_model.specs.Solution.{Test};
ghost use Rattle.wide_words.specs.Wide.{number};
ghost use Rattle.wide_words.specs.declared.wide.Wide.{Wide};
ghost use Rattle.flat_circuit.specs.Origins.{Carries};
ghost use Rattle.region_sim.specs.Pack.{AreRows, HaveCounts};
ghost use Rattle.flat_circuit.specs.Regions.{IsStemOfLine};
ghost use Rattle.block_sim.specs.Flips.{start_of};
ghost use Rattle.flat_circuit.specs.Stuck.{stuck_fault};
ghost use Rattle.region_sim.specs.Units.{IsSameUnitRegion, IsUnitRegion, IsWideReached};

use crate::unit_gate::{Turned, pass};
use crate::unit_region::{UnitRegion, WideArrival};
use block_sim::flat::FlatCircuit;
use block_sim::origin::Origin;
use block_sim::wide_lanes::in_each_wide_lane;
use fault_model::Line;
use wide_words::{Copies, Wide};

/// The point up to which a fault is followed before it shares its way with others.
#[derive(Clone, Copy)]
pub(crate) enum WideReach {
    /// To an observer, or nowhere: the lanes in which it is detected.
    Observed(Wide),
    /// To a signal, in some lanes.
    Stem(WideArrival),
}

/// Follows a fault from its line to the first signal that it can complement: a fault on a signal to
/// that signal, a fault on a gate's pin to the gate's signal. A fault on an observer's line is
/// detected if it complements that line.
#[inline(always)]
pub(crate) fn start<C: Copies>(
    circuit: &FlatCircuit,
    copies: C,
    origin: Origin,
    lanes: Wide,
) -> WideReach
    requires circuit { IsCircuit circuit.now.arranged }
    requires view { HaveCounts circuit.now.arranged C.layout (C.rows copies) }
    requires listed { Contains (faults origin.fault.model circuit.now.arranged)
        (stuck_fault origin.fault) }
    requires carried { Carries circuit.now.arranged origin.fault.line origin.carried }
    ensures reached { (tests : List Test) (group : ℕ → ℕ)
        → AreRows circuit.now.arranged tests C.layout group (C.rows copies)
        → IsWideReached circuit.now.arranged tests C.layout group (stuck_fault origin.fault)
        (number lanes) result }
    ensures signal { (at : WideArrival) → result ≡ WideReach.Stem at
        → at.signal < length (names circuit.now.arranged) }
    ensures from { (at : WideArrival) → result ≡ WideReach.Stem at
        → start_of origin.fault.line ≡ Some at.signal }
{
    let stuck = in_each_wide_lane(origin.fault.at_one);
    let excited = copies.of(origin.carried).xor(stuck).and(lanes);
    match origin.fault.line {
        Line::Stem(signal) => WideReach::Stem(WideArrival {
            signal,
            lanes: excited,
        }),
        Line::Pin { gate, pin } => {
            let turned = Turned::Pin(pin);
            let lanes = pass(circuit, copies, gate, turned, excited);
            WideReach::Stem(WideArrival {
                signal: gate,
                lanes,
            })
        }
        Line::Data { .. } | Line::Out { .. } => WideReach::Observed(excited),
    }
}

/// Returns the first signal that a fault on a line can complement. A fault on an observer's line
/// has none.
#[inline(always)]
fn first_signal(line: Line) -> Option<u32>
    ensures { result ≡ start_of line }
{
    match line {
        Line::Stem(signal) => Some(signal),
        Line::Pin { gate, .. } => Some(gate),
        Line::Data { .. } | Line::Out { .. } => None,
    }
}

/// Follows a fault to the stem of the current region. If its first signal complements the stem in
/// no lane, it ends there. Otherwise it takes, among the lanes in which that signal complements the
/// stem, those in which the fault complements the signal.
#[inline(always)]
pub(crate) fn follow_to_stem<C: Copies>(
    circuit: &FlatCircuit,
    copies: C,
    origin: Origin,
    lanes: Wide,
    region: &mut UnitRegion,
) -> WideReach
    requires circuit { IsCircuit circuit.now.arranged }
    requires view { HaveCounts circuit.now.arranged C.layout (C.rows copies) }
    requires listed { Contains (faults origin.fault.model circuit.now.arranged)
        (stuck_fault origin.fault) }
    requires carried { Carries circuit.now.arranged origin.fault.line origin.carried }
    requires region { IsUnitRegion circuit.now.arranged C.layout (C.rows copies) region.old }
    requires stem { IsStemOfLine circuit.now.arranged region.old.stem origin.fault.line }
    ensures reached { (tests : List Test) (group : ℕ → ℕ)
        → AreRows circuit.now.arranged tests C.layout group (C.rows copies)
        → IsWideReached circuit.now.arranged tests C.layout group (stuck_fault origin.fault)
        (number lanes) result }
    ensures stem { (at : WideArrival) → result ≡ WideReach.Stem at
        → at.signal ≡ region.old.stem }
    ensures region { IsUnitRegion circuit.now.arranged C.layout (C.rows copies) region.new }
    ensures same { IsSameUnitRegion region.old region.new }
{
    let signal = region.stem;
    match first_signal(origin.fault.line) {
        Some(first) => {
            let at = region.lanes_of(circuit, copies, first);
            if at.is_none() {
                return WideReach::Stem(WideArrival { signal, lanes: at });
            }
            match start(circuit, copies, origin, lanes) {
                WideReach::Observed(word) => WideReach::Observed(word),
                WideReach::Stem(from) => {
                    let lanes = from.lanes.and(at);
                    WideReach::Stem(WideArrival { signal, lanes })
                }
            }
        }
        None => start(circuit, copies, origin, lanes),
    }
}
