//! The lanes of a wide word in which complemented signals of a fanout-free region complement its
//! stem, if each slot has the tests of a group of its own: one pass against the flow, as
//! `sensitized.rt` makes it for one group.

ghost use Rattle.std.specs.Prelude.{◌≡◌, ℕ, ◌+◌, ◌<◌, ◌≤◌, IfOk, List, None, Some, length};
ghost use Rattle.std.specs.Prelude.{slice_index_or, vec_capacity, vec_len};
ghost use Rattle.bench_net.specs.Circuit.{IsCircuit};
ghost use Rattle.bench_net.specs.Scan.{names};
ghost use Rattle.fault_model.specs.Solution.{Test};
ghost use Rattle.wide_words.specs.Lanes.{Layout};
ghost use Rattle.wide_words.specs.Wide.{number};
ghost use Rattle.wide_words.specs.declared.wide.Wide.{Wide};
ghost use Rattle.region_sim.specs.Pack.{AreRows, HaveCounts};
ghost use Rattle.flat_circuit.specs.Regions.{IsStemOf, lone_reader};
ghost use Rattle.region_sim.specs.Sensitized.{IsPathTo, on_from};
ghost use Rattle.region_sim.specs.Units.{AreKnownInUnit, CarryFlip, HasUnitRoom, IsSameUnitRegion};
ghost use Rattle.region_sim.specs.Units.{IsUnitRegion};

use crate::known_wide::KnownWide;
use crate::unit_gate::{Turned, pass};
use block_sim::flat::FlatCircuit;
use block_sim::wide_lanes::in_each_wide_lane;
use std::alloc::{AllocError, Global};
use wide_words::{Copies, Wide};

/// A signal, and the lanes of a wide word in which a change arrives there.
#[derive(Clone, Copy)]
pub(crate) struct WideArrival {
    pub(crate) signal: u32,
    pub(crate) lanes: Wide,
}

/// For signals of a region, the lanes in which the complemented signal complements the stem. They
/// are computed when a fault first reaches the signal, and kept for the following faults.
#[derive(Drop)]
pub(crate) struct UnitRegion {
    pub(crate) stem: u32,
    pub(crate) known: KnownWide,
    pub(crate) path: Vec<u32>,
}

impl UnitRegion {
    /// Makes room for a circuit of this many signals.
    pub(crate) fn new(alloc: Global, signals: u32) -> Result<UnitRegion, AllocError>
        ensures { IfOk result (HasUnitRoom signals) }
    {
        let known = KnownWide::new(alloc, signals)?;
        let path = Vec::with_capacity(alloc, signals as usize)?;
        Ok(UnitRegion {
            stem: 0,
            known,
            path,
        })
    }

    /// Begins with the region of a stem.
    pub(crate) fn begin(&mut self, circuit: &FlatCircuit, stem: u32)
        requires circuit { IsCircuit circuit.now.arranged }
        requires room { HasUnitRoom (length (names circuit.now.arranged)) self.old }
        requires within { stem < length (names circuit.now.arranged) }
        ensures region { (layout : Layout) (good : ℕ → List ℕ)
            → IsUnitRegion circuit.now.arranged layout good self.new }
        ensures stem { self.new.stem ≡ stem }
        ensures known { length self.new.known ≡ length self.old.known }
        ensures path { vec_capacity self.new.path ≡ vec_capacity self.old.path }
    {
        self.stem = stem;
        let word = in_each_wide_lane(circuit.is_live(stem));
        self.known.forget();
        self.known.keep(stem, word);
    }

    /// Returns the lanes of a signal of the region. It evaluates the gates on its way to the stem,
    /// up to the first signal whose lanes are known.
    #[inline(always)]
    pub(crate) fn lanes_of<C: Copies>(
        &mut self,
        circuit: &FlatCircuit,
        copies: C,
        signal: u32,
    ) -> Wide
        requires circuit { IsCircuit circuit.now.arranged }
        requires view { HaveCounts circuit.now.arranged C.layout (C.rows copies) }
        requires region { IsUnitRegion circuit.now.arranged C.layout (C.rows copies) self.old }
        requires within { signal < length (names circuit.now.arranged) }
        requires leads { IsStemOf circuit.now.arranged self.old.stem signal }
        ensures carries { (tests : List Test) (group : ℕ → ℕ)
            → AreRows circuit.now.arranged tests C.layout group (C.rows copies)
            → CarryFlip circuit.now.arranged tests C.layout group signal self.old.stem
            (number result) }
        ensures region { IsUnitRegion circuit.now.arranged C.layout (C.rows copies) self.new }
        ensures same { IsSameUnitRegion self.old self.new }
    {
        match self.known.of(signal) {
            Some(lanes) => lanes,
            None => {
                let known = &mut self.known;
                let path = &mut self.path;
                let at = climb(circuit, signal, known, path);
                descend(circuit, copies, at, known, path)
            }
        }
    }
}

/// Goes from a signal to the first one on its way to the stem whose lanes are known. Puts the
/// signals before that one on the path.
fn climb(circuit: &FlatCircuit, signal: u32, known: &KnownWide, path: &mut Vec<u32>) -> WideArrival
    requires within { signal < length (names circuit.now.arranged) }
    requires room { length (names circuit.now.arranged) ≤ length known.now }
    requires capacity { length (names circuit.now.arranged) ≤ vec_capacity path.old }
    requires leads { (stem : ℕ) × IsStemOf circuit.now.arranged stem signal
        × (word : Wide) × (slice_index_or known.now stem None ≡ Some word) }
    ensures path { IsPathTo circuit.now.arranged path.new.items result.signal }
    ensures first { on_from path.new.items result.signal ≡ signal }
    ensures known { slice_index_or known.now result.signal None ≡ Some result.lanes }
    ensures within { result.signal < length (names circuit.now.arranged) }
    ensures capacity { vec_capacity path.new ≡ vec_capacity path.old }
{
    let _signals = circuit.signals();
    path.clear();
    let mut at = signal;
    loop {
        if let Some(lanes) = known.of(at) {
            return WideArrival { signal: at, lanes };
        }
        match circuit.lone_reader(at) {
            Some(gate) => {
                path.push_reserved(at);
                at = gate;
            }
            None => unreachable!(),
        }
    }
}

/// Goes back along the path from a signal whose lanes are known, and keeps the lanes of each signal
/// on it. Returns the lanes of the last.
fn descend<C: Copies>(
    circuit: &FlatCircuit,
    copies: C,
    from: WideArrival,
    known: &mut KnownWide,
    path: &mut Vec<u32>,
) -> Wide
    requires circuit { IsCircuit circuit.now.arranged }
    requires view { HaveCounts circuit.now.arranged C.layout (C.rows copies) }
    requires signals { length (names circuit.now.arranged) ≤ length known.old }
    requires path { IsPathTo circuit.now.arranged path.old.items from.signal }
    ensures carries { (stem : ℕ)
        → AreKnownInUnit circuit.now.arranged C.layout (C.rows copies) stem known.old
        → slice_index_or known.old from.signal None ≡ Some from.lanes
        → (tests : List Test) (group : ℕ → ℕ)
        → AreRows circuit.now.arranged tests C.layout group (C.rows copies)
        → CarryFlip circuit.now.arranged tests C.layout group
        (on_from path.old.items from.signal) stem (number result) }
    ensures known { (stem : ℕ)
        → AreKnownInUnit circuit.now.arranged C.layout (C.rows copies) stem known.old
        → slice_index_or known.old from.signal None ≡ Some from.lanes
        → AreKnownInUnit circuit.now.arranged C.layout (C.rows copies) stem known.new }
    ensures signals { length known.new ≡ length known.old }
    ensures capacity { vec_capacity path.new ≡ vec_capacity path.old }
{
    let mut at = from;
    while let Some(signal) = path.pop() {
        let lanes = lanes_before(circuit, copies, at, signal);
        known.keep(signal, lanes);
        at = WideArrival { signal, lanes };
    }
    at.lanes
}

/// Returns the lanes of a signal, from the lanes of the only gate that reads it.
#[inline(always)]
fn lanes_before<C: Copies>(circuit: &FlatCircuit, copies: C, gate: WideArrival, signal: u32) -> Wide
    requires circuit { IsCircuit circuit.now.arranged }
    requires view { HaveCounts circuit.now.arranged C.layout (C.rows copies) }
    requires read { lone_reader circuit.now.arranged signal ≡ Some gate.signal }
    ensures { (tests : List Test) (group : ℕ → ℕ) (stem : ℕ)
        → AreRows circuit.now.arranged tests C.layout group (C.rows copies)
        → CarryFlip circuit.now.arranged tests C.layout group gate.signal stem
        (number gate.lanes)
        → CarryFlip circuit.now.arranged tests C.layout group signal stem (number result) }
{
    if gate.lanes.is_none() {
        return Wide::none();
    }
    let turned = Turned::Signal(signal);
    pass(circuit, copies, gate.signal, turned, gate.lanes)
}
