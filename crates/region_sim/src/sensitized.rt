//! The lanes in which complemented signals of a fanout-free region complement its stem: one pass
//! against the flow for all classes of the region.

ghost use Rattle.std.specs.Prelude.{◌≡◌, ℕ, ◌+◌, ◌<◌, ◌≤◌, Contains, IfOk, List, None, Some};
ghost use Rattle.std.specs.Prelude.{true, length, slice_index_or, vec_capacity, vec_len};
ghost use Rattle.bench_net.specs.Scan.{names};
ghost use Rattle.fault_model.specs.Fault.{faults};
ghost use Rattle.fault_model.specs.Solution.{Test};
ghost use Rattle.block_sim.specs.PropagationState.{HasRoomFor, IsAsLarge, IsClear};
ghost use Rattle.flat_circuit.specs.Origins.{Carries};
ghost use Rattle.region_sim.specs.Reached.{IsReached};
ghost use Rattle.flat_circuit.specs.Regions.{IsStem, IsStemOf, IsStemOfLine, lone_reader};
ghost use Rattle.region_sim.specs.Sensitized.{AreKnownFlips, AreSensitized, CarriesFlip};
ghost use Rattle.region_sim.specs.Sensitized.{HasRoomForRegions, IsPathTo, IsSameRegion, on_from};
ghost use Rattle.flat_circuit.specs.Stuck.{stuck_fault};
ghost use Rattle.flat_circuit.specs.Words.{lane, AreWords, HasWords};

use crate::known_words::KnownWords;
use crate::region::{Arrival, Reach, cross, set_out};
use block_sim::block_view::BlockView;
use block_sim::flat::FlatCircuit;
use block_sim::origin::Origin;
use block_sim::propagation_state::PropagationState;
use std::alloc::{AllocError, Global};

/// For signals of a region, and some tests of a group, the lanes in which the complemented signal
/// complements the stem. They are computed when a fault first reaches the signal, and kept for the
/// following faults.
#[derive(Drop)]
pub(crate) struct Sensitized {
    pub(crate) stem: u32,
    pub(crate) lanes: u128,
    pub(crate) known: KnownWords,
    pub(crate) path: Vec<u32>,
}

impl Sensitized {
    /// Makes room for a circuit of this many signals.
    pub(crate) fn new(alloc: Global, signals: u32) -> Result<Sensitized, AllocError>
        ensures { IfOk result (HasRoomForRegions signals) }
    {
        let known = KnownWords::new(alloc, signals)?;
        let path = Vec::with_capacity(alloc, signals as usize)?;
        Ok(Sensitized {
            stem: 0,
            lanes: 0,
            known,
            path,
        })
    }

    /// Begins with the region of a stem, on the tests of these lanes.
    pub(crate) fn begin(&mut self, view: BlockView<'_>, stem: u32)
        requires view { HasWords view.circuit.now.arranged view.good.now }
        requires room { HasRoomForRegions (length (names view.circuit.now.arranged)) self.old }
        requires within { stem < length (names view.circuit.now.arranged) }
        requires stem { IsStem view.circuit.now.arranged stem }
        ensures sensitized { AreSensitized view.entry.circuit.now.arranged view.entry.good.now
            self.new }
        ensures stem { self.new.stem ≡ stem }
        ensures lanes { self.new.lanes ≡ view.entry.lanes }
        ensures known { length self.new.known ≡ length self.old.known }
        ensures path { vec_capacity self.new.path ≡ vec_capacity self.old.path }
    {
        self.stem = stem;
        self.lanes = view.lanes;
        let word = if view.circuit.is_live(stem) {
            view.lanes
        } else {
            0
        };
        self.known.forget();
        self.known.keep(stem, word);
    }

    /// Returns the lanes of a signal of the region. It evaluates the gates on its way to the stem,
    /// up to the first signal whose lanes are known.
    #[inline(always)]
    fn lanes_of(&mut self, view: BlockView<'_>, signal: u32, changes: &mut PropagationState) -> u128
        requires view { HasWords view.circuit.now.arranged view.good.now }
        requires room { HasRoomFor view.circuit.now.arranged changes.old }
        requires clear { IsClear changes.old }
        requires sensitized { AreSensitized view.circuit.now.arranged view.good.now self.old }
        requires within { signal < length (names view.circuit.now.arranged) }
        requires leads { IsStemOf view.circuit.now.arranged self.old.stem signal }
        ensures detection { (tests : List Test) (group : ℕ)
            → AreWords view.entry.circuit.now.arranged tests group None view.entry.good.now
            → CarriesFlip view.entry.circuit.now.arranged tests group self.old.lanes signal
            self.old.stem result }
        ensures sensitized { AreSensitized view.entry.circuit.now.arranged view.entry.good.now
            self.new }
        ensures same { IsSameRegion self.old self.new }
        ensures room { IsAsLarge changes.old changes.new }
        ensures clear { IsClear changes.new }
    {
        match self.known.of(signal) {
            Some(lanes) => lanes,
            None => {
                let known = &mut self.known;
                let path = &mut self.path;
                let at = climb(view.circuit, signal, known, path);
                descend(view, at, known, path, changes)
            }
        }
    }
}

/// Goes from a signal to the first one on its way to the stem whose lanes are known. Puts the
/// signals before that one on the path.
fn climb(circuit: &FlatCircuit, signal: u32, known: &KnownWords, path: &mut Vec<u32>) -> Arrival
    requires within { signal < length (names circuit.now.arranged) }
    requires room { length (names circuit.now.arranged) ≤ length known.now }
    requires capacity { length (names circuit.now.arranged) ≤ vec_capacity path.old }
    requires leads { (stem : ℕ) × IsStemOf circuit.now.arranged stem signal
        × (word : ℕ) × (slice_index_or known.now stem None ≡ Some word) }
    ensures path { IsPathTo circuit.now.arranged path.new.items result.signal }
    ensures first { on_from path.new.items result.signal ≡ signal }
    ensures known { slice_index_or known.now result.signal None ≡ Some result.lanes }
    ensures within { result.signal < length (names circuit.now.arranged) }
    ensures capacity { vec_capacity path.new ≡ vec_capacity path.old }
{
    let _signals = circuit.signals();
    path.clear();
    let mut at = signal;
    loop {
        if let Some(lanes) = known.of(at) {
            return Arrival { signal: at, lanes };
        }
        match circuit.lone_reader(at) {
            Some(gate) => {
                path.push_reserved(at);
                at = gate;
            }
            None => unreachable!(),
        }
    }
}

/// Goes back along the path from a signal whose lanes are known, and keeps the lanes of each signal
/// on it. Returns the lanes of the last.
fn descend(
    view: BlockView<'_>,
    from: Arrival,
    known: &mut KnownWords,
    path: &mut Vec<u32>,
    changes: &mut PropagationState,
) -> u128
    requires view { HasWords view.circuit.now.arranged view.good.now }
    requires room { HasRoomFor view.circuit.now.arranged changes.old }
    requires clear { IsClear changes.old }
    requires signals { length (names view.circuit.now.arranged) ≤ length known.old }
    requires path { IsPathTo view.circuit.now.arranged path.old.items from.signal }
    ensures detection { (mask stem : ℕ) → AreKnownFlips view.entry.circuit.now.arranged
        view.entry.good.now mask stem known.old
        → slice_index_or known.old from.signal None ≡ Some from.lanes
        → (tests : List Test) (group : ℕ)
        → AreWords view.entry.circuit.now.arranged tests group None view.entry.good.now
        → CarriesFlip view.entry.circuit.now.arranged tests group mask
        (on_from path.old.items from.signal) stem result }
    ensures known { (mask stem : ℕ) → AreKnownFlips view.entry.circuit.now.arranged
        view.entry.good.now mask stem known.old
        → slice_index_or known.old from.signal None ≡ Some from.lanes
        → AreKnownFlips view.entry.circuit.now.arranged view.entry.good.now mask stem known.new }
    ensures signals { length known.new ≡ length known.old }
    ensures capacity { vec_capacity path.new ≡ vec_capacity path.old }
    ensures room { IsAsLarge changes.old changes.new }
    ensures clear { IsClear changes.new }
{
    let mut at = from;
    while let Some(signal) = path.pop() {
        let lanes = lanes_before(view, at, signal, changes);
        known.keep(signal, lanes);
        at = Arrival { signal, lanes };
    }
    at.lanes
}

/// Returns the lanes of a signal, from the lanes of the only gate that reads it.
#[inline(always)]
fn lanes_before(
    view: BlockView<'_>,
    gate: Arrival,
    signal: u32,
    changes: &mut PropagationState,
) -> u128
    requires view { HasWords view.circuit.now.arranged view.good.now }
    requires room { HasRoomFor view.circuit.now.arranged changes.old }
    requires clear { IsClear changes.old }
    requires read { lone_reader view.circuit.now.arranged signal ≡ Some gate.signal }
    ensures detection { (tests : List Test) (group mask stem : ℕ)
        → AreWords view.entry.circuit.now.arranged tests group None view.entry.good.now
        → CarriesFlip view.entry.circuit.now.arranged tests group mask gate.signal stem gate.lanes
        → CarriesFlip view.entry.circuit.now.arranged tests group mask signal stem result }
    ensures room { IsAsLarge changes.old changes.new }
    ensures clear { IsClear changes.new }
{
    if gate.lanes == 0 {
        return 0;
    }
    let own = BlockView {
        circuit: view.circuit,
        good: view.good,
        lanes: gate.lanes,
    };
    let at = Arrival {
        signal,
        lanes: gate.lanes,
    };
    cross(own, at, gate.signal, changes)
}

/// Follows a fault as [`crate::region::follow`] does, to the stem of the current region. Among the
/// lanes in which it reaches its first signal, it takes those in which that signal complements the
/// stem.
pub(crate) fn follow_within(
    view: BlockView<'_>,
    origin: Origin,
    region: &mut Sensitized,
    changes: &mut PropagationState,
) -> Reach
    requires view { HasWords view.circuit.now.arranged view.good.now }
    requires words { (tests : List Test) × (group : ℕ)
        × AreWords view.circuit.now.arranged tests group None view.good.now }
    requires listed { Contains (faults origin.fault.model view.circuit.now.arranged)
        (stuck_fault origin.fault) }
    requires carried { Carries view.circuit.now.arranged origin.fault.line origin.carried }
    requires room { HasRoomFor view.circuit.now.arranged changes.old }
    requires clear { IsClear changes.old }
    requires sensitized { AreSensitized view.circuit.now.arranged view.good.now region.old }
    requires inside { (k : ℕ) → k < 128 → lane view.lanes k ≡ true
        → lane region.old.lanes k ≡ true }
    requires stem { IsStemOfLine view.circuit.now.arranged region.old.stem origin.fault.line }
    ensures reached { (tests : List Test) (group : ℕ)
        → AreWords view.entry.circuit.now.arranged tests group None view.entry.good.now
        → IsReached view.entry.circuit.now.arranged tests group (stuck_fault origin.fault)
        view.entry.lanes result }
    ensures stem { (at : Arrival) → result ≡ Reach.Stem at → at.signal ≡ region.old.stem }
    ensures sensitized { AreSensitized view.entry.circuit.now.arranged view.entry.good.now
        region.new }
    ensures same { IsSameRegion region.old region.new }
    ensures room { IsAsLarge changes.old changes.new }
    ensures clear { IsClear changes.new }
{
    match set_out(view, origin, changes) {
        Reach::Observed(word) => Reach::Observed(word),
        Reach::Stem(from) => {
            let stem = region.stem;
            if from.lanes == 0 {
                return Reach::Stem(Arrival {
                    signal: stem,
                    lanes: 0,
                });
            }
            let lanes = from.lanes & region.lanes_of(view, from.signal, changes);
            Reach::Stem(Arrival {
                signal: stem,
                lanes,
            })
        }
    }
}
