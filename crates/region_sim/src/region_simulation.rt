//! The tests that detect the classes of a list, computed region by region.

ghost use Rattle.std.specs.Prelude.{◌≡◌, ◌≢◌, ◌⊎◌, ◌+◌, ◌*◌, ◌++◌, ◌^◌, ◌<◌, ◌≤◌, ◌∷◌, ℕ, All};
ghost use Rattle.std.specs.Prelude.{Contains, IfOk, List, [], OnOk, Some, length, slice_get};
ghost use Rattle.std.specs.Prelude.{vec_capacity, vec_len};
ghost use Rattle.bench_net.specs.Scan.{names};
ghost use Rattle.patterns.specs.Tests.{blocks};
ghost use Rattle.wide_words.specs.Lanes.{slots};
ghost use Rattle.wide_words.specs.Wide.{number};
ghost use Rattle.flat_circuit.specs.BlockSpans.{IsSpan};
ghost use Rattle.flat_circuit.specs.Readers.{IsObserved};
ghost use Rattle.block_sim.specs.Listed.{IsListed};
ghost use Rattle.block_sim.specs.Parts.{Parts};
ghost use Rattle.block_sim.specs.PropagationState.{HasRoomFor, IsAsLarge, IsClear};
ghost use Rattle.region_sim.specs.Arrivals.{IsApproach};
ghost use Rattle.region_sim.specs.Goals.{HaveTaken, IsSweep};
ghost use Rattle.region_sim.specs.OpenPlaces.{AgreeFrom, AreNextOpen, KeepsClosed};
ghost use Rattle.region_sim.specs.Pack.{AreSlots, HasPackRoom, IsPackClear, IsWithin};
ghost use Rattle.region_sim.specs.RegionHits.{AreApart, AreConcluded, AreCopied, AreFollowedAt};
ghost use Rattle.region_sim.specs.RegionHits.{AreGathered};
ghost use Rattle.region_sim.specs.RegionHits.{AreInOrder, AreOpen, AreSlotsConcluded, AreStill};
ghost use Rattle.region_sim.specs.RegionHits.{HasAdded, HasSameRoom, HasTakenWord, HaveTakenBut};
ghost use Rattle.region_sim.specs.RegionHits.{HaveTakenOpen, IsEndOfRegion, IsFollowedAt};
ghost use Rattle.region_sim.specs.RegionHits.{IsHiddenStem, IsPackAsLarge, IsTakenOrFollowed};
ghost use Rattle.region_sim.specs.RegionHits.{ServesRegions};
ghost use Rattle.region_sim.specs.Sensitized.{HasBegun, HasRoomForRegions, IsSameRegion, IsViewOf};

use crate::goal::{FirstUnit, Goal};
use crate::pack::{Pack, Slot, propagate};
use crate::region::{Approach, Arrival, Reach};
use crate::sensitized::{Sensitized, follow_within};
use crate::unit_simulation::{Unit, simulate_unit};
use block_sim::Job;
use block_sim::block_span::{BlockSpan, is_unit};
use block_sim::block_view::BlockView;
use block_sim::launch_condition::launch_lanes;
use block_sim::origin::{ListedClass, origin_of};
use block_sim::propagation::Followed;
use block_sim::propagation_state::PropagationState;
use std::alloc::{AllocError, Global};
use std::marker::Model;
use wide_words::{Both, Copies, High, Low, Wide};

/// The simulation of whole fanout-free regions, for a list of classes on which the classes of a
/// region are adjacent. All open classes of a region are simulated together on a block: each is
/// followed to the stem of the region, and the stem is complemented once (Lee and Ha, HOPE: An
/// Efficient Parallel Fault Simulator).
///
/// Each class has a place in the list. What the goal of the simulation keeps of it stands there.
#[derive(Drop)]
pub struct RegionSimulation {
    changes: PropagationState,
    followed: Vec<Followed>,
    region: Sensitized,
    pack: Pack,
    unit: Unit,
}

impl Model for RegionSimulation {
    ghost use Rattle.std.specs.Prelude.{length, vec_capacity};
    ghost use Rattle.region_sim.specs.RegionHits.{IsReadyForPacks, RegionsSimulated};

    ghost Value = { RegionsSimulated };

    ghost view = { λ s. record {
      signals = length s.changes.overlay;
      capacity = vec_capacity s.followed;
    } };

    ghost invariant = { λ s. IsReadyForPacks s.changes s.region s.pack s.unit };
}

impl RegionSimulation {
    /// Makes room for the simulation of the regions of a job, with no room for lists of classes yet
    /// ([`RegionSimulation::make_room`]). It takes a few words and numbers for each signal.
    pub fn new(alloc: Global, job: &Job) -> Result<RegionSimulation, AllocError>
        ensures serves { IfOk result (λ simulation. ServesRegions simulation job.now 0) }
    {
        let signals = job.circuit().signals();
        let changes = PropagationState::new(alloc, signals)?;
        let followed = Vec::new(alloc);
        let region = Sensitized::new(alloc, signals)?;
        let pack = Pack::new(alloc, signals)?;
        let unit = Unit::new(alloc, signals)?;
        Ok(RegionSimulation {
            changes,
            followed,
            region,
            pack,
            unit,
        })
    }

    /// Makes room for lists of this number of classes. It takes a few numbers for each of them, if
    /// no list before had as many.
    pub fn make_room(&mut self, places: usize) -> Result<(), AllocError>
        ensures serves { (job : Parts) → ServesRegions self.old job 0
            → OnOk result (ServesRegions self.new job places) }
        ensures kept { (job : Parts) → ServesRegions self.old job 0
            → ServesRegions self.new job 0 }
    {
        self.followed.clear();
        self.followed.reserve(places)
    }

    /// Simulates all regions whose classes are in a list, on the blocks of a span: the goal takes
    /// the tests of these blocks of each class that is open. `next` has for each place a later one,
    /// such that no place between the two has an open class. It takes no memory.
    pub fn simulate<G: Goal>(
        &mut self,
        job: &Job,
        span: BlockSpan,
        rows: &[ListedClass],
        next: &[usize],
        goal: &G,
        kept: &mut [G::Kept],
    )
        requires serves { ServesRegions self.old job.now (length rows.now) }
        requires span { IsSweep (length job.now.tests.tests) span }
        requires rows { All (IsListed job.now) rows.now }
        requires places { length kept.old ≡ length rows.now }
        requires next { AreNextOpen (G.wants goal.now) kept.old next.now }
        ensures taken { HaveTaken (G.means goal.now) job.now span rows.now 0 (length rows.now)
            kept.old kept.new }
        ensures closed { KeepsClosed (G.wants goal.now) kept.old kept.new }
        ensures places { length kept.new ≡ length kept.old }
        ensures serves { ServesRegions self.new job.now (length rows.now) }
    {
        let mut place = 0;
        while place < rows.len() {
            place = self.simulate_region(job, span, rows, next, place, goal, kept);
        }
    }

    /// Simulates the region whose classes are in a list from a place on, with a few regions after
    /// it, on the blocks of a span. Returns the place after the last class that was simulated.
    #[inline(never)]
    fn simulate_region<G: Goal>(
        &mut self,
        job: &Job,
        span: BlockSpan,
        rows: &[ListedClass],
        next: &[usize],
        from: usize,
        goal: &G,
        kept: &mut [G::Kept],
    ) -> usize
        requires serves { ServesRegions self.old job.now (length rows.now) }
        requires span { IsSweep (length job.now.tests.tests) span }
        requires rows { All (IsListed job.now) rows.now }
        requires places { length kept.old ≡ length rows.now }
        requires next { AreNextOpen (G.wants goal.now) kept.old next.now }
        requires from { from < length rows.now }
        ensures low { from < result }
        ensures within { result ≤ length rows.now }
        ensures taken { HaveTaken (G.means goal.now) job.now span rows.now from result kept.old
            kept.new }
        ensures others { (place : ℕ) → (place < from) ⊎ (result ≤ place)
            → slice_get kept.new place ≡ slice_get kept.old place }
        ensures closed { KeepsClosed (G.wants goal.now) kept.old kept.new }
        ensures places { length kept.new ≡ length kept.old }
        ensures serves { ServesRegions self.new job.now (length rows.now) }
    {
        let _tests = job.tests();
        if span.last - span.first > 1 {
            let unit = &mut self.unit;
            let pack = &mut self.pack;
            let group = span.first / 2;
            return simulate_unit(job, group, rows, next, from, unit, pack, goal, kept);
        }
        let view = view_of(job, span);
        let room = stems_at_once(span);
        let region = &mut self.region;
        let changes = &mut self.changes;
        let followed = &mut self.followed;
        let pack = &mut self.pack;
        followed.clear();
        pack.slots.clear();
        let stems = &mut pack.slots;
        let end = gather_regions(
            job, view, span, rows, next, from, room, region, changes, followed, stems, goal, kept,
        );
        let all = followed.as_slice();
        flip_all(job, view, span, all, pack, goal, kept);
        end
    }
}

/// Returns the blocks that are simulated at once from a block on ([`Job::last_together`], or the
/// first unit).
pub fn sweep_from(job: &Job, block: u32, first_unit: FirstUnit) -> BlockSpan
    requires { block < blocks (length job.now.tests.tests) }
    ensures sweep { IsSweep (length job.now.tests.tests) result }
    ensures first { result.first ≡ block }
    ensures ordered { block ≤ result.last }
    ensures within { result.last < blocks (length job.now.tests.tests) }
{
    match first_unit {
        FirstUnit::AtOnce if is_unit(job.tests(), block) => BlockSpan {
            first: block,
            last: block + 7,
        },
        _ => {
            let last = job.last_together(block);
            BlockSpan { first: block, last }
        }
    }
}

/// Returns how many stems a pack has at most on a span.
fn stems_at_once(span: BlockSpan) -> usize
    ensures { ((result ≡ 8) × (span.first ≡ span.last)) ⊎ (result ≡ 4) }
{
    if span.first == span.last { 8 } else { 4 }
}

/// Follows the open classes of one region after the other to their stems, from a place on, until
/// this many slots have a stem or the list ends. Returns the place after the last class that was
/// followed.
fn gather_regions<G: Goal>(
    job: &Job,
    view: BlockView<'_>,
    span: BlockSpan,
    rows: &[ListedClass],
    next: &[usize],
    from: usize,
    room: usize,
    region: &mut Sensitized,
    changes: &mut PropagationState,
    followed: &mut Vec<Followed>,
    stems: &mut Vec<Slot>,
    goal: &G,
    kept: &mut [G::Kept],
) -> usize
    requires span { IsSpan (length job.now.tests.tests) span }
    requires low { span.first < 2 ^ 20 }
    requires room { HasRoomFor job.now.circuit changes.old }
    requires clear { IsClear changes.old }
    requires rows { All (IsListed job.now) rows.now }
    requires next { AreNextOpen (G.wants goal.now) kept.old next.now }
    requires within { from < length rows.now }
    requires places { length kept.old ≡ length rows.now }
    requires capacity { length rows.now ≤ vec_capacity followed.old }
    requires none { followed.old.items ≡ [] }
    requires len { vec_len followed.old ≡ 0 }
    requires view { IsViewOf job.now span view }
    requires regions { HasRoomForRegions (length (names job.now.circuit)) region.old }
    requires slots { (0 < room) × (room ≤ vec_capacity stems.old) }
    requires no_stem { stems.old.items ≡ [] }
    ensures low { from < result }
    ensures within { result ≤ length rows.now }
    ensures few { length stems.new.items ≤ room }
    ensures gathered { AreGathered (G.wants goal.now) (G.means goal.now) job.now
        view.entry.circuit.now.arranged span rows.now from result stems.new.items
        followed.new.items kept.old kept.new }
    ensures others { (place : ℕ) → (place < from) ⊎ (result ≤ place)
        → slice_get kept.new place ≡ slice_get kept.old place }
    ensures closed { KeepsClosed (G.wants goal.now) kept.old kept.new }
    ensures places { length kept.new ≡ length kept.old }
    ensures capacity { (vec_capacity followed.new ≡ vec_capacity followed.old)
        × (vec_capacity stems.new ≡ vec_capacity stems.old) }
    ensures room { IsAsLarge changes.old changes.new }
    ensures regions { HasSameRoom region.old region.new }
    ensures clear { IsClear changes.new }
{
    let mut at = from;
    while at < rows.len() {
        let count = stems.as_slice().len();
        if count >= room {
            return at;
        }
        at = add_region(
            job, view, span, rows, next, at, region, changes, followed, stems, goal, kept,
        );
    }
    at
}

/// Follows the open classes of a region to its stem, which gets the next slot if some came to it.
/// Returns the first place with an open class of another region, or the end of the list. If the
/// class at the place is not open, it returns the next place alone.
fn add_region<G: Goal>(
    job: &Job,
    view: BlockView<'_>,
    span: BlockSpan,
    rows: &[ListedClass],
    next: &[usize],
    from: usize,
    region: &mut Sensitized,
    changes: &mut PropagationState,
    followed: &mut Vec<Followed>,
    stems: &mut Vec<Slot>,
    goal: &G,
    kept: &mut [G::Kept],
) -> usize
    requires span { IsSpan (length job.now.tests.tests) span }
    requires low { span.first < 2 ^ 20 }
    requires room { HasRoomFor job.now.circuit changes.old }
    requires clear { IsClear changes.old }
    requires rows { All (IsListed job.now) rows.now }
    requires next { AreNextOpen (G.wants goal.now) kept.old next.now }
    requires within { from < length rows.now }
    requires places { length kept.old ≡ length rows.now }
    requires capacity { length rows.now ≤ vec_capacity followed.old }
    requires len { vec_len followed.old ≤ from }
    requires view { IsViewOf job.now span view }
    requires regions { HasRoomForRegions (length (names job.now.circuit)) region.old }
    requires slots { vec_len stems.old < vec_capacity stems.old }
    ensures low { from < result }
    ensures within { result ≤ length rows.now }
    ensures len { vec_len followed.new ≤ result }
    ensures few { length stems.new.items ≤ length stems.old.items + 1 }
    ensures gathered { (first : ℕ) (before : List G.Kept) → first ≤ from
        → AgreeFrom from before kept.old
        → AreGathered (G.wants goal.now) (G.means goal.now) job.now
        view.entry.circuit.now.arranged span rows.now first from stems.old.items
        followed.old.items before kept.old
        → AreGathered (G.wants goal.now) (G.means goal.now) job.now
        view.entry.circuit.now.arranged span rows.now first result stems.new.items
        followed.new.items before kept.new }
    ensures others { (place : ℕ) → (place < from) ⊎ (result ≤ place)
        → slice_get kept.new place ≡ slice_get kept.old place }
    ensures closed { KeepsClosed (G.wants goal.now) kept.old kept.new }
    ensures places { length kept.new ≡ length kept.old }
    ensures capacity { (vec_capacity followed.new ≡ vec_capacity followed.old)
        × (vec_capacity stems.new ≡ vec_capacity stems.old) }
    ensures room { IsAsLarge changes.old changes.new }
    ensures regions { HasSameRoom region.old region.new }
    ensures clear { IsClear changes.new }
{
    if !goal.is_open(&kept[from]) {
        return next_open(next, from);
    }
    let row = row_at(rows, from);
    let stem = view.circuit.place_of(row.stem);
    let begin = followed.as_slice().len();
    region.begin(view, stem);
    let at = follow_region(
        job, view, span, rows, next, from, region, changes, followed, goal, kept,
    );
    let end = followed.as_slice().len();
    add_slot(stems, Slot { stem, begin, end });
    at
}

/// Adds a slot at the end if it has some classes.
#[inline(always)]
fn add_slot(stems: &mut Vec<Slot>, slot: Slot)
    requires capacity { vec_len stems.old < vec_capacity stems.old }
    ensures some { slot.begin < slot.end → stems.new.items ≡ stems.old.items ++ slot ∷ [] }
    ensures none { slot.end ≤ slot.begin → stems.new.items ≡ stems.old.items }
    ensures capacity { vec_capacity stems.new ≡ vec_capacity stems.old }
{
    if slot.begin < slot.end {
        stems.push_reserved(slot);
    }
}

/// Complements the stems of a pack at once, each in lanes of its own, and lets a goal take the
/// tests of all classes that came to them.
fn flip_all<G: Goal>(
    job: &Job,
    view: BlockView<'_>,
    span: BlockSpan,
    followed: &[Followed],
    pack: &mut Pack,
    goal: &G,
    kept: &mut [G::Kept],
)
    requires span { IsSpan (length job.now.tests.tests) span }
    requires low { span.first < 2 ^ 20 }
    requires view { IsViewOf job.now span view }
    requires places { (one : Followed) → Contains followed.now one → one.place < length kept.old }
    requires ordered { AreInOrder followed.now }
    requires room { HasPackRoom view.circuit.now.arranged pack.old }
    requires clear { IsPackClear pack.old }
    requires few { (length pack.old.slots.items ≤ 4)
        ⊎ ((length pack.old.slots.items ≤ 8) × (span.first ≡ span.last)) }
    requires slots { All (IsWithin followed.now) pack.old.slots.items }
    requires apart { AreApart pack.old.slots.items }
    requires stems { All (IsHiddenStem view.circuit.now.arranged) pack.old.slots.items }
    ensures taken { (rows : List ListedClass) (from to : ℕ) (before : List G.Kept)
        → AreGathered (G.wants goal.now) (G.means goal.now) job.now
        view.entry.circuit.now.arranged span rows from to pack.old.slots.items followed.now before
        kept.old
        → HaveTakenOpen (G.wants goal.now) (G.means goal.now) job.now span rows from to before
        kept.new }
    ensures others { (place : ℕ) → (IsFollowedAt followed.now place → ⊥)
        → slice_get kept.new place ≡ slice_get kept.old place }
    ensures places { length kept.new ≡ length kept.old }
    ensures room { IsPackAsLarge pack.old pack.new }
    ensures clear { IsPackClear pack.new }
{
    if span.first < span.last {
        let copies = Both { words: view.good };
        flip_pack(job, view, span, copies, followed, pack, goal, kept);
        return;
    }
    if span.first % 2 == 0 {
        let copies = Low { words: view.good };
        flip_pack(job, view, span, copies, followed, pack, goal, kept);
        return;
    }
    let copies = High { words: view.good };
    flip_pack(job, view, span, copies, followed, pack, goal, kept);
}

/// Complements the stems of a pack on copies of the tests of a span, and lets a goal take the tests
/// of all classes that came to them.
#[inline(never)]
fn flip_pack<C: Copies, G: Goal>(
    job: &Job,
    view: BlockView<'_>,
    span: BlockSpan,
    copies: C,
    followed: &[Followed],
    pack: &mut Pack,
    goal: &G,
    kept: &mut [G::Kept],
)
    requires span { IsSpan (length job.now.tests.tests) span }
    requires low { span.first < 2 ^ 20 }
    requires view { IsViewOf job.now span view }
    requires places { (one : Followed) → Contains followed.now one → one.place < length kept.old }
    requires ordered { AreInOrder followed.now }
    requires room { HasPackRoom view.circuit.now.arranged pack.old }
    requires clear { IsPackClear pack.old }
    requires slots { AreSlots C.layout view.circuit.now.arranged pack.old.slots.items followed.now }
    requires apart { AreApart pack.old.slots.items }
    requires copied { AreCopied C.layout (length job.now.tests.tests) span }
    requires rows { (slot : ℕ) → C.rows copies slot ≡ view.good.now }
    ensures taken { (rows : List ListedClass) (from to : ℕ) (before : List G.Kept)
        → AreGathered (G.wants goal.now) (G.means goal.now) job.now
        view.entry.circuit.now.arranged span rows from to pack.old.slots.items followed.now before
        kept.old
        → HaveTakenOpen (G.wants goal.now) (G.means goal.now) job.now span rows from to before
        kept.new }
    ensures others { (place : ℕ) → (IsFollowedAt followed.now place → ⊥)
        → slice_get kept.new place ≡ slice_get kept.old place }
    ensures places { length kept.new ≡ length kept.old }
    ensures room { IsPackAsLarge pack.old pack.new }
    ensures clear { IsPackClear pack.new }
{
    let seen = propagate::<C, G>(view.circuit, copies, followed, pack);
    let stems = pack.slots.as_slice();
    conclude_slots(span, copies, seen, followed, stems, goal, kept);
}

/// Lets a goal take the tests of the followed classes of each slot.
fn conclude_slots<C: Copies, G: Goal>(
    span: BlockSpan,
    copies: C,
    seen: Wide,
    followed: &[Followed],
    stems: &[Slot],
    goal: &G,
    kept: &mut [G::Kept],
)
    requires low { span.first < 2 ^ 20 }
    requires places { (one : Followed) → Contains followed.now one → one.place < length kept.old }
    requires ordered { AreInOrder followed.now }
    requires slots { length stems.now ≤ slots C.layout }
    requires within { All (IsWithin followed.now) stems.now }
    requires apart { AreApart stems.now }
    ensures places { length kept.new ≡ length kept.old }
    ensures concluded { AreSlotsConcluded G.ALL_LANES (G.means goal.now) C.layout span
        (number seen) followed.now stems.now (length stems.now) kept.old kept.new }
{
    for slot in 0..stems.len() {
        let at = stems[slot];
        let own = &followed[at.begin..at.end];
        let word = copies.part(slot, seen);
        conclude(span, word, own, goal, kept);
    }
}

/// Returns the class at a place of a list.
pub(crate) fn row_at(rows: &[ListedClass], place: usize) -> ListedClass
    requires { place < length rows.now }
    ensures { slice_get rows.now place ≡ Some result }
{
    rows[place]
}

/// Returns the next place whose class may be open.
#[inline(always)]
pub(crate) fn next_open(next: &[usize], place: usize) -> usize
    requires { place < length next.now }
    ensures { slice_get next.now place ≡ Some result }
{
    next[place]
}

/// Returns the circuit as the job's simulation reads it, with the words of a span's group and the
/// lanes of its tests.
pub(crate) fn view_of(job: &Job, span: BlockSpan) -> BlockView<'_>
    requires { IsSpan (length job.now.tests.tests) span }
    ensures { IsViewOf job.now span result }
{
    let words = job.words();
    BlockView {
        circuit: words.circuit,
        good: words.of(span.first / 2),
        lanes: span.test_lanes(job.tests()),
    }
}

/// Follows the open classes of a region, from a place on. Returns the first place with an open
/// class of another region, or the end of the list.
fn follow_region<G: Goal>(
    job: &Job,
    view: BlockView<'_>,
    span: BlockSpan,
    rows: &[ListedClass],
    next: &[usize],
    from: usize,
    region: &mut Sensitized,
    changes: &mut PropagationState,
    followed: &mut Vec<Followed>,
    goal: &G,
    kept: &mut [G::Kept],
) -> usize
    requires span { IsSpan (length job.now.tests.tests) span }
    requires low { span.first < 2 ^ 20 }
    requires room { HasRoomFor job.now.circuit changes.old }
    requires clear { IsClear changes.old }
    requires rows { All (IsListed job.now) rows.now }
    requires next { AreNextOpen (G.wants goal.now) kept.old next.now }
    requires within { from < length rows.now }
    requires places { length kept.old ≡ length rows.now }
    requires capacity { length rows.now ≤ vec_capacity followed.old }
    requires len { vec_len followed.old ≤ from }
    requires view { IsViewOf job.now span view }
    requires begun { (first : ListedClass) × (slice_get rows.now from ≡ Some first)
        × HasBegun job.now view first.stem region.old }
    ensures end { IsEndOfRegion (G.wants goal.now) rows.now kept.old from result }
    ensures taken { (first : ℕ) (before : List G.Kept) → first ≤ from
        → AgreeFrom from before kept.old
        → HaveTakenBut (G.wants goal.now) (G.means goal.now) job.now span rows.now
        followed.old.items first from before kept.old
        → HaveTakenBut (G.wants goal.now) (G.means goal.now) job.now span rows.now
        followed.new.items first result before kept.new }
    ensures still { (first : ℕ) (before : List G.Kept) → first ≤ from
        → AgreeFrom from before kept.old → AreFollowedAt rows.now first from followed.old.items
        → AreStill followed.old.items before kept.old
        → AreStill followed.new.items before kept.new }
    ensures ordered { (first : ℕ) → first ≤ from
        → AreFollowedAt rows.now first from followed.old.items
        → AreInOrder followed.old.items → AreInOrder followed.new.items }
    ensures at { (first : ℕ) → first ≤ from → AreFollowedAt rows.now first from followed.old.items
        → AreFollowedAt rows.now first result followed.new.items }
    ensures added { (row : ListedClass) → slice_get rows.now from ≡ Some row
        → HasAdded job.now span row.stem followed.old.items followed.new.items }
    ensures idle { (before : List G.Kept) → AgreeFrom from before kept.old
        → AreOpen (G.wants goal.now) before followed.old.items
        → AreOpen (G.wants goal.now) before followed.new.items }
    ensures hidden { (followed.new.items ≡ followed.old.items)
        ⊎ (IsObserved view.entry.circuit.now.arranged region.old.stem → ⊥) }
    ensures len { vec_len followed.new ≤ result }
    ensures others { (place : ℕ) → (place < from) ⊎ (result ≤ place)
        → slice_get kept.new place ≡ slice_get kept.old place }
    ensures closed { KeepsClosed (G.wants goal.now) kept.old kept.new }
    ensures same { IsSameRegion region.old region.new }
    ensures places { length kept.new ≡ length kept.old }
    ensures capacity { vec_capacity followed.new ≡ vec_capacity followed.old }
    ensures room { IsAsLarge changes.old changes.new }
    ensures clear { IsClear changes.new }
{
    let stem = row_at(rows, from).stem;
    let mut place = from;
    while place < rows.len() {
        if !goal.is_open(&kept[place]) {
            place = next_open(next, place);
            continue;
        }
        let row = row_at(rows, place);
        if row.stem != stem {
            return place;
        }
        follow_row(
            job, view, span, row, place, region, changes, followed, goal, kept,
        );
        place = next_open(next, place);
    }
    place
}

/// Follows one class of a region, and lets a goal take its tests if they are known at once.
fn follow_row<G: Goal>(
    job: &Job,
    view: BlockView<'_>,
    span: BlockSpan,
    row: ListedClass,
    place: usize,
    region: &mut Sensitized,
    changes: &mut PropagationState,
    followed: &mut Vec<Followed>,
    goal: &G,
    kept: &mut [G::Kept],
)
    requires span { IsSpan (length job.now.tests.tests) span }
    requires low { span.first < 2 ^ 20 }
    requires room { HasRoomFor job.now.circuit changes.old }
    requires clear { IsClear changes.old }
    requires row { IsListed job.now row }
    requires place { place < length kept.old }
    requires capacity { vec_len followed.old < vec_capacity followed.old }
    requires view { IsViewOf job.now span view }
    requires begun { HasBegun job.now view row.stem region.old }
    ensures taken { IsTakenOrFollowed (G.means goal.now) job.now span row place followed.old.items
        followed.new.items kept.old kept.new }
    ensures hidden { (followed.new.items ≡ followed.old.items)
        ⊎ (IsObserved view.entry.circuit.now.arranged region.old.stem → ⊥) }
    ensures len { vec_len followed.new ≤ vec_len followed.old + 1 }
    ensures capacity { vec_capacity followed.new ≡ vec_capacity followed.old }
    ensures begun { HasBegun job.now view.entry row.stem region.new }
    ensures same { IsSameRegion region.old region.new }
    ensures room { IsAsLarge changes.old changes.new }
    ensures clear { IsClear changes.new }
{
    match follow_listed(job, view, span, row, region, changes) {
        Approach::Known(word) => take_at(goal, span.first / 2, word, kept, place),
        Approach::Stem(at) => followed.push_reserved(Followed {
            class: row.class,
            place,
            lanes: at.lanes,
        }),
    }
}

/// Follows a class to the stem of the current region. Each lane in which it comes to an observed
/// stem detects it.
pub(crate) fn follow_listed(
    job: &Job,
    view: BlockView<'_>,
    span: BlockSpan,
    row: ListedClass,
    region: &mut Sensitized,
    changes: &mut PropagationState,
) -> Approach
    requires span { IsSpan (length job.now.tests.tests) span }
    requires room { HasRoomFor job.now.circuit changes.old }
    requires clear { IsClear changes.old }
    requires row { IsListed job.now row }
    requires view { IsViewOf job.now span view }
    requires begun { HasBegun job.now view row.stem region.old }
    ensures approach { IsApproach job.now row.class span result }
    ensures stem { (at : Arrival) → result ≡ Approach.Stem at → at.signal ≡ row.stem }
    ensures hidden { (at : Arrival) → result ≡ Approach.Stem at
        → IsObserved view.entry.circuit.now.arranged region.old.stem → ⊥ }
    ensures begun { HasBegun job.now view.entry row.stem region.new }
    ensures same { IsSameRegion region.old region.new }
    ensures room { IsAsLarge changes.old changes.new }
    ensures clear { IsClear changes.new }
{
    let lanes = view.lanes & launch_lanes(job, span.first / 2, row.representative);
    let own = BlockView {
        circuit: view.circuit,
        good: view.good,
        lanes,
    };
    let origin = origin_of(view.circuit, row.representative);
    match follow_within(own, origin, region, changes) {
        Reach::Observed(word) => Approach::Known(word),
        Reach::Stem(at) => {
            let lanes = lanes & at.lanes;
            if lanes == 0 {
                return Approach::Known(0);
            }
            if view.circuit.is_observed(at.signal) {
                return Approach::Known(lanes);
            }
            Approach::Stem(Arrival {
                signal: row.stem,
                lanes,
            })
        }
    }
}

/// Lets a goal take the tests of all followed classes.
fn conclude<G: Goal>(
    span: BlockSpan,
    seen: u128,
    followed: &[Followed],
    goal: &G,
    kept: &mut [G::Kept],
)
    requires span { span.first < 2 ^ 20 }
    requires places { (one : Followed) → Contains followed.now one → one.place < length kept.old }
    requires ordered { AreInOrder followed.now }
    ensures places { length kept.new ≡ length kept.old }
    ensures others { (place : ℕ) → (IsFollowedAt followed.now place → ⊥)
        → slice_get kept.new place ≡ slice_get kept.old place }
    ensures detection { AreConcluded G.ALL_LANES (G.means goal.now) span seen followed.now kept.old
        kept.new }
{
    for one in followed {
        take_at(goal, span.first / 2, one.lanes & seen, kept, one.place);
    }
}

/// Lets a goal take the tests of a group of a class, which stands at a place of a list.
#[inline(always)]
pub(crate) fn take_at<G: Goal>(
    goal: &G,
    group: u32,
    lanes: u128,
    kept: &mut [G::Kept],
    place: usize,
)
    requires group { group < 2 ^ 21 }
    requires place { place < length kept.old }
    ensures places { length kept.new ≡ length kept.old }
    ensures others { (other : ℕ) → other ≢ place
        → slice_get kept.new other ≡ slice_get kept.old other }
    ensures taken { HasTakenWord G.ALL_LANES (G.means goal.now) group lanes kept.old
        kept.new place }
{
    goal.take(&mut kept[place], group, lanes);
}
