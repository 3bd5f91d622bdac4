//! Units: the classes of one region are simulated on 512 tests at once, those of four groups.

ghost use Rattle.std.specs.Prelude.{◌≡◌, ◌⊎◌, ℕ, ◌+◌, ◌*◌, ◌^◌, ◌<◌, ◌≤◌, All, Contains, IfOk};
ghost use Rattle.std.specs.Prelude.{List, [], Some, length, slice_get, true, vec_capacity};
ghost use Rattle.std.specs.Prelude.{◌≢◌, ◌∷◌, ◌++◌, vec_len};
ghost use Rattle.bench_net.specs.Scan.{names};
ghost use Rattle.fault_model.specs.Reordered as reordered;
ghost use Rattle.wide_words.specs.Layouts.{both_layout};
ghost use Rattle.wide_words.specs.Wide.{number};
ghost use Rattle.flat_circuit.specs.Readers.{IsObserved};
ghost use Rattle.region_sim.specs.Goals.{HaveTaken};
ghost use Rattle.region_sim.specs.OpenPlaces.{AreNextOpen, KeepsClosed};
ghost use Rattle.block_sim.specs.Listed.{IsListed};
ghost use Rattle.region_sim.specs.Pack.{IsPackClear};
ghost use Rattle.region_sim.specs.RegionHits.{HaveStem, HaveTakenOpen, IsOpenAt, IsPackAsLarge};
ghost use Rattle.region_sim.specs.UnitHits.{AreClassesAt, AreClassesInOrder, AreClassesOpen};
ghost use Rattle.region_sim.specs.UnitHits.{AreClassesStill, ArePartsAdded, AreParted};
ghost use Rattle.region_sim.specs.UnitHits.{AreUnitConcluded};
ghost use Rattle.region_sim.specs.UnitHits.{HasTakenUnitAt, HaveArrivedInUnit, HaveTakenBeside};
ghost use Rattle.region_sim.specs.UnitHits.{IsClassAt, IsTakenOrCame, IsUnitAsLarge, IsUnitPack};
ghost use Rattle.region_sim.specs.Units.{HasUnitRoom, IsSameUnitRegion, IsUnitRegion};
ghost use Rattle.region_sim.specs.Units.{IsUnitViewOf, unit_rows, unit_span};

use crate::goal::Goal;
use crate::pack::{Pack, Slot, propagate};
use crate::region_simulation::{next_open, row_at, take_at};
use crate::unit_approach::{UnitApproach, UnitView, approach, unit_view};
use crate::unit_region::UnitRegion;
use block_sim::Job;
use block_sim::origin::ListedClass;
use block_sim::propagation::Followed;
use std::alloc::{AllocError, Global};
use wide_words::{Copies, Four, Wide};

/// How many classes are simulated on a unit at once at most.
const MOST: usize = 256;

/// A class that came to the stem of its region in some lanes of a unit.
#[derive(Clone, Copy)]
pub(crate) struct UnitClass {
    pub(crate) class: u32,
    pub(crate) place: usize,
    pub(crate) lanes: Wide,
}

/// What the simulation on a unit uses: the region, the classes that came to its stem, and the same
/// classes group by group.
#[derive(Drop)]
pub(crate) struct Unit {
    pub(crate) region: UnitRegion,
    pub(crate) classes: Vec<UnitClass>,
    pub(crate) followed: Vec<Followed>,
}

impl Unit {
    /// Makes room for a circuit of this many signals.
    pub(crate) fn new(alloc: Global, signals: u32) -> Result<Unit, AllocError>
        ensures region { IfOk result (λ unit. HasUnitRoom signals unit.region) }
        ensures classes { IfOk result (λ unit. 256 ≤ vec_capacity unit.classes) }
        ensures followed { IfOk result (λ unit. 1024 ≤ vec_capacity unit.followed) }
    {
        let region = UnitRegion::new(alloc, signals)?;
        let classes = Vec::with_capacity(alloc, MOST)?;
        let followed = Vec::with_capacity(alloc, 4 * MOST)?;
        Ok(Unit {
            region,
            classes,
            followed,
        })
    }
}

/// Simulates the region whose classes are in a list from a place on, on a unit that begins with a
/// group: at most [`MOST`] of its open classes. Returns the place after the last class
/// that was simulated.
pub(crate) fn simulate_unit<G: Goal>(
    job: &Job,
    group: u32,
    rows: &[ListedClass],
    next: &[usize],
    from: usize,
    unit: &mut Unit,
    pack: &mut Pack,
    goal: &G,
    kept: &mut [G::Kept],
) -> usize
    requires low { group < 2 ^ 20 }
    requires full { 128 * group + 512 ≤ length job.now.tests.tests }
    requires rows { All (IsListed job.now) rows.now }
    requires next { AreNextOpen (G.wants goal.now) kept.old next.now }
    requires from { from < length rows.now }
    requires places { length kept.old ≡ length rows.now }
    requires region { HasUnitRoom (length (names job.now.circuit)) unit.old.region }
    requires capacity { (256 ≤ vec_capacity unit.old.classes)
        × (1024 ≤ vec_capacity unit.old.followed) }
    requires pack { IsUnitPack (length (names job.now.circuit)) pack.old }
    ensures low { from < result }
    ensures within { result ≤ length rows.now }
    ensures taken { HaveTakenOpen (G.wants goal.now) (G.means goal.now) job.now (unit_span group)
        rows.now from result kept.old kept.new }
    ensures others { (place : ℕ) → (place < from) ⊎ (result ≤ place)
        → slice_get kept.new place ≡ slice_get kept.old place }
    ensures closed { KeepsClosed (G.wants goal.now) kept.old kept.new }
    ensures places { length kept.new ≡ length kept.old }
    ensures unit { IsUnitAsLarge unit.old unit.new }
    ensures room { IsPackAsLarge pack.old pack.new }
    ensures clear { IsPackClear pack.new }
{
    if !goal.is_open(&kept[from]) {
        return next_open(next, from);
    }
    let view = unit_view(job, group);
    let number = row_at(rows, from).stem;
    let stem = view.circuit.place_of(number);
    let region = &mut unit.region;
    let classes = &mut unit.classes;
    classes.clear();
    region.begin(view.circuit, stem);
    let end = follow_unit(
        job, view, group, rows, next, from, region, classes, goal, kept,
    );
    let came = classes.as_slice();
    if came.is_empty() {
        return end;
    }
    let followed = &mut unit.followed;
    flip_unit(job, view, group, stem, came, followed, pack, goal, kept);
    end
}

/// Complements a stem on all groups of a unit at once, and lets a goal take the tests of all
/// classes that came to it.
#[inline(always)]
fn flip_unit<G: Goal>(
    job: &Job,
    view: UnitView<'_>,
    group: u32,
    stem: u32,
    came: &[UnitClass],
    followed: &mut Vec<Followed>,
    pack: &mut Pack,
    goal: &G,
    kept: &mut [G::Kept],
)
    requires low { group < 2 ^ 20 }
    requires full { 128 * group + 512 ≤ length job.now.tests.tests }
    requires view { IsUnitViewOf job.now group view }
    requires stem { stem < length (names view.circuit.now.arranged) }
    requires hidden { IsObserved view.circuit.now.arranged stem → ⊥ }
    requires few { length came.now ≤ 256 }
    requires places { (one : UnitClass) → Contains came.now one → one.place < length kept.old }
    requires ordered { AreClassesInOrder came.now }
    requires capacity { 1024 ≤ vec_capacity followed.old }
    requires pack { IsUnitPack (length (names job.now.circuit)) pack.old }
    ensures taken { (signal : ℕ) (rows : List ListedClass) (from to : ℕ) (before : List G.Kept)
        → stem ≡ reordered.place job.now.circuit view.entry.circuit.now.arranged signal
        → HaveArrivedInUnit job.now group signal came.now
        → AreClassesAt rows from to came.now
        → HaveTakenBeside (G.wants goal.now) (G.means goal.now) job.now group rows came.now from to
        before kept.old → AreClassesStill came.now before kept.old
        → HaveTakenOpen (G.wants goal.now) (G.means goal.now) job.now (unit_span group) rows from to
        before kept.new }
    ensures others { (place : ℕ) → (IsClassAt came.now place → ⊥)
        → slice_get kept.new place ≡ slice_get kept.old place }
    ensures places { length kept.new ≡ length kept.old }
    ensures capacity { vec_capacity followed.new ≡ vec_capacity followed.old }
    ensures room { IsPackAsLarge pack.old pack.new }
    ensures clear { IsPackClear pack.new }
{
    let slots = &mut pack.slots;
    followed.clear();
    slots.clear();
    give_slots(view.words, stem, came, followed, slots);
    let seen = propagate::<_, G>(view.circuit, view.words, followed.as_slice(), pack);
    conclude_unit(view.words, group, seen, came, goal, kept);
}

/// Follows the open classes of a region to its stem, from a place on. Returns the first place with
/// an open class that was not followed, or the end of the list.
fn follow_unit<G: Goal>(
    job: &Job,
    view: UnitView<'_>,
    group: u32,
    rows: &[ListedClass],
    next: &[usize],
    from: usize,
    region: &mut UnitRegion,
    classes: &mut Vec<UnitClass>,
    goal: &G,
    kept: &mut [G::Kept],
) -> usize
    requires low { group < 2 ^ 20 }
    requires full { 128 * group + 512 ≤ length job.now.tests.tests }
    requires view { IsUnitViewOf job.now group view }
    requires rows { All (IsListed job.now) rows.now }
    requires next { AreNextOpen (G.wants goal.now) kept.old next.now }
    requires from { from < length rows.now }
    requires idle { (one : G.Kept) × (slice_get kept.old from ≡ Some one)
        × (G.wants goal.now one ≡ true) }
    requires places { length kept.old ≡ length rows.now }
    requires capacity { 256 ≤ vec_capacity classes.old }
    requires none { classes.old.items ≡ [] }
    requires region { IsUnitRegion view.circuit.now.arranged both_layout (unit_rows view)
        region.old }
    requires at { (first : ListedClass) × (slice_get rows.now from ≡ Some first)
        × (region.old.stem ≡ reordered.place job.now.circuit view.circuit.now.arranged first.stem) }
    ensures low { from < result }
    ensures within { result ≤ length rows.now }
    ensures few { length classes.new.items ≤ 256 }
    ensures taken { HaveTakenBeside (G.wants goal.now) (G.means goal.now) job.now group rows.now
        classes.new.items from result kept.old kept.new }
    ensures at { AreClassesAt rows.now from result classes.new.items }
    ensures came_open { AreClassesOpen (G.wants goal.now) kept.old classes.new.items }
    ensures ordered { AreClassesInOrder classes.new.items }
    ensures still { AreClassesStill classes.new.items kept.old kept.new }
    ensures arrived { (first : ListedClass) → slice_get rows.now from ≡ Some first
        → HaveArrivedInUnit job.now group first.stem classes.new.items }
    ensures stem { (first : ListedClass) → slice_get rows.now from ≡ Some first
        → HaveStem (G.wants goal.now) rows.now kept.old from result first.stem }
    ensures hidden { (classes.new.items ≡ [])
        ⊎ (IsObserved view.entry.circuit.now.arranged region.old.stem → ⊥) }
    ensures others { (place : ℕ) → (place < from) ⊎ (result ≤ place)
        → slice_get kept.new place ≡ slice_get kept.old place }
    ensures closed { KeepsClosed (G.wants goal.now) kept.old kept.new }
    ensures places { length kept.new ≡ length kept.old }
    ensures capacity { vec_capacity classes.new ≡ vec_capacity classes.old }
    ensures same { IsSameUnitRegion region.old region.new }
{
    let stem = row_at(rows, from).stem;
    let mut place = from;
    while place < rows.len() {
        if !goal.is_open(&kept[place]) {
            place = next_open(next, place);
            continue;
        }
        let row = row_at(rows, place);
        let count = classes.as_slice().len();
        if row.stem != stem || count >= MOST {
            return place;
        }
        follow_row_in_unit(job, view, group, row, place, region, classes, goal, kept);
        place = next_open(next, place);
    }
    place
}

/// Follows one class of a region, and lets a goal take its tests if they are known at once.
#[inline(always)]
fn follow_row_in_unit<G: Goal>(
    job: &Job,
    view: UnitView<'_>,
    group: u32,
    row: ListedClass,
    place: usize,
    region: &mut UnitRegion,
    classes: &mut Vec<UnitClass>,
    goal: &G,
    kept: &mut [G::Kept],
)
    requires low { group < 2 ^ 20 }
    requires full { 128 * group + 512 ≤ length job.now.tests.tests }
    requires view { IsUnitViewOf job.now group view }
    requires row { IsListed job.now row }
    requires place { place < length kept.old }
    requires capacity { vec_len classes.old < vec_capacity classes.old }
    requires region { IsUnitRegion view.circuit.now.arranged both_layout (unit_rows view)
        region.old }
    requires at { region.old.stem
        ≡ reordered.place job.now.circuit view.circuit.now.arranged row.stem }
    ensures taken { IsTakenOrCame (G.means goal.now) job.now group row place classes.old.items
        classes.new.items kept.old kept.new }
    ensures hidden { (classes.new.items ≡ classes.old.items)
        ⊎ (IsObserved view.entry.circuit.now.arranged region.old.stem → ⊥) }
    ensures capacity { vec_capacity classes.new ≡ vec_capacity classes.old }
    ensures region { IsUnitRegion view.entry.circuit.now.arranged both_layout
        (unit_rows view.entry) region.new }
    ensures same { IsSameUnitRegion region.old region.new }
{
    if !view.circuit.is_live(region.stem) {
        take_unit_at(goal, view.words, group, Wide::none(), kept, place);
        return;
    }
    match approach(job, view, group, row, region) {
        UnitApproach::Known(lanes) => {
            take_unit_at(goal, view.words, group, lanes, kept, place);
        }
        UnitApproach::AtStem(lanes) => classes.push_reserved(UnitClass {
            class: row.class,
            place,
            lanes,
        }),
    }
}

/// Gives a stem a slot for each group, with the parts of the classes that came to it there.
fn give_slots(
    words: Four<'_>,
    stem: u32,
    classes: &[UnitClass],
    followed: &mut Vec<Followed>,
    slots: &mut Vec<Slot>,
)
    requires few { length classes.now ≤ 256 }
    requires none { (followed.old.items ≡ []) × (slots.old.items ≡ []) }
    requires capacity { (1024 ≤ vec_capacity followed.old) × (4 ≤ vec_capacity slots.old) }
    ensures parted { AreParted stem classes.now slots.new.items followed.new.items }
    ensures capacity { (vec_capacity followed.new ≡ vec_capacity followed.old)
        × (vec_capacity slots.new ≡ vec_capacity slots.old) }
{
    for slot in 0..4usize {
        let begin = followed.as_slice().len();
        add_parts(words, slot, classes, followed);
        let end = followed.as_slice().len();
        slots.push_reserved(Slot { stem, begin, end });
    }
}

/// Adds the parts that classes have in a slot at the end of a list.
#[inline(always)]
fn add_parts(words: Four<'_>, slot: usize, classes: &[UnitClass], followed: &mut Vec<Followed>)
    requires slot { slot < 4 }
    requires capacity { vec_len followed.old + length classes.now ≤ vec_capacity followed.old }
    ensures added { ArePartsAdded slot classes.now followed.old.items followed.new.items }
    ensures len { vec_len followed.new ≤ vec_len followed.old + length classes.now }
    ensures capacity { vec_capacity followed.new ≡ vec_capacity followed.old }
{
    for one in classes {
        let part = Followed {
            class: one.class,
            place: one.place,
            lanes: words.part(slot, one.lanes),
        };
        add_part(followed, part);
    }
}

/// Adds a part at the end if it has some lanes.
#[inline(always)]
fn add_part(followed: &mut Vec<Followed>, part: Followed)
    requires capacity { vec_len followed.old < vec_capacity followed.old }
    ensures some { part.lanes ≢ 0 → followed.new.items ≡ followed.old.items ++ part ∷ [] }
    ensures none { part.lanes ≡ 0 → followed.new.items ≡ followed.old.items }
    ensures len { vec_len followed.new ≤ vec_len followed.old + 1 }
    ensures capacity { vec_capacity followed.new ≡ vec_capacity followed.old }
{
    if part.lanes != 0 {
        followed.push_reserved(part);
    }
}

/// Lets a goal take the tests of all classes that came to the stem.
fn conclude_unit<G: Goal>(
    words: Four<'_>,
    group: u32,
    seen: Wide,
    classes: &[UnitClass],
    goal: &G,
    kept: &mut [G::Kept],
)
    requires low { group < 2 ^ 20 }
    requires places { (one : UnitClass) → Contains classes.now one
        → one.place < length kept.old }
    requires ordered { AreClassesInOrder classes.now }
    ensures places { length kept.new ≡ length kept.old }
    ensures others { (place : ℕ) → (IsClassAt classes.now place → ⊥)
        → slice_get kept.new place ≡ slice_get kept.old place }
    ensures concluded { AreUnitConcluded G.ALL_LANES (G.means goal.now) group (number seen)
        classes.now kept.old kept.new }
{
    for one in classes {
        take_unit_at(goal, words, group, one.lanes.and(seen), kept, one.place);
    }
}

/// Lets a goal take the tests of a unit of a class, which stands at a place of a list. It takes one
/// group after the other.
#[inline(always)]
fn take_unit_at<G: Goal>(
    goal: &G,
    words: Four<'_>,
    group: u32,
    lanes: Wide,
    kept: &mut [G::Kept],
    place: usize,
)
    requires group { group < 2 ^ 20 }
    requires place { place < length kept.old }
    ensures places { length kept.new ≡ length kept.old }
    ensures others { (other : ℕ) → other ≢ place
        → slice_get kept.new other ≡ slice_get kept.old other }
    ensures taken { HasTakenUnitAt G.ALL_LANES (G.means goal.now) group (number lanes) kept.old
        kept.new place }
{
    for slot in 0..4u32 {
        let part = words.part(slot as usize, lanes);
        take_at(goal, group + slot, part, kept, place);
    }
}
