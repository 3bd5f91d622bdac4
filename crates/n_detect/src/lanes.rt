//! The tests of a group that detect the classes of a list.

ghost use Rattle.std.specs.Prelude.{◌≡◌, ◌+◌, ◌*◌, ◌<◌, ℕ, All, IfOk, length, true};
ghost use Rattle.flat_circuit.specs.BlockSpans.{IsSpan, groups};
ghost use Rattle.region_sim.specs.RegionHits.{ServesRegions};
ghost use Rattle.n_detect.specs.CountLaws.{always_wanted, lanes_unchanged};
ghost use Rattle.n_detect.specs.ListLanes.{AreLanesIn, AreListLanes};

use block_sim::Job;
use block_sim::block_span::BlockSpan;
use region_runs::all_open;
use region_sim::class_order::rows_of;
use region_sim::{FirstUnit, Goal, RegionSimulation};
use std::alloc::{AllocError, Global};

/// Returns for each class of a list the tests of a group that detect it, in the thread of the
/// caller. The group holds the 128 tests from test `128 * group` on, or those that there are. Bit
/// k, from the least, of the word at the class's place is 1 exactly if test `128 * group + k`
/// detects the representative of the class. The list may have any order, and name a class more than
/// once. Adjacent classes of a region are simulated together.
///
/// The simulation keeps its room from one call to the next, so a call takes time and memory for the
/// classes of its list alone.
///
/// # Errors
///
/// It fails only for memory.
pub fn list_lanes(
    alloc: Global,
    job: &Job,
    classes: &[u32],
    group: u32,
    simulation: &mut RegionSimulation,
) -> Result<Vec<u128>, AllocError>
    requires group { group < groups (length job.now.tests.tests) }
    requires classes { All (λ class. class < length job.now.classes.representative) classes.now }
    requires serves { ServesRegions simulation.old job.now 0 }
    ensures lanes { IfOk result (λ lanes. AreListLanes job.now group classes.now lanes.items) }
    ensures serves { ServesRegions simulation.new job.now 0 }
{
    let _tests = job.tests();
    simulation.make_room(classes.len())?;
    let rows = rows_of(alloc, job, classes)?;
    let next = all_open(alloc, classes.len())?;
    let mut words = vec![in alloc; 0; classes.len()]?;
    let span = span_of(job, group);
    let goal = GroupLanes { group };
    let listed = rows.as_slice();
    let kept = words.as_mut_slice();
    simulation.simulate(job, span, listed, next.as_slice(), &goal, kept);
    Ok(words)
}

/// Returns the blocks of a group that there are.
fn span_of(job: &Job, group: u32) -> BlockSpan
    requires { group < groups (length job.now.tests.tests) }
    ensures span { IsSpan (length job.now.tests.tests) result }
    ensures first { result.first ≡ 2 * group }
    ensures whole { (k : ℕ) → k < 128 → 128 * group + k < length job.now.tests.tests
        → 128 * group + k < 64 * result.last + 64 }
{
    let last = job.tests().blocks() - 1;
    let first = group * 2;
    let last = if first < last { first + 1 } else { first };
    BlockSpan { first, last }
}

/// The tests of a group that detect a class, as the lanes of a word.
#[derive(Clone, Copy)]
struct GroupLanes {
    group: u32,
}

impl Goal for GroupLanes {
    ghost use Rattle.std.specs.Prelude.{refl, true};
    ghost use Rattle.n_detect.specs.CountLaws.{always_wanted, lanes_unchanged};
    ghost use Rattle.n_detect.specs.ListLanes.{AreLanesIn};

    type Kept = u128;

    ghost ALL_LANES = { true };

    const ALL_LANES: bool = true;

    ghost wants = { λ _ _. true };

    ghost means = { λ goal hits low high kept. AreLanesIn goal.group hits low high kept };

    ghost stays = { λ goal kept hits low high more wanted le was. always_wanted wanted };

    ghost agrees = { λ _ one other hits low high a b. refl };

    ghost unchanged = { λ goal kept hits low high more.
        lanes_unchanged goal.group kept hits low high more };

    fn first_unit(&self) -> FirstUnit {
        FirstUnit::AtOnce
    }

    fn start(&self, _alloc: Global) -> Result<u128, AllocError> {
        Ok(0)
    }

    #[inline(always)]
    fn is_open(&self, _kept: &u128) -> bool {
        true
    }

    #[inline(always)]
    fn take(&self, kept: &mut u128, group: u32, lanes: u128) {
        if group == self.group {
            *kept |= lanes;
        }
    }
}
