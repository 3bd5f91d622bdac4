//! Units of 512 tests: the lanes in which a class comes to the stem of its region.

ghost use Rattle.std.specs.Prelude.{◌≡◌, ℕ, ◌+◌, ◌*◌, ◌^◌, ◌<◌, ◌≤◌, length};
ghost use Rattle.std.specs.Bool.{Decides};
ghost use Rattle.fault_model.specs.Detection.{LooksBack};
ghost use Rattle.fault_model.specs.Fault.{Fault};
ghost use Rattle.fault_model.specs.Reordered.{place};
ghost use Rattle.wide_words.specs.Layouts.{both_layout};
ghost use Rattle.wide_words.specs.Wide.{number};
ghost use Rattle.wide_words.specs.declared.wide.Wide.{Wide};
ghost use Rattle.flat_circuit.specs.Readers.{IsObserved};
ghost use Rattle.flat_circuit.specs.Origins.{IsStuckOf};
ghost use Rattle.block_sim.specs.Listed.{IsListed};
ghost use Rattle.region_sim.specs.Units.{IsSameUnitRegion, IsUnitApproach, IsUnitRegion};
ghost use Rattle.region_sim.specs.Units.{IsUnitViewOf, unit_rows};
ghost use Rattle.flat_circuit.specs.Words.{lane};

use crate::unit_region::UnitRegion;
use crate::unit_start::{WideReach, follow_to_stem};
use block_sim::Job;
use block_sim::flat::FlatCircuit;
use block_sim::launch_condition::launch_lanes;
use block_sim::origin::{ListedClass, origin_of};
use block_sim::words::Stuck;
use wide_words::{Four, Wide, side_by_side};

/// The circuit, and the fault-free words of the four groups of a unit.
#[derive(Clone, Copy)]
pub(crate) struct UnitView<'a> {
    pub(crate) circuit: &'a FlatCircuit,
    pub(crate) words: Four<'a>,
}

/// The result of following a class on a unit: the lanes that detect it, or those in which it came
/// to the stem.
#[derive(Clone, Copy)]
pub(crate) enum UnitApproach {
    Known(Wide),
    AtStem(Wide),
}

/// Returns the words of a unit that begins with a group.
pub(crate) fn unit_view(job: &Job, group: u32) -> UnitView<'_>
    requires low { group < 2 ^ 20 }
    requires full { 128 * group + 512 ≤ length job.now.tests.tests }
    ensures { IsUnitViewOf job.now group result }
{
    let words = job.words();
    UnitView {
        circuit: words.circuit,
        words: Four {
            first: words.of(group),
            second: words.of(group + 1),
            third: words.of(group + 2),
            fourth: words.of(group + 3),
        },
    }
}

/// Returns the lanes of a unit whose test before lets the fault be detected, as [`launch_lanes`]
/// does for a group.
#[inline(always)]
fn launch_in_unit(job: &Job, group: u32, stuck: Stuck) -> Wide
    requires low { group < 2 ^ 20 }
    requires full { 128 * group + 512 ≤ length job.now.tests.tests }
    requires stuck { (f : Fault) × IsStuckOf job.now.circuit f stuck }
    ensures { (f : Fault) (k : ℕ) → IsStuckOf job.now.circuit f stuck → k < 512
        → Decides (lane (number result) k) (LooksBack job.now.circuit job.now.tests.tests f.model
        f.line f.stuck (128 * group + k)) }
{
    side_by_side(
        launch_lanes(job, group, stuck),
        launch_lanes(job, group + 1, stuck),
        launch_lanes(job, group + 2, stuck),
        launch_lanes(job, group + 3, stuck),
    )
}

/// Follows a class to the stem of the current region. Each lane in which it comes to an observed
/// stem detects it.
#[inline(always)]
pub(crate) fn approach(
    job: &Job,
    view: UnitView<'_>,
    group: u32,
    row: ListedClass,
    region: &mut UnitRegion,
) -> UnitApproach
    requires low { group < 2 ^ 20 }
    requires view { IsUnitViewOf job.now group view }
    requires full { 128 * group + 512 ≤ length job.now.tests.tests }
    requires row { IsListed job.now row }
    requires region { IsUnitRegion view.circuit.now.arranged both_layout (unit_rows view)
        region.old }
    requires at { region.old.stem ≡ place job.now.circuit view.circuit.now.arranged row.stem }
    ensures approach { IsUnitApproach job.now group row.stem row.class result }
    ensures hidden { (lanes : Wide) → result ≡ UnitApproach.AtStem lanes
        → IsObserved view.entry.circuit.now.arranged region.old.stem → ⊥ }
    ensures region { IsUnitRegion view.entry.circuit.now.arranged both_layout
        (unit_rows view.entry) region.new }
    ensures same { IsSameUnitRegion region.old region.new }
{
    let launch = launch_in_unit(job, group, row.representative);
    let origin = origin_of(view.circuit, row.representative);
    match follow_to_stem(view.circuit, view.words, origin, launch, region) {
        WideReach::Observed(word) => UnitApproach::Known(word),
        WideReach::Stem(at) => {
            let lanes = launch.and(at.lanes);
            if lanes.is_none() {
                return UnitApproach::Known(Wide::none());
            }
            if view.circuit.is_observed(at.signal) {
                return UnitApproach::Known(lanes);
            }
            UnitApproach::AtStem(lanes)
        }
    }
}
