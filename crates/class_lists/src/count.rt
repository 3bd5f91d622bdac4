//! The number of tests that detect each class of a list.

ghost use Rattle.std.specs.Prelude.{◌<◌, All, IfOk, length, nat_lt};
ghost use Rattle.region_sim.specs.RegionHits.{ServesRegions};
ghost use Rattle.region_runs.specs.Tasks.{AreKept, task_of};
ghost use Rattle.n_detect.specs.HitCounts.{IsHitCount};

use block_sim::Job;
use n_detect::{Count, ones_of};
use region_runs::run_alone;
use region_sim::{FirstTest, Goal, RegionSimulation};
use std::alloc::{AllocError, Global};

/// Counts the tests that detect each class of a list, each up to `most`. Counts up to 1 take a run
/// for first tests, which leaves out the lanes behind the first test of a class.
pub(crate) fn counts_of(
    alloc: Global,
    job: &Job,
    classes: &[u32],
    regions: &mut RegionSimulation,
    most: u32,
) -> Result<Vec<u32>, AllocError>
    requires classes { All (λ class. class < length job.now.classes.representative) classes.now }
    requires serves { ServesRegions regions.old job.now 0 }
    ensures counts { IfOk result (λ counts. AreKept (task_of job.now 0 (λ n. nat_lt n most)
        (IsHitCount most)) classes.now counts.items) }
    ensures serves { ServesRegions regions.new job.now 0 }
{
    if most < 2 {
        let firsts = run_alone(
            alloc,
            job,
            classes,
            FirstTest.first_unit(),
            regions,
            &FirstTest,
        )?;
        let ones = ones_of(alloc, firsts.as_slice(), most)?;
        return Ok(ones);
    }
    let goal = Count { most };
    let counts = run_alone(alloc, job, classes, goal.first_unit(), regions, &goal)?;
    Ok(counts)
}
