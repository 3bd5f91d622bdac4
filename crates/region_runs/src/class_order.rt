//! The classes of a job, or of a part of it, region by region.

ghost use Rattle.std.specs.Prelude.{◌≡◌, ◌<◌, ◌≤◌, IfOk, length};
ghost use Rattle.block_sim.specs.Parts.{BelongTogether};
ghost use Rattle.region_sim.specs.ClassOrder.{AreAllByRegion};
ghost use Rattle.region_runs.specs.Part.{ArePartOf};

use block_sim::Job;
use region_sim::class_order::{ClassOrder, class_order};
use std::alloc::{AllocError, Global};

/// Returns all classes of a job in the order of [`class_order`].
pub(crate) fn all_classes(alloc: Global, job: &Job) -> Result<Vec<u32>, AllocError>
    ensures { IfOk result (λ classes. AreAllByRegion job.now classes.items) }
{
    let order = class_order(alloc, job)?;
    let ClassOrder {
        classes,
        positions: _positions,
    } = order;
    Ok(classes)
}

/// Returns the classes of a part, counted from 0, for this number of parts by the stems of regions.
pub(crate) fn part_classes(
    alloc: Global,
    job: &Job,
    part: u32,
    parts: u32,
) -> Result<Vec<u32>, AllocError>
    requires { 0 < parts }
    ensures { IfOk result (λ classes. ArePartOf job.now parts part classes.items) }
{
    let all = all_classes(alloc, job)?;
    let own = of_part(alloc, job, &all, part, parts)?;
    Ok(own)
}

/// Returns the classes whose stems, modulo the number of parts, are the part, in the order of all
/// classes.
fn of_part(
    alloc: Global,
    job: &Job,
    classes: &[u32],
    part: u32,
    parts: u32,
) -> Result<Vec<u32>, AllocError>
    requires parts { 0 < parts }
    requires all { AreAllByRegion job.now classes.now }
    ensures { IfOk result (λ own. ArePartOf job.now parts part own.items) }
{
    let mut own = Vec::new(alloc);
    for class in classes {
        if job.stem_of_class(*class) % parts == part {
            own.push(*class)?;
        }
    }
    Ok(own)
}

/// Returns the number of classes of a list that has no more classes than the job.
pub(crate) fn count_in(job: &Job, classes: &[u32]) -> u32
    requires { length classes.now ≤ length job.now.classes.representative }
    ensures count { result ≡ length classes.now }
    ensures together { BelongTogether job.now }
{
    let most = job.classes().count();
    let holds = classes.len() <= most as usize;
    prove!(holds);
    classes.len() as u32
}
