//! The first tests of all faults, from those of all classes.

ghost use Rattle.std.specs.Prelude.{◌≡◌, ◌^◌, ◌<◌, ℕ, IfOk, None, Some, length, map, slice_get};
ghost use Rattle.std.specs.Prelude.{slice_index_or};

use crate::list_order::value_at;
use block_sim::Job;
use std::alloc::{AllocError, Global};

/// Returns all classes of a job, in the order of their numbers.
pub(crate) fn all_classes(alloc: Global, job: &Job) -> Result<Vec<u32>, AllocError>
    ensures count { IfOk result (λ all.
        length all.items ≡ length job.now.classes.representative) }
    ensures each { IfOk result (λ all. (place class : ℕ) → slice_get all.items place ≡ Some class
        → class ≡ place) }
{
    let count = job.classes().count();
    let mut all = Vec::with_capacity(alloc, count as usize)?;
    for class in 0..count {
        all.push(class)?;
    }
    Ok(all)
}

/// Returns the first test of each fault, which is the first test of its class.
pub(crate) fn firsts_of(
    alloc: Global,
    job: &Job,
    found: &[Option<u32>],
) -> Result<Vec<Option<u32>>, AllocError>
    ensures firsts { IfOk result (λ firsts. firsts.items
        ≡ map (λ class. slice_index_or found.now class None) job.now.classes.class_of) }
    ensures few { IfOk result (λ firsts. length firsts.items < 2 ^ 32) }
{
    let classes = job.classes();
    let mut firsts = Vec::with_capacity(alloc, job.faults().count() as usize)?;
    for fault in 0..job.faults().count() {
        firsts.push(value_at(found, classes.class_of(fault), None))?;
    }
    Ok(firsts)
}
