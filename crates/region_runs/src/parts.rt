//! The parts into which a run is split, and the verdicts of a run over one of them.

ghost use Rattle.std.specs.Prelude.{◌≡◌, ◌<◌, ℕ, All, IfOk};
ghost use Rattle.std.specs.Prelude.{Some, length, map, slice_index_or};
ghost use Rattle.block_sim.specs.Parts.{BelongTogether, Parts};
ghost use Rattle.region_runs.specs.Part.{AreClassVerdicts, IsInOnePart};
ghost use Rattle.region_runs.specs.Part.{IsOfPart};

use block_sim::Job;
use std::alloc::{AllocError, Global};

/// The verdict of a run over a part of the classes for a fault.
#[derive(Clone, Copy, Debug, PartialEq, Eq)]
pub enum PartVerdict {
    /// The first test that detects the fault, counted from 0, or none if no test does.
    First(Option<u32>),
    /// The fault is in another part.
    OtherPart,
}

/// Returns the part of a class, counted from 0, for this number of parts: the number of its
/// region's stem ([`Job::stem_of_class`]) modulo the number of parts. So the classes of one region
/// are in one part.
pub fn part_of(job: &Job, class: u32, parts: u32) -> u32
    requires class { class < length job.now.classes.representative }
    requires parts { 0 < parts }
    ensures part { IsOfPart job.now parts result class }
    ensures within { result < parts }
{
    job.stem_of_class(class) % parts
}

/// States the law of the parts: each class is in exactly one.
pub fn in_one_part()
    ensures { (job : Parts) (parts class : ℕ) → BelongTogether job → 0 < parts
        → class < length job.classes.representative → IsInOnePart job parts class }
{}

/// Returns the verdict of each class, by its number, from the first tests of the classes of a list.
pub(crate) fn by_class(
    alloc: Global,
    count: u32,
    classes: &[u32],
    firsts: &[Option<u32>],
) -> Result<Vec<PartVerdict>, AllocError>
    requires within { All (λ class. class < count) classes.now }
    requires same { length firsts.now ≡ length classes.now }
    ensures { IfOk result (λ verdicts. AreClassVerdicts count classes.now firsts.now
        (length classes.now) verdicts.items) }
{
    let mut verdicts = vec![in alloc; PartVerdict::OtherPart; count as usize]?;
    for place in 0..classes.len() {
        verdicts[classes[place] as usize] = PartVerdict::First(firsts[place]);
    }
    Ok(verdicts)
}

/// Returns the verdict of each fault, which is the verdict of its class.
pub(crate) fn of_faults(
    alloc: Global,
    job: &Job,
    by_class: &[PartVerdict],
) -> Result<Vec<PartVerdict>, AllocError>
    requires { length by_class.now ≡ length job.now.classes.representative }
    ensures { IfOk result (λ verdicts. verdicts.items
        ≡ map (λ class. slice_index_or by_class.now class PartVerdict.OtherPart)
        job.now.classes.class_of) }
{
    let classes = job.classes();
    let mut verdicts = Vec::with_capacity(alloc, job.faults().count() as usize)?;
    for fault in 0..job.faults().count() {
        verdicts.push(verdict_on(by_class, classes.class_of(fault)))?;
    }
    Ok(verdicts)
}

/// Returns the verdict of a class, from the verdicts of all classes.
fn verdict_on(by_class: &[PartVerdict], class: u32) -> PartVerdict
    ensures { result ≡ slice_index_or by_class.now class PartVerdict.OtherPart }
{
    match by_class.get(class as usize) {
        Some(verdict) => *verdict,
        None => PartVerdict::OtherPart,
    }
}
