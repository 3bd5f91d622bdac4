//! The call that counts the tests that detect classes.

ghost use Rattle.std.specs.Prelude.{◌≡◌, ◌≢◌, ◌⊎◌, None, Some, length};
ghost use Rattle.block_sim.specs.Parts.{Parts};
ghost use Rattle.class_lists.specs.Lists.{AreClassCounts};
ghost use Rattle.faultsim_c.specs.Calls.{AreRequests, job_of};

use crate::are_below;
use crate::handle::{FsJob, put, take};
use crate::session::Session;
use crate::status::{DONE, MEMORY, NO_JOB, RANGE};
use std::alloc::Global;

/// Counts the tests that detect each class of a list, each up to `most`. The lengths are equal.
#[unsafe(no_mangle)]
pub extern "C" fn fs_detections(
    alloc: Global,
    job: &mut FsJob,
    classes: &[u32],
    most: u32,
    counts: &mut [u32],
) -> u32
    ensures done { result ≡ 0 → (parts : Parts) × (job_of job.old.held.holding ≡ Some parts)
        × AreClassCounts parts classes.now most counts.new }
    ensures serves { (parts : Parts) → job_of job.old.held.holding ≡ Some parts
        → AreRequests parts classes.now counts.old → (result ≡ 0) ⊎ (result ≡ 2) }
    ensures range { (parts : Parts) → job_of job.old.held.holding ≡ Some parts
        → ¬ AreRequests parts classes.now counts.old → result ≡ 4 }
    ensures no_job { job.old.held.holding ≡ None → result ≡ 1 }
    ensures untouched { result ≢ 0 → counts.new ≡ counts.old }
    ensures kept { job.new.held.holding ≡ job.old.held.holding }
{
    let Some(mut holding) = take(alloc, job) else {
        return NO_JOB;
    };
    let status = detections_in(alloc, &mut holding.session, classes, most, counts);
    put(alloc, job, holding);
    status
}

/// Counts the tests that detect each class of a list, in a session.
fn detections_in(
    alloc: Global,
    session: &mut Session,
    classes: &[u32],
    most: u32,
    counts: &mut [u32],
) -> u32
    ensures done { result ≡ 0 → AreClassCounts session.old classes.now most counts.new }
    ensures serves { AreRequests session.old classes.now counts.old
        → (result ≡ 0) ⊎ (result ≡ 2) }
    ensures range { ¬ AreRequests session.old classes.now counts.old → result ≡ 4 }
    ensures untouched { result ≢ 0 → counts.new ≡ counts.old }
    ensures kept { session.new ≡ session.old }
{
    if counts.len() != classes.len() || !are_below(classes, session.job().classes().count()) {
        return RANGE;
    }
    match session.detections(alloc, classes, most) {
        Ok(found) => {
            write_counts(found.as_slice(), counts);
            DONE
        }
        Err(_) => MEMORY,
    }
}

/// Writes counts into an array of as many.
fn write_counts(found: &[u32], counts: &mut [u32])
    requires { length counts.old ≡ length found.now }
    ensures { counts.new ≡ found.now }
{
    counts.copy_from_slice(found);
}
