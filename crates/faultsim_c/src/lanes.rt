//! Calls on the tests of a block that detect the classes of a list.

ghost use Rattle.std.specs.Prelude.{◌≡◌, ◌≢◌, ◌⊎◌, ◌/◌, ◌<◌, ◌≤◌, None, Some, length};
ghost use Rattle.patterns.specs.Tests.{blocks};
ghost use Rattle.block_sim.specs.Parts.{Parts};
ghost use Rattle.n_detect.specs.ListLanes.{AreListLanes};
ghost use Rattle.faultsim_c.specs.Calls.{AreRequests, job_of};
ghost use Rattle.faultsim_c.specs.Lanes.{AreAddedCounts, AreClassLanes};

use crate::are_below;
use crate::handle::{FsJob, put, take};
use crate::session::Session;
use crate::status::{DONE, MEMORY, NO_JOB, RANGE};
use block_sim::Job;
use block_sim::block_lanes::block_word;
use std::alloc::Global;

/// Writes for each class of a list the lanes of a block whose tests detect it. The lengths are
/// equal.
#[unsafe(no_mangle)]
pub extern "C" fn fs_lanes(
    alloc: Global,
    job: &mut FsJob,
    block: u32,
    classes: &[u32],
    lanes: &mut [u64],
) -> u32
    ensures done { result ≡ 0 → (parts : Parts) × (job_of job.old.held.holding ≡ Some parts)
        × AreClassLanes parts block classes.now lanes.new }
    ensures serves { (parts : Parts) → job_of job.old.held.holding ≡ Some parts
        → block < blocks (length parts.tests.tests) → AreRequests parts classes.now lanes.old
        → (result ≡ 0) ⊎ (result ≡ 2) }
    ensures range { (parts : Parts) → job_of job.old.held.holding ≡ Some parts
        → (blocks (length parts.tests.tests) ≤ block)
        ⊎ (¬ AreRequests parts classes.now lanes.old) → result ≡ 4 }
    ensures no_job { job.old.held.holding ≡ None → result ≡ 1 }
    ensures untouched { result ≢ 0 → lanes.new ≡ lanes.old }
    ensures kept { job.new.held.holding ≡ job.old.held.holding }
{
    let Some(mut holding) = take(alloc, job) else {
        return NO_JOB;
    };
    let status = lanes_in(alloc, &mut holding.session, block, classes, lanes);
    put(alloc, job, holding);
    status
}

/// Writes for each class of a list the lanes of a block whose tests detect it, in a session.
fn lanes_in(
    alloc: Global,
    session: &mut Session,
    block: u32,
    classes: &[u32],
    lanes: &mut [u64],
) -> u32
    ensures done { result ≡ 0 → AreClassLanes session.old block classes.now lanes.new }
    ensures serves { block < blocks (length session.old.tests.tests)
        → AreRequests session.old classes.now lanes.old → (result ≡ 0) ⊎ (result ≡ 2) }
    ensures range { (blocks (length session.old.tests.tests) ≤ block)
        ⊎ (¬ AreRequests session.old classes.now lanes.old) → result ≡ 4 }
    ensures untouched { result ≢ 0 → lanes.new ≡ lanes.old }
    ensures kept { session.new ≡ session.old }
{
    let job = session.job();
    if block >= job.tests().blocks()
        || lanes.len() != classes.len()
        || !are_below(classes, job.classes().count())
    {
        return RANGE;
    }
    match session.lanes(alloc, classes, block / 2) {
        Ok(words) => {
            write_lanes(session.job(), block, classes, words.as_slice(), lanes);
            DONE
        }
        Err(_) => MEMORY,
    }
}

/// Writes for each class of a list the lanes of a block, from those of its group.
fn write_lanes(job: &Job, block: u32, classes: &[u32], words: &[u128], lanes: &mut [u64])
    requires words { AreListLanes job.now (block / 2) classes.now words.now }
    requires lengths { length lanes.old ≡ length classes.now }
    ensures { AreClassLanes job.now block classes.now lanes.new }
{
    let _job = job;
    let _classes = classes;
    for place in 0..lanes.len() {
        lanes[place] = block_word(words[place], block);
    }
}

/// Adds to the count of each class of a list the number of tests of a block that detect it, each up
/// to `most`. The lengths are equal.
#[unsafe(no_mangle)]
pub extern "C" fn fs_count(
    alloc: Global,
    job: &mut FsJob,
    block: u32,
    classes: &[u32],
    most: u32,
    counts: &mut [u32],
) -> u32
    ensures done { result ≡ 0 → (parts : Parts) × (job_of job.old.held.holding ≡ Some parts)
        × AreAddedCounts parts block classes.now most counts.old counts.new }
    ensures serves { (parts : Parts) → job_of job.old.held.holding ≡ Some parts
        → block < blocks (length parts.tests.tests) → AreRequests parts classes.now counts.old
        → (result ≡ 0) ⊎ (result ≡ 2) }
    ensures range { (parts : Parts) → job_of job.old.held.holding ≡ Some parts
        → (blocks (length parts.tests.tests) ≤ block)
        ⊎ (¬ AreRequests parts classes.now counts.old) → result ≡ 4 }
    ensures no_job { job.old.held.holding ≡ None → result ≡ 1 }
    ensures untouched { result ≢ 0 → counts.new ≡ counts.old }
    ensures kept { job.new.held.holding ≡ job.old.held.holding }
{
    let Some(mut holding) = take(alloc, job) else {
        return NO_JOB;
    };
    let status = count_in(alloc, &mut holding.session, block, classes, most, counts);
    put(alloc, job, holding);
    status
}

/// Adds to the count of each class of a list the number of tests of a block that detect it, in a
/// session.
fn count_in(
    alloc: Global,
    session: &mut Session,
    block: u32,
    classes: &[u32],
    most: u32,
    counts: &mut [u32],
) -> u32
    ensures done { result ≡ 0
        → AreAddedCounts session.old block classes.now most counts.old counts.new }
    ensures serves { block < blocks (length session.old.tests.tests)
        → AreRequests session.old classes.now counts.old → (result ≡ 0) ⊎ (result ≡ 2) }
    ensures range { (blocks (length session.old.tests.tests) ≤ block)
        ⊎ (¬ AreRequests session.old classes.now counts.old) → result ≡ 4 }
    ensures untouched { result ≢ 0 → counts.new ≡ counts.old }
    ensures kept { session.new ≡ session.old }
{
    let job = session.job();
    if block >= job.tests().blocks()
        || counts.len() != classes.len()
        || !are_below(classes, job.classes().count())
    {
        return RANGE;
    }
    match session.lanes(alloc, classes, block / 2) {
        Ok(words) => {
            add_counts(
                session.job(),
                block,
                classes,
                most,
                words.as_slice(),
                counts,
            );
            DONE
        }
        Err(_) => MEMORY,
    }
}

/// Adds to the count of each class of a list the number of lanes of a block that detect it, from
/// those of its group.
fn add_counts(job: &Job, block: u32, classes: &[u32], most: u32, words: &[u128], counts: &mut [u32])
    requires words { AreListLanes job.now (block / 2) classes.now words.now }
    requires lengths { length counts.old ≡ length classes.now }
    ensures { AreAddedCounts job.now block classes.now most counts.old counts.new }
{
    let _job = job;
    let _classes = classes;
    for place in 0..counts.len() {
        let added = block_word(words[place], block).count_ones();
        counts[place] = most.min(counts[place].saturating_add(added));
    }
}
