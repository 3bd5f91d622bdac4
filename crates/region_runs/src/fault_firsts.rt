//! The verdicts of all faults, from the first tests of their classes in some order.

ghost use Rattle.std.specs.Prelude.{◌≡◌, ◌+◌, ◌≤◌, ◌<◌, ◌^◌, IfOk, length, slice_index};
ghost use Rattle.workers.specs.Verdict.{blocks_after, pieces_after};
ghost use Rattle.region_runs.specs.FaultFirsts.{AreFirstsFrom, HasFirsts, HaveFirsts, ServesFaults};
ghost use Rattle.region_runs.specs.FaultFirsts.{first_at, firsts_of_faults};

use block_sim::Job;
use std::alloc::{AllocError, Global};
use std::snapshot::Snapshot;
use std::sync::Wait;
use std::thread;
use std::thread::{Promise, Threads};
use workers::Verdicts;

/// The number of faults whose first tests take a few times as long as the start of a thread.
const FAULTS_OF_A_THREAD: u32 = 1 << 15;

/// The most threads that find first tests of faults, whatever number is requested.
const MAX_THREADS: u32 = 64;

/// The first tests of all classes in an order of these.
#[derive(Drop)]
pub(crate) struct OrderedFirsts {
    /// For each class, by its number, its position in the order.
    pub(crate) positions: Vec<u32>,
    /// At each position the first test of the class there, or none.
    pub(crate) firsts: Vec<Option<u32>>,
}

/// The first tests of adjacent faults.
#[derive(Drop)]
struct FaultFirsts {
    /// The first of the faults.
    start: u32,
    /// For each fault the first test that detects it, or none.
    firsts: Vec<Option<u32>>,
}

/// Returns the first test of a class.
fn first_at(positions: &[u32], firsts: &[Option<u32>], class: u32) -> Option<u32>
    requires class { class < length positions.now }
    requires position { slice_index positions.now class < length firsts.now }
    ensures { result ≡ first_at positions.now firsts.now class }
{
    firsts[positions[class as usize] as usize]
}

/// Returns the first tests of the faults from one up to another, which is not included.
fn firsts_between(
    alloc: Global,
    job: &Job,
    ordered: &OrderedFirsts,
    start: u32,
    end: u32,
) -> Result<Vec<Option<u32>>, AllocError>
    requires serves { ServesFaults job.now ordered.now.positions.items ordered.now.firsts.items }
    requires order { start ≤ end }
    requires end { end ≤ length job.now.classes.class_of }
    ensures count { IfOk result (λ found. start + length found.items ≡ end) }
    ensures firsts { IfOk result (λ found. AreFirstsFrom job.now.classes.class_of
        ordered.now.positions.items ordered.now.firsts.items start found.items) }
{
    let classes = job.classes();
    let positions = ordered.positions.as_slice();
    let firsts = ordered.firsts.as_slice();
    let mut found = Vec::with_capacity(alloc, (end - start) as usize)?;
    for fault in start..end {
        found.push(first_at(positions, firsts, classes.class_of(fault)))?;
    }
    Ok(found)
}

/// The promise of a thread: its result has the first tests of adjacent faults.
#[derive(Drop)]
struct FirstsOf {
    job: Snapshot<Job>,
    ordered: Snapshot<OrderedFirsts>,
}

impl Promise<Result<FaultFirsts, AllocError>> for FirstsOf {
    ghost use Rattle.region_runs.specs.FaultFirsts.{HasFirsts};

    ghost kept_by = { λ p r. HasFirsts p.job.value.classes.class_of
        p.ordered.value.positions.items p.ordered.value.firsts.items r };
}

/// Does the work of one thread.
fn fault_firsts(
    alloc: Global,
    job: &Job,
    ordered: &OrderedFirsts,
    start: u32,
    end: u32,
) -> Result<FaultFirsts, AllocError>
    requires serves { ServesFaults job.now ordered.now.positions.items ordered.now.firsts.items }
    requires order { start ≤ end }
    requires end { end ≤ length job.now.classes.class_of }
    ensures { HasFirsts job.now.classes.class_of ordered.now.positions.items
        ordered.now.firsts.items result }
{
    let firsts = firsts_between(alloc, job, ordered, start, end)?;
    Ok(FaultFirsts { start, firsts })
}

/// Returns the first tests of all faults. This number of threads find them, of which one is the
/// caller's, which has the first faults. Each has the same number of adjacent faults, except the
/// last. If a thread doesn't start, no further one is started, and the caller's thread does the
/// rest.
fn share_faults<R: Threads + Wait>(
    rt: &R,
    alloc: Global,
    job: &Job,
    ordered: &OrderedFirsts,
    threads: u32,
) -> Result<Vec<Option<u32>>, AllocError>
    requires serves { ServesFaults job.now ordered.now.positions.items ordered.now.firsts.items }
    requires some { 0 < threads }
    ensures { IfOk result (λ found. found.items ≡ firsts_of_faults job.now
        ordered.now.positions.items ordered.now.firsts.items) }
{
    thread::scope(
        thread::scope_env(),
        rt,
        |scope| -> Result<Vec<Option<u32>>, AllocError>
            requires serves { ServesFaults job.now ordered.now.positions.items
                ordered.now.firsts.items }
            requires some { 0 < threads }
            ensures { IfOk result (λ found. found.items ≡ firsts_of_faults job.entry.now
                ordered.entry.now.positions.items ordered.entry.now.firsts.items) }
        {
            let count = fault_count(job);
            let size = count.div_ceil(threads);
            let mut handles = Vec::with_capacity(alloc, threads as usize)?;
            let own = size.min(count);
            let mut start = own;
            for _thread in 1..threads {
                let end = start + size.min(count - start);
                let promised = FirstsOf {
                    job: Snapshot::of(job),
                    ordered: Snapshot::of(ordered),
                };
                let Ok(handle) = scope.spawn_with(
                    promised,
                    move || fault_firsts(alloc, job, ordered, start, end),
                ) else {
                    break;
                };
                handles.push(handle)?;
                start = end;
            }
            let first = firsts_between(alloc, job, ordered, 0, own)?;
            match thread::join_promised(rt, handles) {
                Ok(shares) => join_firsts(alloc, job, ordered, first, shares),
                Err(_) => Err(AllocError),
            }
        },
    )
}

/// Returns the number of faults of a job.
fn fault_count(job: &Job) -> u32
    ensures count { result ≡ length job.now.classes.class_of }
{
    let _classes = job.classes();
    job.faults().count()
}

/// Joins the first tests of all faults: those of the first faults, those that threads returned, one
/// share after another, and then the missing ones.
fn join_firsts(
    alloc: Global,
    job: &Job,
    ordered: &OrderedFirsts,
    first: Vec<Option<u32>>,
    shares: Vec<Result<FaultFirsts, AllocError>>,
) -> Result<Vec<Option<u32>>, AllocError>
    requires first { AreFirstsFrom job.now.classes.class_of ordered.now.positions.items
        ordered.now.firsts.items 0 first.items }
    requires serves { ServesFaults job.now ordered.now.positions.items ordered.now.firsts.items }
    requires shares { HaveFirsts job.now.classes.class_of ordered.now.positions.items
        ordered.now.firsts.items shares.items }
    ensures { IfOk result (λ found. found.items ≡ firsts_of_faults job.now
        ordered.now.positions.items ordered.now.firsts.items) }
{
    let count = fault_count(job);
    let mut all = first;
    all.reserve((count as usize).saturating_sub(all.len()))?;
    for share in shares {
        let FaultFirsts { start, mut firsts } = share?;
        if start as usize == all.len() {
            all.append(&mut firsts)?;
        }
    }
    let mut rest = firsts_between(alloc, job, ordered, all.len() as u32, count)?;
    all.append(&mut rest)?;
    Ok(all)
}

/// Returns how many threads are worth their start: each has enough faults.
fn threads_for(faults: u32, workers: u32) -> u32 {
    workers.min(MAX_THREADS).min(faults / FAULTS_OF_A_THREAD)
}

/// Returns the first test of each fault, which is the first test of its class. At most as many
/// threads as there are workers find them, each for adjacent faults. If a thread doesn't start, the
/// caller's thread does its work. Only the caller's thread does it for few faults.
fn first_tests<R: Threads + Wait>(
    rt: &R,
    alloc: Global,
    job: &Job,
    ordered: &OrderedFirsts,
    workers: u32,
) -> Result<Vec<Option<u32>>, AllocError>
    requires serves { ServesFaults job.now ordered.now.positions.items ordered.now.firsts.items }
    ensures { IfOk result (λ found. found.items ≡ firsts_of_faults job.now
        ordered.now.positions.items ordered.now.firsts.items) }
{
    let count = fault_count(job);
    let threads = threads_for(count, workers);
    if threads < 2 {
        let all = firsts_between(alloc, job, ordered, 0, count)?;
        return Ok(all);
    }
    share_faults(rt, alloc, job, ordered, threads)
}

/// Returns the number of pieces after the first hits of classes with these first tests.
fn skipped_after(firsts: &[Option<u32>], blocks: u32) -> u64
    requires { length firsts.now < 2 ^ 32 }
    ensures { result ≡ pieces_after blocks firsts.now }
{
    let mut skipped = 0;
    for first in firsts {
        let more = blocks_after(*first, blocks);
        skipped += u64::from(more);
    }
    skipped
}

/// Returns the number of blocks after the block of a first hit, none if no test detects.
fn blocks_after(first: Option<u32>, blocks: u32) -> u32
    ensures { result ≡ blocks_after blocks first }
{
    match first {
        Some(test) => blocks.saturating_sub(test / 64 + 1),
        None => 0,
    }
}

/// Returns the verdicts of a run of all classes on this number of blocks, by at most this number of
/// threads.
pub(crate) fn verdicts_in<R: Threads + Wait>(
    rt: &R,
    alloc: Global,
    job: &Job,
    ordered: &OrderedFirsts,
    blocks: u32,
    workers: u32,
) -> Result<Verdicts, AllocError>
    requires serves { ServesFaults job.now ordered.now.positions.items ordered.now.firsts.items }
    requires few { length ordered.now.firsts.items < 2 ^ 32 }
    ensures firsts { IfOk result (λ v. v.firsts ≡ firsts_of_faults job.now
        ordered.now.positions.items ordered.now.firsts.items) }
    ensures skipped { IfOk result (λ v. v.skipped
        ≡ pieces_after blocks ordered.now.firsts.items) }
{
    let _faults = fault_count(job);
    let skipped = skipped_after(&ordered.firsts, blocks);
    let firsts = first_tests(rt, alloc, job, ordered, workers)?;
    Ok(Verdicts::of(firsts, skipped))
}
