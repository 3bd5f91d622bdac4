//! The stretches into which the classes of a run are cut.

ghost use Rattle.std.specs.Prelude.{◌≡◌, ◌<◌, ◌≤◌, All, length};
ghost use Rattle.patterns.specs.Tests.{blocks, max_pieces};
ghost use Rattle.region_runs.specs.Part.{stretch_at, stretch_count, stretches_for};
ghost use Rattle.region_runs.specs.Cut.{IsCutOf};

use crate::class_order::count_in;
use block_sim::Job;
use fault_ledger::MAX_WORKERS;

/// The number of stretches for each of several workers. Fewer stretches end less evenly: on a
/// circuit of 5,000 gates with 16,384 tests four workers took 0.18 s with one stretch each, 0.16
/// with two and 0.15 with four. Each stretch goes over the fault-free words of the run or window
/// once more: one worker took 0.42 s on this circuit for one stretch, 0.45 for 16 and 0.50 for 64.
/// A run of a system of 69,000 gates with four workers took 0.98 of its time with eight stretches
/// in place of four, and with 16,384 tests 0.97 with 24 in place of eight.
const STRETCHES_OF_A_WORKER: u32 = 24;

/// Returns the number of stretches for this number of classes and workers. One worker gets one
/// stretch. Several get a few times their number, so that all end at about the same time, but no
/// more than there are classes.
pub fn stretches_for(classes: u32, workers: u32) -> u32
    ensures count { result ≡ stretches_for classes workers }
    ensures some { 0 < result }
{
    if workers < 2 {
        1
    } else {
        let most = STRETCHES_OF_A_WORKER * workers.min(MAX_WORKERS);
        most.min(classes).max(1)
    }
}

/// Classes of a job, cut into stretches of one size, to be run from a block on. The last stretches
/// have fewer classes, or none.
#[derive(Drop)]
pub(crate) struct Cut {
    /// The block with which the run begins.
    pub(crate) from: u32,
    /// The numbers of the classes.
    pub(crate) classes: Vec<u32>,
    /// The number of stretches.
    pub(crate) stretches: u32,
    /// The number of classes of a stretch.
    pub(crate) size: u32,
}

impl Cut {
    /// Cuts classes of a job, to be run from a block on, into this number of stretches.
    pub(crate) fn new(job: &Job, from: u32, classes: Vec<u32>, stretches: u32) -> Cut
        requires from { from ≤ blocks (length job.now.tests.tests) }
        requires stretches { 0 < stretches }
        requires few { length classes.items ≤ length job.now.classes.representative }
        requires within { All (λ class. class < length job.now.classes.representative)
            classes.items }
        ensures cut { IsCutOf job.now result.from result.stretches result.size
            result.classes.items }
        ensures from { result.from ≡ from }
        ensures classes { result.classes.items ≡ classes.items }
        ensures stretches { result.stretches ≡ stretches }
    {
        let size = count_in(job, classes.as_slice()).div_ceil(stretches);
        Cut {
            from,
            classes,
            stretches,
            size,
        }
    }

    /// Returns the classes of a stretch, counted from 0.
    pub(crate) fn stretch(&self, number: u32) -> &[u32]
        ensures { result.now ≡ stretch_at self.now.size self.now.classes.items number }
    {
        let size = self.size as usize;
        let start = (number as usize)
            .saturating_mul(size)
            .min(self.classes.len());
        let rest = &self.classes[start..];
        &rest[..size.min(rest.len())]
    }
}

/// Returns how many of the stretches have a class: the first ones.
pub(crate) fn filled(job: &Job, cut: &Cut) -> u32
    requires { IsCutOf job.now cut.now.from cut.now.stretches cut.now.size cut.now.classes.items }
    ensures count { result ≡ stretch_count cut.now.size cut.now.classes.items }
    ensures few { result ≤ max_pieces }
{
    let size = cut.size.max(1);
    count_in(job, cut.classes.as_slice()).div_ceil(size)
}
