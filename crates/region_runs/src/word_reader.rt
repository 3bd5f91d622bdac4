//! Readers of the fault-free words of a run's tests.

ghost use Rattle.std.specs.Prelude.{◌≡◌, ◌<◌, ◌≤◌, ◌*◌, IfErr, OnOk, length};
ghost use Rattle.bench_net.specs.Scan.{sources};
ghost use Rattle.patterns.specs.Tests.{IsTestList, TestList, blocks};
ghost use Rattle.block_sim.specs.Parts.{with_tests};

use crate::windows::{Window, forget_tests, take_window};
use block_sim::Job;
use patterns::Tests;
use std::alloc::Global;
use std::sync::Wait;
use std::thread::Threads;
use workers::RunFault;

/// What gathers something of all tests of a job from the fault-free words of their blocks.
pub trait WordReader {
    ghost use Rattle.std.specs.Prelude.{◌*◌, ℕ};
    ghost use Rattle.block_sim.specs.Parts.{Parts};
    ghost use Rattle.region_runs.specs.Windows.{IsWindowFor};

    /// What was gathered of the tests of a job below a number, counted from 0.
    ghost gathered: { Self → Parts → ℕ → Type 0 };

    /// Reads the words of a job that has the tests of a window. These begin with the block before
    /// the first new one, if there is one.
    fn read(&mut self, job: &Job)
        requires { (all : Parts) × (from : ℕ) × (first : ℕ) × (end : ℕ)
            × IsWindowFor all from first end job.now × gathered self.old all (64 * first) }
        ensures { (all : Parts) (from first end : ℕ) → IsWindowFor all from first end job.now
            → gathered self.old all (64 * first) → gathered self.new all (64 * end) };
}

/// Lets a reader read the fault-free words of a list of tests that is not the job's own, window by
/// window. The job has no tests then. After an error it has its own tests, those of some window, or
/// none.
pub(crate) fn read_in_windows<V: WordReader, R: Threads + Wait>(
    rt: &R,
    alloc: Global,
    job: &mut Job,
    tests: &Tests,
    step: u32,
    workers: u32,
    reader: &mut V,
) -> Result<(), RunFault>
    requires list { IsTestList tests.now }
    requires width { tests.now.width ≡ length (sources job.old.circuit) }
    requires step { (0 < step) × (step ≤ 2047) }
    requires begins { V.gathered reader.old (with_tests job.old tests.now) 0 }
    ensures gathered { OnOk result (V.gathered reader.new (with_tests job.old tests.now)
        (64 * blocks (length tests.now.tests))) }
    ensures refused { IfErr result (λ fault. fault ≡ RunFault.Memory) }
    ensures job { (some : TestList) × (job.new ≡ with_tests job.old some) }
{
    let blocks = tests.blocks();
    for number in 0..blocks.div_ceil(step) {
        let window = Window::new(number, step, blocks);
        take_window(rt, alloc, job, tests, window, workers)?;
        reader.read(job);
    }
    forget_tests(alloc, job)?;
    Ok(())
}
