//! Runs on a list of tests window by window.

ghost use Rattle.std.specs.Prelude.{◌≡◌, IfOk, length};
ghost use Rattle.bench_net.specs.Scan.{sources};
ghost use Rattle.patterns.specs.Tests.{IsTestList};

use crate::checks::check_ok;
use crate::worker::fixtures::{BUFFER, JobText, has_firsts, job_of, rows_text};
use block_sim::Job;
use fault_model::Model;
use job_loading::SimFault;
use patterns::{Tests, read_tests};
use region_runs::RunJob;
use std::alloc::Global;
use std::sync::Wait;
use std::thread::Threads;
use workers::OpenGate;

/// A buffer under one test.
const BEFORE: JobText = JobText {
    model: Model::Transition,
    bench: BUFFER,
    rows: &[("0", 1)],
};

/// A rise at test 64 and a fall at test 128, the first tests of the blocks 1 and 2.
static EDGES: &[(&str, u32)] = &[("0", 64), ("1", 64), ("0", 1)];

/// The first tests of the faults `a str`, `a stf`, `z str` and `z stf`: the rise and the fall.
static FIRSTS: [Option<u32>; 4] = [Some(64), Some(128), Some(64), Some(128)];

/// Returns the tests of the edges, for a job of one input.
fn edges(alloc: Global, job: &Job) -> Result<Tests, SimFault>
    ensures list { IfOk result (λ tests. IsTestList tests) }
    ensures width { IfOk result (λ tests. tests.width ≡ length (sources job.now.circuit)) }
{
    let text = rows_text(alloc, EDGES)?;
    Ok(read_tests(alloc, text.as_slice(), job.circuit().sources())?)
}

/// Returns whether a job has these first tests by windows of this number of blocks.
fn is_right_by<R: Threads + Wait>(rt: &R, alloc: Global, blocks: u32) -> Result<bool, SimFault> {
    let job = job_of(alloc, &BEFORE)?;
    let tests = edges(alloc, &job)?;
    let mut run = RunJob::in_windows(job, blocks);
    run.set_tests(rt, alloc, tests, 2)?;
    let verdicts = run.run(rt, alloc, 1, 2, &OpenGate)?;
    Ok(has_firsts(&verdicts, &FIRSTS))
}

#[test]
fn windows_look_back_at_the_test_before(rt: HostRuntime) {
    for blocks in 1..3 {
        check_ok(&rt, is_right_by(&rt, rt.alloc(), blocks), "in windows");
    }
}
