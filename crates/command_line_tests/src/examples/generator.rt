//! The calls of a test generator, from files to verdicts.

ghost use Rattle.std.specs.Prelude.{◌<◌, length};
ghost use Rattle.block_sim.specs.Parts.{HasRoom};
ghost use Rattle.patterns.specs.Tests.{blocks};

use crate::checks::check_ok;
use bench_net::read_bench;
use block_sim::{Job, Workspace, first_hit, simulate};
use fault_model::{Model, collapse, list_faults};
use patterns::{BLOCK_SIZE, Outcome, read_tests};
use report::{Contents, Lines, SimFault, listing_bytes, report_bytes};
use std::alloc::{AllocError, Global};
use std::sync::Wait;
use std::thread::Threads;
use worked_circuits::C17;
use workers::{OpenGate, RunFault, Verdicts, run};

/// Returns the job of a bench file and a test file: circuit, stuck-at faults, their classes and the
/// tests.
fn read_job(alloc: Global, bench: &[u8], tests: &[u8]) -> Result<Job, SimFault> {
    let circuit = read_bench(alloc, bench)?;
    let faults = list_faults(alloc, &circuit)?;
    let classes = collapse(alloc, &circuit, &faults)?;
    let tests = read_tests(alloc, tests, circuit.sources())?;
    Ok(Job::new(alloc, circuit, faults, classes, tests)?)
}

/// Returns whether a test of the run before detects a class.
fn was_found(job: &Job, before: &Verdicts, class: u32) -> bool
    requires { class < length job.now.classes.representative }
{
    let fault = job.classes().representative(class);
    fault < before.total() && before.first(fault).is_some()
}

/// Returns the classes that a block of new tests adds to a run before: each with the number of the
/// first test that detects it, from 0.
fn news(
    alloc: Global,
    job: &Job,
    workspace: &mut Workspace,
    block: u32,
    before: &Verdicts,
) -> Result<Vec<(u32, u32)>, AllocError>
    requires block { block < blocks (length job.now.tests.tests) }
    requires fits { HasRoom workspace.old job.now }
{
    let mut found = Vec::new(alloc);
    for class in 0..job.classes().count() {
        if was_found(job, before, class) {
            continue;
        }
        if let Outcome::Hit(test) = first_hit(job, workspace, class, block) {
            found.push((class, BLOCK_SIZE * block + test))?;
        }
    }
    Ok(found)
}

/// Runs a job of C17 under one test, and returns whether it detects 14 of the 34 faults.
fn detects_14<R: Threads + Wait>(rt: &R, alloc: Global, job: &Job) -> Result<bool, RunFault> {
    let verdicts = run(rt, alloc, job, 4, &OpenGate)?;
    Ok(verdicts.detected() == 14 && verdicts.total() == 34)
}

/// Returns the classes that the first block of a job of new tests adds to a run before.
fn news_of(alloc: Global, job: &Job, before: &Verdicts) -> Result<Vec<(u32, u32)>, AllocError> {
    let mut workspace = Workspace::new(alloc, job)?;
    if job.tests().blocks() == 0 {
        return Ok(Vec::new(alloc));
    }
    news(alloc, job, &mut workspace, 0, before)
}

/// Returns the classes that three new tests of C17 add to a run before. They replace the job's
/// tests.
fn news_of_three(
    alloc: Global,
    job: &mut Job,
    before: &Verdicts,
) -> Result<Vec<(u32, u32)>, SimFault> {
    let tests = read_tests(alloc, b"00000\n10101\n01010\n", job.circuit().sources())?;
    job.set_tests(alloc, tests)?;
    Ok(news_of(alloc, job, before)?)
}

/// Returns whether three new tests detect 12 classes that the test of a job of C17 doesn't.
fn adds_12<R: Threads + Wait>(rt: &R, alloc: Global, job: &mut Job) -> Result<bool, SimFault> {
    let before = run(rt, alloc, job, 4, &OpenGate)?;
    let found = news_of_three(alloc, job, &before)?;
    Ok(found.len() == 12)
}

/// Returns the number of gates that are evaluated for all classes on a block.
fn evaluations(job: &Job, workspace: &mut Workspace, block: u32) -> u64
    requires block { block < blocks (length job.now.tests.tests) }
    requires fits { HasRoom workspace.old job.now }
{
    for class in 0..job.classes().count() {
        simulate(job, workspace, class, block);
    }
    workspace.gate_evaluations()
}

/// Returns whether C17 takes 18 evaluations under one test.
fn takes_18(alloc: Global, job: &Job) -> Result<bool, AllocError> {
    let mut workspace = Workspace::new(alloc, job)?;
    Ok(job.tests().blocks() == 1 && evaluations(job, &mut workspace, 0) == 18)
}

/// Makes a job of C17 with one test, and returns whether all this holds.
fn holds_of_c17<R: Threads + Wait>(rt: &R, alloc: Global) -> Result<bool, SimFault> {
    let mut job = read_job(alloc, C17, b"11111\n")?;
    Ok(detects_14(rt, alloc, &job)? && takes_18(alloc, &job)? && adds_12(rt, alloc, &mut job)?)
}

#[test]
fn faults_are_found_in_threads(rt: HostRuntime) {
    check_ok(&rt, holds_of_c17(&rt, rt.alloc()), "c17");
}

/// Returns whether a report under transition faults is written so.
fn is_written<R: Threads + Wait>(rt: &R, alloc: Global) -> Result<bool, SimFault> {
    let bench = b"INPUT(a)\nOUTPUT(z)\nz = BUFF(a)\n";
    let tests = b"0\n1\n0\n";
    let all = Contents::of(Lines::All);
    let report = report_bytes(rt, alloc, Model::Transition, bench, tests, 4, all)?;
    let wanted = "stem a str 1\nstem a stf 2\nstem z str 1\nstem z stf 2\n4 of 4 (100.00%)\n";
    Ok(report.as_slice() == wanted.as_bytes())
}

/// Returns whether a listing is written so.
fn is_listed(alloc: Global) -> Result<bool, SimFault> {
    let listing = listing_bytes(alloc, Model::StuckAt, b"z = DFF(z)\n")?;
    let wanted = "stem z sa0 class 0\nstem z sa1 class 1\n2 faults in 2 classes\n";
    Ok(listing.as_slice() == wanted.as_bytes())
}

#[test]
fn texts_are_written(rt: HostRuntime) {
    check_ok(&rt, is_written(&rt, rt.alloc()), "report");
    check_ok(&rt, is_listed(rt.alloc()), "listing");
}
