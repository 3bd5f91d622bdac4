//! Tests made from words and from bits, the kept tests of a block, and their file.

ghost use Rattle.std.specs.Prelude.{◌≡◌, ◌<◌, IfOk, length};
ghost use Rattle.bench_net.specs.Scan.{names, sources};
ghost use Rattle.block_sim.specs.Parts.{HasRoom};
ghost use Rattle.patterns.specs.Tests.{IsTestList, blocks};

use crate::checks::check_ok;
use block_sim::{Job, Workspace, detecting};
use fault_model::Model;
use patterns::{BLOCK_SIZE, PushFault, Tests, WordsFault, write_tests};
use report::{SimFault, job_of};
use std::alloc::{AllocError, Global};
use worked_circuits::C17;

/// Returns the lanes of the kept tests of a block: of each class that no kept test detects, the
/// first test that does.
fn kept_lanes(job: &Job, workspace: &mut Workspace, block: u32) -> u64
    requires block { block < blocks (length job.now.tests.tests) }
    requires fits { HasRoom workspace.old job.now }
{
    let mut kept = 0;
    for class in 0..job.classes().count() {
        let lanes = detecting(job, workspace, class, block);
        if lanes != 0 && lanes & kept == 0 {
            kept |= 1 << lanes.trailing_zeros();
        }
    }
    kept
}

/// Returns the test file of the kept tests of a block.
fn kept_text(alloc: Global, tests: &Tests, block: u32, kept: u64) -> Result<Vec<u8>, AllocError>
    requires list { IsTestList tests.now }
    requires block { block < blocks (length tests.now.tests) }
{
    let mut text = Vec::new(alloc);
    for lane in 0..tests.size_of(block) {
        if (kept >> lane) & 1 == 1 {
            tests.push_row(BLOCK_SIZE * block + lane, &mut text)?;
        }
    }
    Ok(text)
}

/// Returns the kept tests of the first block of a job, as a test file.
fn compacted(alloc: Global, job: &Job) -> Result<Vec<u8>, AllocError> {
    let mut workspace = Workspace::new(alloc, job)?;
    if job.tests().blocks() == 0 {
        return Ok(Vec::new(alloc));
    }
    let kept = kept_lanes(job, &mut workspace, 0);
    kept_text(alloc, job.tests(), 0, kept)
}

/// Returns whether a test that finds nothing new is left out, of five tests of C17.
fn leaves_one_out(alloc: Global) -> Result<bool, SimFault> {
    let tests = b"11111\n00000\n11111\n10101\n01010\n";
    let job = job_of(alloc, Model::StuckAt, C17, tests)?;
    let text = compacted(alloc, &job)?;
    Ok(text.as_slice() == b"11111\n00000\n10101\n01010\n".as_slice())
}

/// Returns whether tests are made of words.
fn are_made(alloc: Global) -> Result<bool, WordsFault> {
    let tests = Tests::from_words(alloc, 2, 3, &[0b101, 0b110])?;
    let text = write_tests(alloc, &tests)?;
    Ok(text.as_slice() == b"10\n01\n11\n".as_slice())
}

/// Returns the last of some tests, as bits.
fn last_test(alloc: Global, tests: &Tests) -> Result<Vec<bool>, AllocError> {
    let mut bits = Vec::new(alloc);
    if tests.count() > 0 {
        for source in 0..tests.width() {
            bits.push(tests.bit(tests.count() - 1, source))?;
        }
    }
    Ok(bits)
}

/// Returns the last of a job's own tests and one more after it: the two are a pair across the
/// lists.
fn with_last(alloc: Global, job: &Job, row: &[bool]) -> Result<Tests, PushFault>
    ensures list { IfOk result (λ tests. IsTestList tests) }
    ensures width { IfOk result (λ tests. tests.width ≡ length (sources job.now.circuit)) }
{
    let mut tests = Tests::new(alloc, job.circuit().sources());
    if job.tests().count() > 0 {
        let last = last_test(alloc, job.tests())?;
        tests.push(alloc, &last)?;
    }
    tests.push(alloc, row)?;
    Ok(tests)
}

/// Returns whether the second of a job's two tests, and no other, detects its first class.
fn second_detects(alloc: Global, job: &Job) -> Result<bool, AllocError> {
    let mut workspace = Workspace::new(alloc, job)?;
    Ok(
        job.classes().count() > 0
            && job.tests().blocks() == 1
            && detecting(job, &mut workspace, 0, 0) == 0b10,
    )
}

/// Gives a job of one input one more test. Returns whether the new one detects its first class,
/// since the line has the other bit under the test before.
fn is_pair_kept(alloc: Global) -> Result<bool, SimFault> {
    let bench = b"INPUT(a)\nOUTPUT(z)\nz = BUFF(a)\n";
    let mut job = job_of(alloc, Model::Transition, bench, b"0\n")?;
    let Ok(tests) = with_last(alloc, &job, &[true]) else {
        return Ok(false);
    };
    job.set_tests(alloc, tests)?;
    Ok(second_detects(alloc, &job)?)
}

/// Returns the number of tests of a block that give a signal the bit 1.
fn ones(job: &Job, block: u32, signal: u32) -> u32
    requires block { block < blocks (length job.now.tests.tests) }
    requires signal { signal < length (names job.now.circuit) }
{
    let idle = BLOCK_SIZE - job.tests().size_of(block);
    (job.word(block, signal) << idle).count_ones()
}

/// Returns whether the first gate of C17 is 1 under two of three tests.
fn are_two(alloc: Global) -> Result<bool, SimFault> {
    let job = job_of(alloc, Model::StuckAt, C17, b"11111\n00000\n10011\n")?;
    Ok(job.tests().blocks() == 1 && job.circuit().signals() > 5 && ones(&job, 0, 5) == 2)
}

#[test]
fn tests_are_kept_and_made(rt: HostRuntime) {
    check_ok(&rt, leaves_one_out(rt.alloc()), "a test is left out");
    check_ok(&rt, are_made(rt.alloc()), "tests are made of words");
    check_ok(&rt, is_pair_kept(rt.alloc()), "the pair over the edge");
    check_ok(&rt, are_two(rt.alloc()), "fault-free words");
}
