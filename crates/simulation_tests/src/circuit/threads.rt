//! Files of some size, which threads read, and the words of their job, which threads work out.

use crate::checks::check_ok;
use block_sim::Job;
use fault_model::Model;
use job_loading::{Limit, RunJob, SimFault, read_run};
use patterns::Tests;
use std::alloc::{AllocError, Global};
use std::sync::Wait;
use std::thread::Threads;
use test_threads::{read_tests_in_pieces, read_tests_in_threads};

/// The number of sources.
const WIDTH: u32 = 47;

/// The number of tests, in a file of 3 megabytes. The last block is short.
const ROWS: u32 = 65_500;

/// The number of gates, in a bench file of more than 64 kilobytes.
const GATES: u32 = 3_000;

/// The number of workers that read.
const WORKERS: u32 = 4;

/// The bytes of a piece: of a megabyte and a half, no multiple of a row's.
const PIECE: usize = 1_500_000;

/// Returns the bit of a test at a source: one bit of the test's number.
fn bit(test: u32, source: u32) -> bool {
    (test >> (source % 17)) & 1 == 1
}

/// Adds the row of a test to a file.
fn push_row(text: &mut Vec<u8>, test: u32) -> Result<(), AllocError> {
    for source in 0..WIDTH {
        text.push(if bit(test, source) { b'1' } else { b'0' })?;
    }
    text.push(b'\n')?;
    Ok(())
}

/// Returns the test file.
fn test_text(alloc: Global) -> Result<Vec<u8>, AllocError> {
    let mut text = Vec::new(alloc);
    for test in 0..ROWS {
        push_row(&mut text, test)?;
    }
    Ok(text)
}

/// Returns the bench file: each gate is the NAND of two sources.
fn bench_text(alloc: Global) -> Result<String, AllocError> {
    let mut text = String::new(alloc);
    for source in 0..WIDTH {
        write!(text, "INPUT(i{source})\n")?;
    }
    for gate in 0..GATES {
        write!(text, "g{gate} = NAND(i{}, i{})\n", gate % WIDTH, gate % 46)?;
    }
    Ok(text)
}

/// Returns whether tests have the bits of their numbers.
fn have_bits(tests: &Tests) -> bool {
    if tests.count() != ROWS || tests.width() != WIDTH {
        return false;
    }
    for test in 0..tests.count() {
        for source in [0, 5, WIDTH - 1] {
            if tests.bit(test, source) != bit(test, source) {
                return false;
            }
        }
    }
    true
}

/// Returns whether the test file is read piece by piece.
fn is_read_in_pieces<R: Threads + Wait>(rt: &R, alloc: Global, text: &[u8]) -> bool {
    match read_tests_in_pieces(rt, alloc, text, WIDTH, PIECE, WORKERS) {
        Some((tests, file)) => have_bits(&tests) && file.is_empty(),
        None => false,
    }
}

/// Returns the word of a signal on a block, if there is such a word.
fn word_of(job: &Job, block: u32, signal: u32) -> Option<u64> {
    if block < job.tests().blocks() && signal < job.circuit().signals() {
        return Some(job.word(block, signal));
    }
    None
}

/// Returns whether a gate has the NAND of its sources' words on a block. Past the last test, these
/// have zeros.
fn is_nand(job: &Job, block: u32, gate: u32) -> bool {
    let one = word_of(job, block, gate % WIDTH);
    let other = word_of(job, block, gate % 46);
    match (one, other, word_of(job, block, WIDTH.wrapping_add(gate))) {
        (Some(one), Some(other), Some(word)) => word == !(one & other),
        _ => false,
    }
}

/// Returns whether all gates have their words on a block.
fn are_nands(job: &Job, block: u32) -> bool {
    for gate in 0..GATES {
        if !is_nand(job, block, gate) {
            return false;
        }
    }
    true
}

/// Returns whether the word of source 0 on the last block ends after its 28 tests.
fn ends_in_zeros(job: &Job) -> bool {
    word_of(job, 1_023, 0).is_some_and(|word| word >> 28 == 0)
}

/// Returns whether a job has the tests of the file, and the words of its gates on every 64th block.
fn is_right(job: &Job) -> bool {
    for part in 0..16 {
        if !are_nands(job, 64 * part + 63) {
            return false;
        }
    }
    have_bits(job.tests()) && ends_in_zeros(job)
}

/// Returns whether a job is right once threads have given it the tests of the file again.
fn is_right_again<R: Threads + Wait>(
    rt: &R,
    alloc: Global,
    run: &mut RunJob,
    text: &[u8],
) -> Result<bool, SimFault> {
    let tests = read_tests_in_threads(rt, alloc, text, run.job().circuit().sources(), WORKERS)?;
    run.set_own_tests(rt, alloc, tests, WORKERS)?;
    Ok(is_right(run.job()))
}

/// Returns whether threads make the right job of the two files.
fn is_made<R: Threads + Wait>(rt: &R, alloc: Global, text: &[u8]) -> Result<bool, SimFault> {
    let bench = bench_text(alloc)?;
    let bench = bench.as_bytes();
    let (model, limit) = (Model::StuckAt, Limit::None);
    let mut run = read_run(rt, alloc, model, bench, text, limit, false, WORKERS)?;
    Ok(is_right(run.job()) && is_right_again(rt, alloc, &mut run, text)?)
}

/// Returns whether threads read the test file in both ways.
fn are_read<R: Threads + Wait>(rt: &R, alloc: Global) -> Result<bool, SimFault> {
    let text = test_text(alloc)?;
    Ok(is_read_in_pieces(rt, alloc, &text) && is_made(rt, alloc, &text)?)
}

#[test]
fn threads_read_long_files(rt: HostRuntime) {
    check_ok(&rt, are_read(&rt, rt.alloc()), "long files");
}
