//! Jobs, and their expected verdicts.

use block_sim::Job;
use fault_model::Model;
use job_loading::SimFault;
use std::alloc::{AllocError, Global};
use worked_circuits::C17_TEXT;
use workers::Verdicts;

/// A job: a circuit, and one or more rows of tests, each time with its number of times.
pub(crate) struct JobText {
    pub(crate) model: Model,
    pub(crate) bench: &'static str,
    pub(crate) rows: &'static [(&'static str, u32)],
}

/// C17 with a test of ones.
pub(crate) const C17: JobText = JobText {
    model: Model::StuckAt,
    bench: C17_TEXT,
    rows: &[("11111", 1)],
};

/// The first tests of C17 under the test of ones.
pub(crate) static C17_FIRSTS: [Option<u32>; 34] = [
    Some(0),
    None,
    None,
    None,
    Some(0),
    None,
    Some(0),
    None,
    Some(0),
    None,
    Some(0),
    None,
    None,
    None,
    None,
    Some(0),
    None,
    Some(0),
    None,
    Some(0),
    None,
    Some(0),
    Some(0),
    None,
    None,
    None,
    Some(0),
    None,
    Some(0),
    None,
    Some(0),
    None,
    None,
    Some(0),
];

/// A buffer. Its faults are a/0, a/1, z/0 and z/1, and the representatives of its classes z/0 and
/// z/1.
pub(crate) const BUFFER: &str = "INPUT(a)\nOUTPUT(z)\nz = BUFF(a)\n";

/// Returns the job of these texts.
///
/// The tests make their jobs by this call, so that the contract of `job_of` is used only once.
pub(crate) fn job_of(alloc: Global, job: &JobText) -> Result<Job, SimFault> {
    let tests = rows_text(alloc, job.rows)?;
    job_loading::job_of(alloc, job.model, job.bench.as_bytes(), tests.as_slice())
}

/// Returns the test file of these rows, each with its number of times.
pub(crate) fn rows_text(alloc: Global, rows: &[(&str, u32)]) -> Result<Vec<u8>, AllocError> {
    let mut text = Vec::new(alloc);
    for (row, count) in rows {
        push_rows(&mut text, row.as_bytes(), *count)?;
    }
    Ok(text)
}

/// Adds a row of a test a number of times.
fn push_rows(text: &mut Vec<u8>, row: &[u8], count: u32) -> Result<(), AllocError> {
    for _ in 0..count {
        text.extend_from_slice(row)?;
        text.push(b'\n')?;
    }
    Ok(())
}

/// Returns whether these are the verdicts of all faults.
pub(crate) fn has_firsts(verdicts: &Verdicts, firsts: &[Option<u32>]) -> bool {
    for fault in 0..verdicts.total() {
        if firsts.get(fault as usize) != Some(&verdicts.first(fault)) {
            return false;
        }
    }
    let detected = firsts.iter().filter(|first| first.is_some()).count();
    verdicts.total() as usize == firsts.len() && verdicts.detected() as usize == detected
}
