//! Each call once, and with no memory and then with more and more.

use crate::memory::parts::{MEANS, Making, PARTS, Setting, tests_of_c17};
use crate::memory::runs::{Scheduled, Threaded};
use crate::memory::sweep::{Way, try_call};
use crate::memory::texts::{CALLS, Written};
use block_sim::Job;
use fault_model::Model;
use report::{SimFault, job_of};
use std::alloc::{AllocError, Global};
use std::process::Abort;
use std::sync::Wait;
use std::thread::Threads;
use worked_circuits::C17;

/// Tries to make the parts of a job.
fn try_parts<R: Abort>(rt: &R, alloc: Global, job: &Job, tests: &[u8], way: Way) {
    for part in PARTS {
        try_call(rt, alloc, &Making { part, job, tests }, way);
    }
}

/// Tries to make the means of a run.
fn try_means<R: Abort>(rt: &R, alloc: Global, job: &Job, way: Way) {
    for means in MEANS {
        try_call(rt, alloc, &Setting { means, job }, way);
    }
}

/// Tries the text calls.
fn try_texts<R: Threads + Wait + Abort>(rt: &R, alloc: Global, tests: &[u8], way: Way) {
    for call in CALLS {
        try_call(rt, alloc, &Written { rt, call, tests }, way);
    }
}

/// Tries both kinds of runs of a job.
fn try_runs<R: Threads + Wait + Abort>(rt: &R, alloc: Global, job: &Job, way: Way) {
    try_call(rt, alloc, &Scheduled { job }, way);
    try_call(rt, alloc, &Threaded { rt, job }, way);
}

/// Tries the calls that make the parts of the job of C17, or take the job.
fn try_job<R: Threads + Wait + Abort>(rt: &R, alloc: Global, way: Way) -> Result<(), SimFault> {
    let tests = tests_of_c17(alloc)?;
    let job = job_of(alloc, Model::StuckAt, C17, tests.as_slice())?;
    try_parts(rt, alloc, &job, tests.as_slice(), way);
    try_means(rt, alloc, &job, way);
    try_runs(rt, alloc, &job, way);
    Ok(())
}

/// Tries the text calls on C17.
fn try_written<R: Threads + Wait + Abort>(
    rt: &R,
    alloc: Global,
    way: Way,
) -> Result<(), AllocError> {
    let tests = tests_of_c17(alloc)?;
    try_texts(rt, alloc, tests.as_slice(), way);
    Ok(())
}

/// It passes with ample memory, and also if one allocation of its process, or the start of one
/// thread, fails: `bench/refusals.py` runs it so, with one failure after another.
#[test]
fn each_call_that_was_refused_succeeds_again(rt: HostRuntime) {
    assert!(rt; try_written(&rt, rt.alloc(), Way::Once).is_ok());
    assert!(rt; try_job(&rt, rt.alloc(), Way::Once).is_ok());
}

#[test]
fn nothing_is_written_without_memory(rt: HostRuntime) {
    assert!(rt; try_written(&rt, rt.alloc(), Way::Sweep).is_ok());
}

#[test]
fn parts_and_runs_of_a_job(rt: HostRuntime) {
    assert!(rt; try_job(&rt, rt.alloc(), Way::Sweep).is_ok());
}
