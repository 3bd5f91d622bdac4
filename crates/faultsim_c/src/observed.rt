//! Calls about what is observed: the OUTPUT lines, the data pins of the flip-flops, and the tests
//! in which they see a complemented signal.

ghost use Rattle.std.specs.Prelude.{◌≡◌, ◌≢◌, ◌⊎◌, ◌*◌, ◌<◌, ◌≤◌, All, None, Some, length};
ghost use Rattle.std.specs.Prelude.{slice_get, slice_index};
ghost use Rattle.bench_net.specs.Scan.{names};
ghost use Rattle.patterns.specs.Tests.{blocks};
ghost use Rattle.block_sim.specs.Parts.{Parts};
ghost use Rattle.faultsim_c.specs.Calls.{AreObserved, AreResponseWords, AreSignals, IsCopied};
ghost use Rattle.faultsim_c.specs.Calls.{job_of, observed};

use crate::are_below;
use crate::handle::{FsJob, put, take};
use crate::session::Session;
use crate::status::{DONE, NO_JOB, RANGE};
use bench_net::{Circuit, ScanCell};
use block_sim::Job;
use std::alloc::Global;

/// Writes the signal of each observer, and in `wanted` the number of observers. The order is: the
/// OUTPUT lines, and then the data pins of the flip-flops, in the order of the DFF lines. If the
/// array has less room, the status is 4, and `wanted` is the room that it needs.
#[unsafe(no_mangle)]
pub extern "C" fn fs_observers_of(
    alloc: Global,
    job: &mut FsJob,
    signals: &mut [u32],
    wanted: &mut usize,
) -> u32
    ensures done { (parts : Parts) → job_of job.old.held.holding ≡ Some parts
        → IsCopied (observed parts.circuit) signals.old signals.new wanted.new result }
    ensures no_job { job.old.held.holding ≡ None → (result ≡ 1) × (wanted.new ≡ wanted.old) }
    ensures untouched { result ≢ 0 → signals.new ≡ signals.old }
    ensures kept { job.new.held.holding ≡ job.old.held.holding }
{
    let Some(holding) = take(alloc, job) else {
        return NO_JOB;
    };
    let status = observers_in(holding.session.job(), signals, wanted);
    put(alloc, job, holding);
    status
}

/// Writes the signal of each observer of a job.
fn observers_in(job: &Job, signals: &mut [u32], wanted: &mut usize) -> u32
    ensures done { IsCopied (observed job.now.circuit) signals.old signals.new wanted.new
        result }
    ensures untouched { result ≢ 0 → signals.new ≡ signals.old }
{
    let circuit = job.circuit();
    *wanted = observer_count(circuit);
    if signals.len() < *wanted {
        return RANGE;
    }
    let (front, _) = signals.split_at_mut(*wanted);
    fill_observers(circuit, front);
    DONE
}

/// Fills an array with the signals of the observers.
fn fill_observers(circuit: &Circuit, signals: &mut [u32])
    requires { length signals.old ≡ length (observed circuit.now) }
    ensures { signals.new ≡ observed circuit.now }
{
    for place in 0..signals.len() {
        signals[place] = observer_at(circuit, place);
    }
}

/// Writes the fault-free values of the observers: for each block of 64 tests a word for each
/// observer. The length is the number of blocks times the number of observers.
#[unsafe(no_mangle)]
pub extern "C" fn fs_responses(alloc: Global, job: &mut FsJob, words: &mut [u64]) -> u32
    ensures done { (parts : Parts) → job_of job.old.held.holding ≡ Some parts
        → length words.old ≡ blocks (length parts.tests.tests) * length (observed parts.circuit)
        → (result ≡ 0) × AreResponseWords parts words.new }
    ensures range { (parts : Parts) → job_of job.old.held.holding ≡ Some parts
        → length words.old ≢ blocks (length parts.tests.tests) * length (observed parts.circuit)
        → result ≡ 4 }
    ensures no_job { job.old.held.holding ≡ None → result ≡ 1 }
    ensures untouched { result ≢ 0 → words.new ≡ words.old }
    ensures kept { job.new.held.holding ≡ job.old.held.holding }
{
    let Some(holding) = take(alloc, job) else {
        return NO_JOB;
    };
    let status = responses_in(holding.session.job(), words);
    put(alloc, job, holding);
    status
}

/// Writes the fault-free values of the observers of a job.
fn responses_in(job: &Job, words: &mut [u64]) -> u32
    ensures done { length words.old
        ≡ blocks (length job.now.tests.tests) * length (observed job.now.circuit)
        → (result ≡ 0) × AreResponseWords job.now words.new }
    ensures range { length words.old
        ≢ blocks (length job.now.tests.tests) * length (observed job.now.circuit)
        → result ≡ 4 }
    ensures untouched { result ≢ 0 → words.new ≡ words.old }
{
    let circuit = job.circuit();
    let count = observer_count(circuit);
    if words.len() as u128 != u128::from(job.tests().blocks()) * count as u128 {
        return RANGE;
    }
    for place in 0..words.len() {
        let signal = observer_at(circuit, place % count);
        words[place] = job.word((place / count) as u32, signal);
    }
    DONE
}

/// Returns the number of observers.
fn observer_count(circuit: &Circuit) -> usize
    ensures { result ≡ length (observed circuit.now) }
{
    circuit.outputs().len() + circuit.scan_cells().len()
}

/// Returns the signal of an observer.
fn observer_at(circuit: &Circuit, place: usize) -> u32
    requires { place < length (observed circuit.now) }
    ensures signal { result ≡ slice_index (observed circuit.now) place }
    ensures within { result < length (names circuit.now) }
{
    let _signals = circuit.signals();
    let outputs = circuit.outputs();
    let cells = circuit.scan_cells();
    if place < outputs.len() {
        outputs[place]
    } else {
        cell_at(cells, place - outputs.len()).d
    }
}

/// Returns the flip-flop at a place.
fn cell_at(cells: &[ScanCell], place: usize) -> ScanCell
    requires { place < length cells.now }
    ensures { slice_get cells.now place ≡ Some result }
{
    cells[place]
}

/// Writes for each signal of a list the lanes of a block whose tests show the complemented signal
/// at an observer. The lengths are equal.
#[unsafe(no_mangle)]
pub extern "C" fn fs_observed(
    alloc: Global,
    job: &mut FsJob,
    block: u32,
    signals: &[u32],
    lanes: &mut [u64],
) -> u32
    ensures done { (parts : Parts) → job_of job.old.held.holding ≡ Some parts
        → block < blocks (length parts.tests.tests) → AreSignals parts signals.now lanes.old
        → (result ≡ 0) × AreObserved parts block signals.now lanes.new }
    ensures range { (parts : Parts) → job_of job.old.held.holding ≡ Some parts
        → (blocks (length parts.tests.tests) ≤ block)
        ⊎ (¬ AreSignals parts signals.now lanes.old) → result ≡ 4 }
    ensures no_job { job.old.held.holding ≡ None → result ≡ 1 }
    ensures untouched { result ≢ 0 → lanes.new ≡ lanes.old }
    ensures kept { job.new.held.holding ≡ job.old.held.holding }
{
    let Some(mut holding) = take(alloc, job) else {
        return NO_JOB;
    };
    let status = observed_in(&mut holding.session, block, signals, lanes);
    put(alloc, job, holding);
    status
}

/// Writes for each signal of a list the lanes of a block whose tests show it complemented, in a
/// session.
fn observed_in(session: &mut Session, block: u32, signals: &[u32], lanes: &mut [u64]) -> u32
    ensures done { block < blocks (length session.old.tests.tests)
        → AreSignals session.old signals.now lanes.old
        → (result ≡ 0) × AreObserved session.old block signals.now lanes.new }
    ensures range { (blocks (length session.old.tests.tests) ≤ block)
        ⊎ (¬ AreSignals session.old signals.now lanes.old) → result ≡ 4 }
    ensures untouched { result ≢ 0 → lanes.new ≡ lanes.old }
    ensures kept { session.new ≡ session.old }
{
    let job = session.job();
    if block >= job.tests().blocks()
        || lanes.len() != signals.len()
        || !are_below(signals, job.circuit().signals())
    {
        return RANGE;
    }
    observe_signals(session, block, signals, lanes);
    DONE
}

/// Writes for each signal of a list the lanes of a block whose tests show it complemented.
fn observe_signals(session: &mut Session, block: u32, signals: &[u32], lanes: &mut [u64])
    requires block { block < blocks (length session.old.tests.tests) }
    requires signals { All (λ s. s < length (names session.old.circuit)) signals.now }
    requires lengths { length lanes.old ≡ length signals.now }
    ensures observed { AreObserved session.old block signals.now lanes.new }
    ensures kept { session.new ≡ session.old }
{
    for place in 0..signals.len() {
        lanes[place] = session.observing(signals[place], block);
    }
}
