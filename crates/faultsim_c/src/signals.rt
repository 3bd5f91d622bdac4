//! Calls about signals: their names, places in a test and fault-free words, and the stems of
//! classes.

ghost use Rattle.std.specs.Prelude.{◌≡◌, ◌≢◌, ◌⊎◌, ◌<◌, ◌≤◌, IsSome, List, None, Some};
ghost use Rattle.std.specs.Prelude.{length, slice_get, ℕ};
ghost use Rattle.bench_net.specs.Scan.{name_of, names, sources};
ghost use Rattle.patterns.specs.Tests.{blocks};
ghost use Rattle.block_sim.specs.Parts.{Parts};
ghost use Rattle.flat_circuit.specs.Words.{IsFaultFreeWord};
ghost use Rattle.faultsim_c.specs.Calls.{AreStemsOf, IsCopied, job_of};
ghost use Rattle.faultsim_c.specs.Circuits.{AreValuesOf};

use crate::handle::{FsJob, put, take};
use crate::status::{DONE, NO_JOB, RANGE};
use block_sim::Job;
use std::alloc::Global;

/// Writes the stem of each class: the signal at which the fanout-free region of its representative
/// ends. The length is the number of classes.
#[unsafe(no_mangle)]
pub extern "C" fn fs_stems_of(alloc: Global, job: &mut FsJob, stems: &mut [u32]) -> u32
    ensures done { (parts : Parts) → job_of job.old.held.holding ≡ Some parts
        → length stems.old ≡ length parts.classes.representative
        → (result ≡ 0) × AreStemsOf parts stems.new }
    ensures range { (parts : Parts) → job_of job.old.held.holding ≡ Some parts
        → length stems.old ≢ length parts.classes.representative → result ≡ 4 }
    ensures no_job { job.old.held.holding ≡ None → result ≡ 1 }
    ensures untouched { result ≢ 0 → stems.new ≡ stems.old }
    ensures kept { job.new.held.holding ≡ job.old.held.holding }
{
    let Some(holding) = take(alloc, job) else {
        return NO_JOB;
    };
    let status = stems_of(holding.session.job(), stems);
    put(alloc, job, holding);
    status
}

/// Writes the stem of each class of a job.
fn stems_of(job: &Job, stems: &mut [u32]) -> u32
    ensures done { length stems.old ≡ length job.now.classes.representative
        → (result ≡ 0) × AreStemsOf job.now stems.new }
    ensures range { length stems.old ≢ length job.now.classes.representative → result ≡ 4 }
    ensures untouched { result ≢ 0 → stems.new ≡ stems.old }
{
    if stems.len() != job.classes().count() as usize {
        return RANGE;
    }
    for class in 0..job.classes().count() {
        stems[class as usize] = job.stem_of_class(class);
    }
    DONE
}

/// Writes the fault-free word of a signal under a block: bit k is its value under test
/// `64 * block + k`.
#[unsafe(no_mangle)]
pub extern "C" fn fs_word(
    alloc: Global,
    job: &mut FsJob,
    block: u32,
    signal: u32,
    word: &mut u64,
) -> u32
    ensures done { (parts : Parts) → job_of job.old.held.holding ≡ Some parts
        → block < blocks (length parts.tests.tests) → signal < length (names parts.circuit)
        → (result ≡ 0)
        × IsFaultFreeWord parts.circuit parts.tests.tests block signal word.new }
    ensures range { (parts : Parts) → job_of job.old.held.holding ≡ Some parts
        → (blocks (length parts.tests.tests) ≤ block) ⊎ (length (names parts.circuit) ≤ signal)
        → result ≡ 4 }
    ensures no_job { job.old.held.holding ≡ None → result ≡ 1 }
    ensures untouched { result ≢ 0 → word.new ≡ word.old }
    ensures kept { job.new.held.holding ≡ job.old.held.holding }
{
    let Some(holding) = take(alloc, job) else {
        return NO_JOB;
    };
    let status = word_in(holding.session.job(), block, signal, word);
    put(alloc, job, holding);
    status
}

/// Writes the fault-free word of a signal under a block of a job.
fn word_in(job: &Job, block: u32, signal: u32, word: &mut u64) -> u32
    ensures done { block < blocks (length job.now.tests.tests)
        → signal < length (names job.now.circuit) → (result ≡ 0)
        × IsFaultFreeWord job.now.circuit job.now.tests.tests block signal word.new }
    ensures range { (blocks (length job.now.tests.tests) ≤ block)
        ⊎ (length (names job.now.circuit) ≤ signal) → result ≡ 4 }
    ensures untouched { result ≢ 0 → word.new ≡ word.old }
{
    if block >= job.tests().blocks() || signal >= job.circuit().signals() {
        return RANGE;
    }
    *word = job.word(block, signal);
    DONE
}

/// Writes the name of a signal, and the number of its bytes. If `text` has less room, the status is
/// 4, and `wanted` is the room that it needs.
#[unsafe(no_mangle)]
pub extern "C" fn fs_name_of(
    alloc: Global,
    job: &mut FsJob,
    signal: u32,
    text: &mut [u8],
    wanted: &mut usize,
) -> u32
    ensures done { (parts : Parts) (name : List ℕ) → job_of job.old.held.holding ≡ Some parts
        → signal < length (names parts.circuit) → name_of parts.circuit signal ≡ Some name
        → IsCopied name text.old text.new wanted.new result }
    ensures range { (parts : Parts) → job_of job.old.held.holding ≡ Some parts
        → length (names parts.circuit) ≤ signal
        → (result ≡ 4) × (wanted.new ≡ wanted.old) × (text.new ≡ text.old) }
    ensures no_job { job.old.held.holding ≡ None → (result ≡ 1) × (wanted.new ≡ wanted.old) }
    ensures untouched { result ≢ 0 → text.new ≡ text.old }
    ensures kept { job.new.held.holding ≡ job.old.held.holding }
{
    let Some(holding) = take(alloc, job) else {
        return NO_JOB;
    };
    let status = name_in(holding.session.job(), signal, text, wanted);
    put(alloc, job, holding);
    status
}

/// Writes the name of a signal of a job.
fn name_in(job: &Job, signal: u32, text: &mut [u8], wanted: &mut usize) -> u32
    ensures done { (name : List ℕ) → signal < length (names job.now.circuit)
        → name_of job.now.circuit signal ≡ Some name
        → IsCopied name text.old text.new wanted.new result }
    ensures range { length (names job.now.circuit) ≤ signal
        → (result ≡ 4) × (wanted.new ≡ wanted.old) × (text.new ≡ text.old) }
    ensures untouched { result ≢ 0 → text.new ≡ text.old }
{
    let circuit = job.circuit();
    if signal >= circuit.signals() {
        return RANGE;
    }
    copy_text(circuit.name_of(signal).as_bytes(), text, wanted)
}

/// Copies bytes to the front of a text, if it has room for them, and returns their number.
pub(crate) fn copy_text(bytes: &[u8], text: &mut [u8], wanted: &mut usize) -> u32
    ensures copied { IsCopied bytes.now text.old text.new wanted.new result }
    ensures statuses { (result ≡ 0) ⊎ (result ≡ 4) }
    ensures untouched { result ≢ 0 → text.new ≡ text.old }
{
    *wanted = bytes.len();
    if text.len() < bytes.len() {
        return RANGE;
    }
    let (front, _) = text.split_at_mut(bytes.len());
    front.copy_from_slice(bytes);
    DONE
}

/// Writes the place of a signal in a test, from 0. The status is 4 if the signal is a gate's, too.
#[unsafe(no_mangle)]
pub extern "C" fn fs_source_of(alloc: Global, job: &mut FsJob, signal: u32, place: &mut u32) -> u32
    ensures done { result ≡ 0 → (parts : Parts) × (job_of job.old.held.holding ≡ Some parts)
        × (signal < length (names parts.circuit))
        × (slice_get (sources parts.circuit) place.new ≡ name_of parts.circuit signal) }
    ensures range { result ≡ 4 → (parts : Parts) × (job_of job.old.held.holding ≡ Some parts)
        × ((length (names parts.circuit) ≤ signal) ⊎ ((i : ℕ)
        → slice_get (sources parts.circuit) i ≢ name_of parts.circuit signal)) }
    ensures statuses { IsSome job.old.held.holding → (result ≡ 0) ⊎ (result ≡ 4) }
    ensures no_job { job.old.held.holding ≡ None → result ≡ 1 }
    ensures untouched { result ≢ 0 → place.new ≡ place.old }
    ensures kept { job.new.held.holding ≡ job.old.held.holding }
{
    let Some(holding) = take(alloc, job) else {
        return NO_JOB;
    };
    let status = source_in(holding.session.job(), signal, place);
    put(alloc, job, holding);
    status
}

/// Writes the place of a signal of a job in a test.
fn source_in(job: &Job, signal: u32, place: &mut u32) -> u32
    ensures done { result ≡ 0 → (signal < length (names job.now.circuit))
        × (slice_get (sources job.now.circuit) place.new ≡ name_of job.now.circuit signal) }
    ensures range { result ≡ 4 → (length (names job.now.circuit) ≤ signal) ⊎ ((i : ℕ)
        → slice_get (sources job.now.circuit) i ≢ name_of job.now.circuit signal) }
    ensures statuses { (result ≡ 0) ⊎ (result ≡ 4) }
    ensures untouched { result ≢ 0 → place.new ≡ place.old }
{
    let circuit = job.circuit();
    if signal >= circuit.signals() {
        return RANGE;
    }
    match circuit.source_of(signal) {
        Some(source) => {
            *place = source;
            DONE
        }
        None => RANGE,
    }
}

/// Writes the fault-free words of all signals under a block: `words[signal]` as [`fs_word`] writes
/// it. The length is the number of signals.
#[unsafe(no_mangle)]
pub extern "C" fn fs_values(alloc: Global, job: &mut FsJob, block: u32, words: &mut [u64]) -> u32
    ensures done { (parts : Parts) → job_of job.old.held.holding ≡ Some parts
        → block < blocks (length parts.tests.tests)
        → length words.old ≡ length (names parts.circuit)
        → (result ≡ 0) × AreValuesOf parts block words.new }
    ensures range { (parts : Parts) → job_of job.old.held.holding ≡ Some parts
        → (blocks (length parts.tests.tests) ≤ block)
        ⊎ (length words.old ≢ length (names parts.circuit)) → result ≡ 4 }
    ensures no_job { job.old.held.holding ≡ None → result ≡ 1 }
    ensures untouched { result ≢ 0 → words.new ≡ words.old }
    ensures kept { job.new.held.holding ≡ job.old.held.holding }
{
    let Some(holding) = take(alloc, job) else {
        return NO_JOB;
    };
    let status = values_in(holding.session.job(), block, words);
    put(alloc, job, holding);
    status
}

/// Writes the fault-free words of all signals under a block of a job.
fn values_in(job: &Job, block: u32, words: &mut [u64]) -> u32
    ensures done { block < blocks (length job.now.tests.tests)
        → length words.old ≡ length (names job.now.circuit)
        → (result ≡ 0) × AreValuesOf job.now block words.new }
    ensures range { (blocks (length job.now.tests.tests) ≤ block)
        ⊎ (length words.old ≢ length (names job.now.circuit)) → result ≡ 4 }
    ensures untouched { result ≢ 0 → words.new ≡ words.old }
{
    if block >= job.tests().blocks() || words.len() != job.circuit().signals() as usize {
        return RANGE;
    }
    fill_values(job, block, words);
    DONE
}

/// Fills an array with the fault-free words of the signals.
fn fill_values(job: &Job, block: u32, words: &mut [u64])
    requires block { block < blocks (length job.now.tests.tests) }
    requires lengths { length words.old ≡ length (names job.now.circuit) }
    ensures { AreValuesOf job.now block words.new }
{
    for signal in 0..job.circuit().signals() {
        words[signal as usize] = job.word(block, signal);
    }
}
