//! The library for C: jobs that C reaches by handles, and calls that keep `include/faultsim.h`.
//!
//! A handle is taken apart at the start of a call and put together at its end, so that the code
//! between is safe. A call returns a status: 0 if it is done, 1 for a handle without a job, and 2
//! if memory ran out. The status is 3 for an error of a file or of words, and 4 for a number or a
//! length out of range. It is 5 for a job that another handle shares.
#![tactic(auto)]

ghost use Rattle.std.specs.Prelude.{◌≡◌, ◌≢◌, ◌↔◌, ◌⊎◌, ◌<◌, ◌≤◌, All, IfNone, IfSome};
ghost use Rattle.std.specs.Prelude.{IsSome, IsTrue, None, Some, false, length};
ghost use Rattle.bench_net.specs.Refusal.{IsRefused};
ghost use Rattle.bench_net.specs.Scan.{sources};
ghost use Rattle.bench_net.specs.declared.BenchFault.{BenchFault};
ghost use Rattle.fault_model.specs.declared.Model.{Model as ModelOf};
ghost use Rattle.patterns.specs.Making.{IsMadeOf, IsWordsRefusal};
ghost use Rattle.patterns.specs.Tests.{HasTests, IsTestRefusal, TestList, blocks};
ghost use Rattle.patterns.specs.declared.TestFault.{TestFault as TestFaultOf};
ghost use Rattle.patterns.specs.declared.WordsFault.{WordsFault as WordsFaultOf};
ghost use Rattle.block_sim.specs.First.{AreDetecting};
ghost use Rattle.block_sim.specs.Parts.{Parts, with_tests};
ghost use Rattle.faultsim_c.specs.Calls.{AreClassesOf, AreFaultFirsts, AreFirsts, AreRequests};
ghost use Rattle.faultsim_c.specs.Calls.{AreSizes, IsCircuitJob, IsJobOfTexts, IsModelNumber};
ghost use Rattle.faultsim_c.specs.Calls.{alone_with, job_of, shared_with};
ghost use Rattle.faultsim_c.specs.declared.holding.Holding.{Holding as HoldingOf};
ghost use Rattle.faultsim_c.specs.Following.{following};
ghost use Rattle.faultsim_c.specs.Statuses.{AreRefusedTexts, AreTooMany, error_numbers};
ghost use Rattle.faultsim_c.specs.declared.status.Refusal.TheVariants as refusal;

mod circuit;
mod counts;
mod following;
mod handle;
mod held;
mod holding;
mod lanes;
mod observed;
mod run;
mod session;
mod signals;
mod status;
mod taken;
mod texts;

use fault_model::Model as FaultModel;
use handle::{FsJob, give, put, take};
use holding::is_send;
use run::{fault_firsts, simulate};
use session::Session;
use status::{DONE, FsFault, MEMORY, NO_JOB, RANGE, tell};
use std::alloc::Global;

/// The sizes of a job.
#[repr(C)]
#[derive(Clone, Copy)]
pub struct FsSizes {
    /// Primary inputs and scan cells.
    pub sources: u32,
    /// Signals.
    pub signals: u32,
    /// Faults of the uncollapsed list.
    pub faults: u32,
    /// Equivalence classes of faults.
    pub classes: u32,
    /// Tests.
    pub tests: u32,
    /// Blocks of 64 tests; the last may have fewer.
    pub blocks: u32,
}

/// The version of the calls, which changes if a program that calls them must.
const VERSION: u32 = 1;

/// Returns the version of the calls.
#[unsafe(no_mangle)]
pub extern "C" fn fs_version() -> u32
    ensures { result ≡ 1 }
{
    VERSION
}

/// Frees the contents of a handle, and leaves zeros.
#[unsafe(no_mangle)]
pub extern "C" fn fs_job_free(alloc: Global, job: &mut FsJob)
    ensures { job.new.held.holding ≡ None }
{
    drop(take(alloc, job));
}

/// Returns the model of a number.
fn model_of(model: u32) -> Option<FaultModel>
    ensures some { IfSome result (IsModelNumber model) }
    ensures none { IfNone result (2 < model) }
{
    match model {
        0 => Some(FaultModel::StuckAt),
        1 => Some(FaultModel::Transition),
        2 => Some(FaultModel::TransitionPairs),
        _ => None,
    }
}

/// Reads a circuit, lists the faults of a model and collapses them. The job has no tests yet.
#[unsafe(no_mangle)]
pub extern "C" fn fs_job_read(
    alloc: Global,
    model: u32,
    bench: &[u8],
    job: &mut FsJob,
    fault: &mut FsFault,
) -> u32
    ensures done { result ≡ 0 → (parts : Parts)
        × (job.new.held.holding ≡ Some (alone_with parts))
        × ((m : ModelOf) × IsModelNumber model m × IsCircuitJob m bench.now parts) }
    ensures refused { result ≡ 3 → (f : BenchFault) × IsRefused bench.now f
        × (fault.new ≡ error_numbers (refusal.Bench f)) }
    ensures range { (result ≡ 4) ↔ (2 < model) }
    ensures statuses { (result ≡ 0) ⊎ (result ≡ 2) ⊎ (result ≡ 3) ⊎ (result ≡ 4) }
    ensures kept { result ≢ 0 → job.new.held.holding ≡ job.old.held.holding }
    ensures quiet { result ≢ 3 → fault.new ≡ fault.old }
{
    let Some(model) = model_of(model) else {
        return RANGE;
    };
    match Session::read(alloc, model, bench) {
        Ok(session) => give(alloc, job, session),
        Err(refusal) => tell(refusal, fault),
    }
}

/// Makes a second handle of the same job.
#[unsafe(no_mangle)]
pub extern "C" fn fs_job_share(alloc: Global, job: &mut FsJob, other: &mut FsJob) -> u32
    ensures done { result ≡ 0 → (parts : Parts) × (job_of job.old.held.holding ≡ Some parts)
        × (job.new.held.holding ≡ Some (shared_with parts))
        × (other.new.held.holding ≡ Some (shared_with parts)) }
    ensures no_job { (result ≡ 1) ↔ (job.old.held.holding ≡ None) }
    ensures serves { IsSome job.old.held.holding → (result ≡ 0) ⊎ (result ≡ 2) }
    ensures unshared { result ≢ 0 → other.new.held.holding ≡ other.old.held.holding }
    ensures kept { result ≢ 0 → job.new.held.holding ≡ job.old.held.holding }
{
    let Some(mut holding) = take(alloc, job) else {
        return NO_JOB;
    };
    let second = holding.share(alloc);
    put(alloc, job, holding);
    match second {
        Ok(second) => {
            put(alloc, other, second);
            DONE
        }
        Err(_) => MEMORY,
    }
}

/// Writes the sizes of the job.
#[unsafe(no_mangle)]
pub extern "C" fn fs_sizes_of(alloc: Global, job: &mut FsJob, sizes: &mut FsSizes) -> u32
    ensures done { (parts : Parts) → job_of job.old.held.holding ≡ Some parts
        → (result ≡ 0) × AreSizes parts sizes.new }
    ensures no_job { job.old.held.holding ≡ None → (result ≡ 1) × (sizes.new ≡ sizes.old) }
    ensures kept { job.new.held.holding ≡ job.old.held.holding }
{
    let Some(holding) = take(alloc, job) else {
        return NO_JOB;
    };
    *sizes = sizes_of(&holding.session);
    put(alloc, job, holding);
    DONE
}

/// Returns the sizes of the job of a session.
fn sizes_of(session: &Session) -> FsSizes
    ensures { AreSizes session.now result }
{
    let job = session.job();
    FsSizes {
        sources: job.circuit().sources(),
        signals: job.circuit().signals(),
        faults: job.faults().count(),
        classes: job.classes().count(),
        tests: job.tests().count(),
        blocks: job.tests().blocks(),
    }
}

/// Replaces the job's tests with tests in words: for each block one word for each source.
#[unsafe(no_mangle)]
pub extern "C" fn fs_set_words(
    alloc: Global,
    job: &mut FsJob,
    count: u32,
    words: &[u64],
    fault: &mut FsFault,
) -> u32
    ensures done { result ≡ 0 → (parts : Parts) × (tests : TestList)
        × (job_of job.old.held.holding ≡ Some parts)
        × IsMadeOf (length (sources parts.circuit)) count words.now tests
        × (job.new.held.holding ≡ Some (alone_with (with_tests parts tests))) }
    ensures refused { result ≡ 3 → (parts : Parts) × (f : WordsFaultOf)
        × (job_of job.old.held.holding ≡ Some parts)
        × IsWordsRefusal (length (sources parts.circuit)) count words.now f
        × (fault.new ≡ error_numbers (refusal.Words f)) }
    ensures no_job { (result ≡ 1) ↔ (job.old.held.holding ≡ None) }
    ensures statuses { IsSome job.old.held.holding
        → (result ≡ 0) ⊎ (result ≡ 2) ⊎ (result ≡ 3) ⊎ (result ≡ 5) }
    ensures shared { result ≡ 5 → (h : HoldingOf) × (job.old.held.holding ≡ Some h)
        × (h.alone ≡ false) }
    ensures kept { result ≢ 0 → job.new.held.holding ≡ job.old.held.holding }
    ensures quiet { result ≢ 3 → fault.new ≡ fault.old }
{
    let Some(mut holding) = take(alloc, job) else {
        return NO_JOB;
    };
    let done = holding.set_words(alloc, count, words);
    put(alloc, job, holding);
    match done {
        Ok(()) => DONE,
        Err(refusal) => tell(refusal, fault),
    }
}

/// Replaces the job's tests with their last one and then tests in words. The last test becomes test
/// 0, so its pair with the first new test isn't lost. If the job has no tests, all are new. Under
/// launch/capture pairs it would make pairs of a capture test and the next launch test.
#[unsafe(no_mangle)]
pub extern "C" fn fs_next_words(
    alloc: Global,
    job: &mut FsJob,
    count: u32,
    words: &[u64],
    fault: &mut FsFault,
) -> u32
    ensures done { result ≡ 0 → (parts : Parts) × (tests : TestList)
        × (job_of job.old.held.holding ≡ Some parts)
        × IsMadeOf (length (sources parts.circuit)) count words.now tests
        × (job.new.held.holding
        ≡ Some (alone_with (with_tests parts (following parts.tests tests)))) }
    ensures refused { result ≡ 3 → (parts : Parts) × (f : WordsFaultOf)
        × (job_of job.old.held.holding ≡ Some parts)
        × (IsWordsRefusal (length (sources parts.circuit)) count words.now f
        ⊎ AreTooMany parts.tests.tests count f)
        × (fault.new ≡ error_numbers (refusal.Words f)) }
    ensures no_job { (result ≡ 1) ↔ (job.old.held.holding ≡ None) }
    ensures statuses { IsSome job.old.held.holding
        → (result ≡ 0) ⊎ (result ≡ 2) ⊎ (result ≡ 3) ⊎ (result ≡ 5) }
    ensures shared { result ≡ 5 → (h : HoldingOf) × (job.old.held.holding ≡ Some h)
        × (h.alone ≡ false) }
    ensures kept { result ≢ 0 → job.new.held.holding ≡ job.old.held.holding }
    ensures quiet { result ≢ 3 → fault.new ≡ fault.old }
{
    let Some(mut holding) = take(alloc, job) else {
        return NO_JOB;
    };
    let done = holding.next_words(alloc, count, words);
    put(alloc, job, holding);
    match done {
        Ok(()) => DONE,
        Err(refusal) => tell(refusal, fault),
    }
}

/// Replaces the job's tests with the tests of a test file.
#[unsafe(no_mangle)]
pub extern "C" fn fs_set_text(
    alloc: Global,
    job: &mut FsJob,
    text: &[u8],
    fault: &mut FsFault,
) -> u32
    ensures done { result ≡ 0 → (parts : Parts) × (tests : TestList)
        × (job_of job.old.held.holding ≡ Some parts)
        × HasTests text.now (length (sources parts.circuit)) tests
        × (job.new.held.holding ≡ Some (alone_with (with_tests parts tests))) }
    ensures refused { result ≡ 3 → (parts : Parts) × (f : TestFaultOf)
        × (job_of job.old.held.holding ≡ Some parts)
        × IsTestRefusal text.now (length (sources parts.circuit)) f
        × (fault.new ≡ error_numbers (refusal.Tests f)) }
    ensures no_job { (result ≡ 1) ↔ (job.old.held.holding ≡ None) }
    ensures statuses { IsSome job.old.held.holding
        → (result ≡ 0) ⊎ (result ≡ 2) ⊎ (result ≡ 3) ⊎ (result ≡ 5) }
    ensures shared { result ≡ 5 → (h : HoldingOf) × (job.old.held.holding ≡ Some h)
        × (h.alone ≡ false) }
    ensures kept { result ≢ 0 → job.new.held.holding ≡ job.old.held.holding }
    ensures quiet { result ≢ 3 → fault.new ≡ fault.old }
{
    let Some(mut holding) = take(alloc, job) else {
        return NO_JOB;
    };
    let done = holding.set_text(alloc, text);
    put(alloc, job, holding);
    match done {
        Ok(()) => DONE,
        Err(refusal) => tell(refusal, fault),
    }
}

/// Writes the class of each fault. The length is the number of faults.
#[unsafe(no_mangle)]
pub extern "C" fn fs_classes_of(alloc: Global, job: &mut FsJob, classes: &mut [u32]) -> u32
    ensures done { (parts : Parts) → job_of job.old.held.holding ≡ Some parts
        → length classes.old ≡ length parts.list.list
        → (result ≡ 0) × AreClassesOf parts classes.new }
    ensures range { (parts : Parts) → job_of job.old.held.holding ≡ Some parts
        → length classes.old ≢ length parts.list.list → result ≡ 4 }
    ensures no_job { job.old.held.holding ≡ None → result ≡ 1 }
    ensures untouched { result ≢ 0 → classes.new ≡ classes.old }
    ensures kept { job.new.held.holding ≡ job.old.held.holding }
{
    let Some(holding) = take(alloc, job) else {
        return NO_JOB;
    };
    let status = classes_of(&holding.session, classes);
    put(alloc, job, holding);
    status
}

/// Writes the class of each fault of a session.
fn classes_of(session: &Session, classes: &mut [u32]) -> u32
    ensures done { length classes.old ≡ length session.now.list.list
        → (result ≡ 0) × AreClassesOf session.now classes.new }
    ensures range { length classes.old ≢ length session.now.list.list → result ≡ 4 }
    ensures untouched { result ≢ 0 → classes.new ≡ classes.old }
{
    let job = session.job();
    if classes.len() != job.faults().count() as usize {
        return RANGE;
    }
    for fault in 0..job.faults().count() {
        classes[fault as usize] = job.classes().class_of(fault);
    }
    DONE
}

/// Writes the first test that detects each class of a list. The lengths are equal.
#[unsafe(no_mangle)]
pub extern "C" fn fs_simulate(
    alloc: Global,
    job: &mut FsJob,
    classes: &[u32],
    firsts: &mut [u32],
) -> u32
    ensures done { result ≡ 0 → (parts : Parts) × (job_of job.old.held.holding ≡ Some parts)
        × AreFirsts parts classes.now firsts.new }
    ensures serves { (parts : Parts) → job_of job.old.held.holding ≡ Some parts
        → AreRequests parts classes.now firsts.old → (result ≡ 0) ⊎ (result ≡ 2) }
    ensures range { (parts : Parts) → job_of job.old.held.holding ≡ Some parts
        → ¬ AreRequests parts classes.now firsts.old → result ≡ 4 }
    ensures no_job { job.old.held.holding ≡ None → result ≡ 1 }
    ensures untouched { result ≢ 0 → firsts.new ≡ firsts.old }
    ensures kept { job.new.held.holding ≡ job.old.held.holding }
{
    let Some(mut holding) = take(alloc, job) else {
        return NO_JOB;
    };
    let status = simulate_in(alloc, &mut holding.session, classes, firsts);
    put(alloc, job, holding);
    status
}

/// Writes the first test that detects each class of a list, in a session.
fn simulate_in(alloc: Global, session: &mut Session, classes: &[u32], firsts: &mut [u32]) -> u32
    ensures done { result ≡ 0 → AreFirsts session.old classes.now firsts.new }
    ensures serves { AreRequests session.old classes.now firsts.old
        → (result ≡ 0) ⊎ (result ≡ 2) }
    ensures range { ¬ AreRequests session.old classes.now firsts.old → result ≡ 4 }
    ensures untouched { result ≢ 0 → firsts.new ≡ firsts.old }
    ensures kept { session.new ≡ session.old }
{
    if firsts.len() != classes.len() || !are_below(classes, session.job().classes().count()) {
        return RANGE;
    }
    match simulate(alloc, session, classes, firsts) {
        Ok(()) => DONE,
        Err(_) => MEMORY,
    }
}

/// Returns whether all numbers of a list are below a count.
pub(crate) fn are_below(numbers: &[u32], count: u32) -> bool
    ensures { IsTrue result ↔ All (λ number. number < count) numbers.now }
{
    numbers.iter().all(|number| *number < count)
}

/// Writes the lanes of a block whose tests detect a class.
#[unsafe(no_mangle)]
pub extern "C" fn fs_detecting(
    alloc: Global,
    job: &mut FsJob,
    class: u32,
    block: u32,
    lanes: &mut u64,
) -> u32
    ensures done { (parts : Parts) → job_of job.old.held.holding ≡ Some parts
        → class < length parts.classes.representative → block < blocks (length parts.tests.tests)
        → (result ≡ 0) × AreDetecting parts.list.model parts.circuit parts.tests.tests class
        block lanes.new }
    ensures range { (parts : Parts) → job_of job.old.held.holding ≡ Some parts
        → (length parts.classes.representative ≤ class)
        ⊎ (blocks (length parts.tests.tests) ≤ block) → result ≡ 4 }
    ensures no_job { job.old.held.holding ≡ None → result ≡ 1 }
    ensures untouched { result ≢ 0 → lanes.new ≡ lanes.old }
    ensures kept { job.new.held.holding ≡ job.old.held.holding }
{
    let Some(mut holding) = take(alloc, job) else {
        return NO_JOB;
    };
    let status = detecting_in(&mut holding.session, class, block, lanes);
    put(alloc, job, holding);
    status
}

/// Writes the lanes of a block whose tests detect a class, in a session.
fn detecting_in(session: &mut Session, class: u32, block: u32, lanes: &mut u64) -> u32
    ensures done { class < length session.old.classes.representative
        → block < blocks (length session.old.tests.tests)
        → (result ≡ 0) × AreDetecting session.old.list.model session.old.circuit
        session.old.tests.tests class block lanes.new }
    ensures range { (length session.old.classes.representative ≤ class)
        ⊎ (blocks (length session.old.tests.tests) ≤ block) → result ≡ 4 }
    ensures untouched { result ≢ 0 → lanes.new ≡ lanes.old }
    ensures kept { session.new ≡ session.old }
{
    let job = session.job();
    if class >= job.classes().count() || block >= job.tests().blocks() {
        return RANGE;
    }
    *lanes = session.detecting(class, block);
    DONE
}

/// Writes the first test of a test file that detects each fault of a circuit, without a handle. If
/// `firsts` has a length other than the number of faults, the status is 4, and `faults` is that
/// number.
#[unsafe(no_mangle)]
pub extern "C" fn fs_firsts(
    alloc: Global,
    model: u32,
    bench: &[u8],
    text: &[u8],
    firsts: &mut [u32],
    faults: &mut u32,
    fault: &mut FsFault,
) -> u32
    ensures done { result ≡ 0 → (m : ModelOf) × (parts : Parts) × IsModelNumber model m
        × IsJobOfTexts m bench.now text.now parts × AreFaultFirsts parts firsts.new
        × (faults.new ≡ length parts.list.list) × (length firsts.old ≡ faults.new) }
    ensures refused { result ≡ 3 → AreRefusedTexts bench.now text.now fault.new }
    ensures statuses { (result ≡ 0) ⊎ (result ≡ 2) ⊎ (result ≡ 3) ⊎ (result ≡ 4) }
    ensures model { 2 < model → (result ≡ 4) × (faults.new ≡ faults.old) }
    ensures uncounted { result ≢ 0 → result ≢ 4 → faults.new ≡ faults.old }
    ensures range { model ≤ 2 → result ≡ 4 → (m : ModelOf) × (parts : Parts)
        × IsModelNumber model m × IsJobOfTexts m bench.now text.now parts
        × (faults.new ≡ length parts.list.list) × (length firsts.old ≢ faults.new) }
    ensures untouched { result ≢ 0 → firsts.new ≡ firsts.old }
    ensures quiet { result ≢ 3 → fault.new ≡ fault.old }
{
    let Some(model) = model_of(model) else {
        return RANGE;
    };
    match Session::read_both(alloc, model, bench, text) {
        Ok(mut session) => firsts_in(alloc, &mut session, firsts, faults),
        Err(refusal) => tell(refusal, fault),
    }
}

/// Writes the first test that detects each fault of a session.
fn firsts_in(alloc: Global, session: &mut Session, firsts: &mut [u32], faults: &mut u32) -> u32
    ensures done { result ≡ 0 → AreFaultFirsts session.old firsts.new
        × (length firsts.old ≡ length session.old.list.list) }
    ensures statuses { (result ≡ 0) ⊎ (result ≡ 2) ⊎ (result ≡ 4) }
    ensures range { (result ≡ 4) ↔ (length firsts.old ≢ length session.old.list.list) }
    ensures faults { result ≢ 2 → faults.new ≡ length session.old.list.list }
    ensures uncounted { result ≡ 2 → faults.new ≡ faults.old }
    ensures untouched { result ≢ 0 → firsts.new ≡ firsts.old }
{
    let count = session.job().faults().count();
    if firsts.len() != count as usize {
        *faults = count;
        return RANGE;
    }
    match fault_firsts(alloc, session, firsts) {
        Ok(()) => {
            *faults = count;
            DONE
        }
        Err(_) => MEMORY,
    }
}

/// States that a handle may go to another thread, because its contents may.
pub fn may_go(job: &FsJob) {
    is_send(job)
}
