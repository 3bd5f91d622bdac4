//! Calls that write texts: the name of a fault, and the report.

ghost use Rattle.std.specs.Prelude.{◌≡◌, ◌≢◌, ◌⊎◌, ◌<◌, ◌≤◌, ℕ, IfNone, IfOk, IfSome, List, None};
ghost use Rattle.std.specs.Prelude.{Some, length, slice_get};
ghost use Rattle.fault_model.specs.Fault.{Fault, faults};
ghost use Rattle.block_sim.specs.Parts.{Parts};
ghost use Rattle.report.specs.declared.contents.Contents.{Contents as ContentsOf};
ghost use Rattle.report.specs.EndToEnd.{IsReportOfJob};
ghost use Rattle.report.specs.Report.{fault_text};
ghost use Rattle.faultsim_c.specs.Calls.{AreContents, IsCopied, IsLinesNumber, job_of};

use crate::handle::{FsJob, put, take};
use crate::session::Session;
use crate::signals::copy_text;
use crate::status::{MEMORY, NO_JOB, RANGE};
use block_sim::Job;
use report::{Contents, Lines, Plain, write_fault, write_report_with};
use std::alloc::{AllocError, Global};
use workers::Verdicts;

/// Writes the name of a fault, as a report writes it, and the number of its bytes. If `text` has
/// less room, the status is 4, and `wanted` is the room that it needs.
#[unsafe(no_mangle)]
pub extern "C" fn fs_fault_text(
    alloc: Global,
    job: &mut FsJob,
    fault: u32,
    text: &mut [u8],
    wanted: &mut usize,
) -> u32
    ensures done { (parts : Parts) (f : Fault) → job_of job.old.held.holding ≡ Some parts
        → slice_get (faults parts.list.model parts.circuit) fault ≡ Some f → result ≢ 2
        → IsCopied (fault_text parts.circuit f) text.old text.new wanted.new result }
    ensures range { (parts : Parts) → job_of job.old.held.holding ≡ Some parts
        → length parts.list.list ≤ fault → (result ≡ 4) × (wanted.new ≡ wanted.old) }
    ensures no_job { job.old.held.holding ≡ None → (result ≡ 1) × (wanted.new ≡ wanted.old) }
    ensures unmeasured { result ≡ 2 → wanted.new ≡ wanted.old }
    ensures statuses { (result ≡ 0) ⊎ (result ≡ 1) ⊎ (result ≡ 2) ⊎ (result ≡ 4) }
    ensures untouched { result ≢ 0 → text.new ≡ text.old }
    ensures kept { job.new.held.holding ≡ job.old.held.holding }
{
    let Some(holding) = take(alloc, job) else {
        return NO_JOB;
    };
    let status = fault_text_in(alloc, holding.session.job(), fault, text, wanted);
    put(alloc, job, holding);
    status
}

/// Writes the name of a fault of a job.
fn fault_text_in(alloc: Global, job: &Job, fault: u32, text: &mut [u8], wanted: &mut usize) -> u32
    ensures done { (f : Fault)
        → slice_get (faults job.now.list.model job.now.circuit) fault ≡ Some f → result ≢ 2
        → IsCopied (fault_text job.now.circuit f) text.old text.new wanted.new result }
    ensures range { length job.now.list.list ≤ fault
        → (result ≡ 4) × (wanted.new ≡ wanted.old) × (text.new ≡ text.old) }
    ensures unmeasured { result ≡ 2 → wanted.new ≡ wanted.old }
    ensures statuses { (result ≡ 0) ⊎ (result ≡ 2) ⊎ (result ≡ 4) }
    ensures untouched { result ≢ 0 → text.new ≡ text.old }
{
    if fault >= job.faults().count() {
        return RANGE;
    }
    match bytes_of_fault(alloc, job, fault) {
        Ok(bytes) => copy_text(bytes.as_slice(), text, wanted),
        Err(_) => MEMORY,
    }
}

/// Returns the name of a fault of a job.
fn bytes_of_fault(alloc: Global, job: &Job, fault: u32) -> Result<Vec<u8>, AllocError>
    requires { fault < length job.now.list.list }
    ensures { (f : Fault) → slice_get (faults job.now.list.model job.now.circuit) fault ≡ Some f
        → IfOk result (λ bytes. bytes.items ≡ fault_text job.now.circuit f) }
{
    let _faults = job.faults();
    let mut out = Plain::new(Vec::new(alloc));
    match write_fault(job, fault, &mut out) {
        Ok(()) => Ok(out.into_writer()),
        // Only memory can make a vector fail.
        Err(_) => Err(AllocError),
    }
}

/// Writes the report of a run with the job's tests, and the number of its bytes. If `text` has less
/// room, the status is 4, and `wanted` is the room that it needs.
///
/// `lines` is 0 for a report without fault lines, 1 with a line for each fault, and 2 with a line
/// for each undetected fault. With `classes` a last line has the coverage of the classes.
#[unsafe(no_mangle)]
pub extern "C" fn fs_report(
    alloc: Global,
    job: &mut FsJob,
    lines: u32,
    classes: bool,
    text: &mut [u8],
    wanted: &mut usize,
) -> u32
    ensures done { (parts : Parts) → job_of job.old.held.holding ≡ Some parts → lines ≤ 2
        → result ≢ 2 → (contents : ContentsOf) × (bytes : List ℕ)
        × AreContents lines classes contents
        × IsReportOfJob parts contents bytes
        × IsCopied bytes text.old text.new wanted.new result }
    ensures range { (parts : Parts) → job_of job.old.held.holding ≡ Some parts → 2 < lines
        → (result ≡ 4) × (wanted.new ≡ wanted.old) }
    ensures no_job { job.old.held.holding ≡ None → (result ≡ 1) × (wanted.new ≡ wanted.old) }
    ensures unmeasured { result ≡ 2 → wanted.new ≡ wanted.old }
    ensures statuses { (result ≡ 0) ⊎ (result ≡ 1) ⊎ (result ≡ 2) ⊎ (result ≡ 4) }
    ensures untouched { result ≢ 0 → text.new ≡ text.old }
    ensures kept { job.new.held.holding ≡ job.old.held.holding }
{
    let Some(mut holding) = take(alloc, job) else {
        return NO_JOB;
    };
    let status = report_in(alloc, &mut holding.session, lines, classes, text, wanted);
    put(alloc, job, holding);
    status
}

/// Writes the report of a session.
fn report_in(
    alloc: Global,
    session: &mut Session,
    lines: u32,
    classes: bool,
    text: &mut [u8],
    wanted: &mut usize,
) -> u32
    ensures done { lines ≤ 2 → result ≢ 2
        → (contents : ContentsOf) × (bytes : List ℕ) × AreContents lines classes contents
        × IsReportOfJob session.old contents bytes
        × IsCopied bytes text.old text.new wanted.new result }
    ensures range { 2 < lines → (result ≡ 4) × (wanted.new ≡ wanted.old) }
    ensures unmeasured { result ≡ 2 → wanted.new ≡ wanted.old }
    ensures statuses { (result ≡ 0) ⊎ (result ≡ 2) ⊎ (result ≡ 4) }
    ensures untouched { result ≢ 0 → text.new ≡ text.old }
    ensures kept { session.new ≡ session.old }
{
    let Some(lines) = lines_of(lines) else {
        return RANGE;
    };
    let contents = Contents { lines, classes };
    match bytes_of_report(alloc, session, contents) {
        Ok(bytes) => copy_text(bytes.as_slice(), text, wanted),
        Err(_) => MEMORY,
    }
}

/// Returns which faults have a line, by a number.
fn lines_of(lines: u32) -> Option<Lines>
    ensures some { IfSome result (IsLinesNumber lines) }
    ensures none { IfNone result (2 < lines) }
{
    match lines {
        0 => Some(Lines::Omitted),
        1 => Some(Lines::All),
        2 => Some(Lines::Undetected),
        _ => None,
    }
}

/// Returns the report of a session.
fn bytes_of_report(
    alloc: Global,
    session: &mut Session,
    contents: Contents,
) -> Result<Vec<u8>, AllocError>
    ensures report { IfOk result (λ bytes.
        IsReportOfJob session.old contents bytes.items) }
    ensures kept { session.new ≡ session.old }
{
    let firsts = session.fault_firsts(alloc)?;
    let _faults = session.job().faults();
    // A report doesn't tell the skipped pieces.
    let verdicts = Verdicts::of(firsts, 0);
    let mut out = Plain::new(Vec::new(alloc));
    match write_report_with(session.job(), &verdicts, contents, &mut out) {
        Ok(()) => Ok(out.into_writer()),
        // Only memory can make a vector fail.
        Err(_) => Err(AllocError),
    }
}
