//! The file of one part of a run.

ghost use Rattle.std.specs.Prelude.{◌≡◌, ◌<◌, ◌≤◌, ◌+◌, IfErr, OnOk, Some, count_by, length};
ghost use Rattle.std.specs.Prelude.{slice_get, true, zip};
ghost use Rattle.std.specs.List.{flat_map};
ghost use Rattle.fault_model.specs.Fault.{faults};
ghost use Rattle.block_sim.specs.Parts.{BelongTogether};
ghost use Rattle.byte_output.specs.Output.{Writes};
ghost use Rattle.region_runs.specs.Refused.{IsPartFault};
ghost use Rattle.report.specs.EndToEnd.{IsJobReportFault, WritesOneOf};
ghost use Rattle.part_files.specs.PartText.{IsPartTextOfJob, end_line, head_line, head_with};
ghost use Rattle.part_files.specs.PartText.{is_found, is_own, job_part_text};
ghost use Rattle.part_files.specs.PartText.{part_line, said_by, verdict_text};

use bench_net::Circuit;
use block_sim::Job;
use byte_output::{Out, OutFailed, put_pieces};
use fault_model::Faults;
use itoa::Buffer;
use job_loading::{FileSums, ReportFault, RunJob, SimFault, Watch};
use region_runs::{PartVerdict, part_of, run_part};
use report::{first_text, model_name, put_fault_line};
use std::alloc::Global;
use std::sync::Wait;
use std::thread::Threads;

/// The rule of parts, as a part file names it: by the stem of a class's region.
const RULE: &str = "region";

/// Runs one part of the fault classes of a job, and writes its part file. The part counts from 0,
/// of this number of parts. The file has the part and its run, with the sums of the two files, and
/// a line for each fault of the list. The line has the first detecting test, `none`, or `-` if the
/// fault is in another part. Last comes how many faults of the part are detected.
///
/// It calls the gate when the run of the part begins and when it ends, and asks it before each
/// piece of work. The gate decides whether there is a part file, but not its bytes.
///
/// # Errors
///
/// The errors of [`region_runs::run_part`]: with [`workers::RunFault::Unfinished`] it fails if the
/// gate stops workers and not all classes of the part are settled. And those of the output.
pub fn write_part_of_run<R: Threads + Wait, G: Watch + Sync, W: Out>(
    rt: &R,
    alloc: Global,
    run: &mut RunJob,
    part: u32,
    parts: u32,
    sums: FileSums<'_>,
    workers: u32,
    gate: &G,
    out: &mut W,
) -> Result<(), SimFault>
    requires job { BelongTogether run.old.whole }
    requires gate { run.old.apart ≡ true → G.passing gate.now }
    requires part { part < parts }
    ensures written { WritesOneOf (IsPartTextOfJob (head_with run.old.whole.list.model
        sums.entry.bench.now sums.entry.tests.now part parts) run.old.whole) result
        (W.seen out.old) (W.seen out.new) }
    ensures refused { IfErr result (IsJobReportFault workers
        (IsPartFault run.old.whole parts part workers (G.passing gate.now)
        (G.stops gate.now))) }
    ensures workers { OnOk result ((0 < workers) × (workers ≤ 64)) }
    ensures kept { run.new ≡ run.old }
{
    let model = run.job().faults().model();
    let head = Head {
        part,
        parts,
        model: model_name(model),
        rule: RULE,
        bench: sums.bench,
        tests: sums.tests,
    };
    report_part(rt, alloc, run, &head, workers, gate, out)
}

/// The data of the first line of a part file. Parts count from 0.
#[derive(Clone, Copy)]
struct Head<'a> {
    part: u32,
    parts: u32,
    model: &'a str,
    rule: &'a str,
    bench: &'a str,
    tests: &'a str,
}

/// Returns how many classes of a job are in a part.
fn count_classes(job: &Job, part: u32, parts: u32) -> u32
    requires { part < parts }
{
    let mut count: u32 = 0;
    for class in 0..job.classes().count() {
        if part_of(job, class, parts) == part {
            count = count.saturating_add(1);
        }
    }
    count
}

/// Runs a part of a job by workers in threads of their own, and writes its part file. It calls the
/// gate when the run begins and when all is settled.
fn report_part<R: Threads + Wait, G: Watch + Sync, W: Out>(
    rt: &R,
    alloc: Global,
    run: &mut RunJob,
    head: &Head<'_>,
    workers: u32,
    gate: &G,
    out: &mut W,
) -> Result<(), SimFault>
    requires job { BelongTogether run.old.whole }
    requires gate { run.old.apart ≡ true → G.passing gate.now }
    requires part { head.now.part < head.now.parts }
    ensures written { WritesOneOf (IsPartTextOfJob (said_by head.now) run.old.whole) result
        (W.seen out.old) (W.seen out.new) }
    ensures refused { IfErr result (IsJobReportFault workers
        (IsPartFault run.old.whole head.now.parts head.now.part workers (G.passing gate.now)
        (G.stops gate.now))) }
    ensures workers { OnOk result ((0 < workers) × (workers ≤ 64)) }
    ensures kept { run.new ≡ run.old }
{
    let (part, parts) = (head.part, head.parts);
    gate.starts(count_classes(run.job(), part, parts), run.tests().blocks());
    let verdicts = run_part(rt, alloc, run, part, parts, workers, gate)?;
    gate.ends();
    let job = run.job();
    write_part(job.circuit(), job.faults(), head, verdicts.as_slice(), out)?;
    Ok(())
}

/// Writes the part file of the verdicts of faults. It takes no memory.
fn write_part<W: Out>(
    circuit: &Circuit,
    list: &Faults,
    head: &Head<'_>,
    verdicts: &[PartVerdict],
    out: &mut W,
) -> Result<(), ReportFault>
    requires list { list.now.list ≡ faults list.now.model circuit.now }
    requires count { length verdicts.now ≡ length list.now.list }
    ensures { Writes result (W.seen out.old) (W.seen out.new)
        (job_part_text (said_by head.now) list.now.model circuit.now verdicts.now) }
{
    put_head(head, out)?;
    put_verdicts(circuit, list, verdicts, out)?;
    let found = count_found(verdicts);
    let own = count_own(verdicts);
    put_end(head.part, head.parts, found, own, out)?;
    Ok(())
}

/// Writes the first line.
fn put_head<W: Out>(head: &Head<'_>, out: &mut W) -> Result<(), OutFailed>
    ensures { Writes result (W.seen out.old) (W.seen out.new) (head_line (said_by head.now)) }
{
    let mut part = Buffer::new();
    let mut parts = Buffer::new();
    let pieces = [
        "part ",
        part.format(u64::from(head.part) + 1),
        " of ",
        parts.format(head.parts),
        " model ",
        head.model,
        " rule ",
        head.rule,
        " bench ",
        head.bench,
        " tests ",
        head.tests,
        "\n",
    ];
    put_pieces(&pieces, out)
}

/// Writes the line of each fault.
fn put_verdicts<W: Out>(
    circuit: &Circuit,
    list: &Faults,
    verdicts: &[PartVerdict],
    out: &mut W,
) -> Result<(), OutFailed>
    requires list { list.now.list ≡ faults list.now.model circuit.now }
    requires count { length verdicts.now ≡ length list.now.list }
    ensures { Writes result (W.seen out.old) (W.seen out.new)
        (flat_map (part_line circuit.now) (zip list.now.list verdicts.now)) }
{
    for fault in 0..list.count() {
        let mut number = Buffer::new();
        let said = verdict_text(verdict_at(verdicts, fault), &mut number);
        put_fault_line(circuit, list, fault, "", said, out)?;
    }
    Ok(())
}

/// Returns the verdict on a fault.
fn verdict_at(verdicts: &[PartVerdict], fault: u32) -> PartVerdict
    requires { fault < length verdicts.now }
    ensures { slice_get verdicts.now fault ≡ Some result }
{
    verdicts[fault as usize]
}

/// Returns the word for a verdict: the first detecting test, `none`, or `-` if the fault is in
/// another part.
fn verdict_text(verdict: PartVerdict, number: &mut Buffer) -> &str
    ensures { result.now ≡ verdict_text verdict }
{
    match verdict {
        PartVerdict::First(first) => first_text(first, number),
        PartVerdict::OtherPart => "-",
    }
}

/// Returns whether a fault is in the part.
fn is_own(verdict: &PartVerdict) -> bool
    ensures { result ≡ is_own verdict.now }
{
    match verdict {
        PartVerdict::First(_) => true,
        PartVerdict::OtherPart => false,
    }
}

/// Returns whether a fault is in the part, and a test detects it.
fn is_found(verdict: &PartVerdict) -> bool
    ensures { result ≡ is_found verdict.now }
{
    match verdict {
        PartVerdict::First(first) => first.is_some(),
        PartVerdict::OtherPart => false,
    }
}

/// Returns how many faults of the part a test detects.
pub(crate) fn count_found(verdicts: &[PartVerdict]) -> usize
    ensures { result ≡ count_by is_found verdicts.now }
{
    verdicts.iter().filter(|verdict| is_found(verdict)).count()
}

/// Returns how many faults are in the part.
pub(crate) fn count_own(verdicts: &[PartVerdict]) -> usize
    ensures { result ≡ count_by is_own verdicts.now }
{
    verdicts.iter().filter(|verdict| is_own(verdict)).count()
}

/// Writes the last line: how many faults of the part are detected, and their number.
fn put_end<W: Out>(
    part: u32,
    parts: u32,
    found: usize,
    own: usize,
    out: &mut W,
) -> Result<(), OutFailed>
    ensures { Writes result (W.seen out.old) (W.seen out.new) (end_line part parts found own) }
{
    let mut number = Buffer::new();
    let mut count = Buffer::new();
    let mut detected = Buffer::new();
    let mut all = Buffer::new();
    let pieces = [
        "part ",
        number.format(u64::from(part) + 1),
        " of ",
        count.format(parts),
        ": ",
        detected.format(found),
        " of ",
        all.format(own),
        "\n",
    ];
    put_pieces(&pieces, out)
}
