//! The table of the faults of a run.

ghost use Rattle.std.specs.Prelude.{◌≡◌, ◌<◌, ◌≤◌, ◌++◌, IfErr, IfOk, IsSome, OnOk, map, true};
ghost use Rattle.std.specs.Prelude.{option_map};
ghost use Rattle.block_sim.specs.Parts.{BelongTogether};
ghost use Rattle.region_runs.specs.Refused.{IsFirstsFault, IsOpenFault};
ghost use Rattle.report.specs.EndToEnd.{IsJobTextFault, WritesOneOf};
ghost use Rattle.workers.specs.Verdict.{AreFirsts};
ghost use Rattle.tables.specs.FurtherColumns.{HasClasses, HasCounts, HasReasons, class_cells};
ghost use Rattle.tables.specs.FurtherColumns.{column_of, count_cells, further_in, reason_cells};
ghost use Rattle.tables.specs.Tables.{IsFirstTableOfJob};

use crate::column::Column;
use crate::fault_rows::FaultRows;
use crate::further::{Further, FurtherColumns};
use crate::write::write_rows_in_threads;
use analysis_reports::{Reason, reason_counts};
use block_sim::Job;
use fault_model::Classes;
use job_loading::{RunJob, Watch};
use n_detect::detections;
use report::{Lines, Out, RunFault, SimFault};
use std::alloc::{AllocError, Global};
use std::sync::Wait;
use std::thread::Threads;
use table_rows::Format;
use undetected::reasons;
use workers::Verdicts;

/// Runs a job, and writes the table of its faults, as [`crate::write_view_of_run`] does.
pub(crate) fn write_faults_of_run<R: Threads + Wait, G: Watch + Sync, W: Out>(
    rt: &R,
    alloc: Global,
    run: &mut RunJob,
    stretches: u32,
    workers: u32,
    lines: Lines,
    wanted: FurtherColumns,
    format: Format,
    gate: &G,
    out: &mut W,
) -> Result<(), SimFault>
    requires job { BelongTogether run.old.whole }
    requires gate { run.old.apart ≡ true → G.passing gate.now }
    requires counted { IsSome wanted.detections → G.passing gate.now }
    requires stretches { 0 < stretches }
    ensures written { WritesOneOf (IsFirstTableOfJob run.old.whole lines wanted format) result
        (W.seen out.old) (W.seen out.new) }
    ensures refused { IfErr result (IsJobTextFault workers
        (IsFirstsFault run.old.whole stretches workers (G.passing gate.now) (G.stops gate.now))) }
    ensures workers { OnOk result ((0 < workers) × (workers ≤ 64)) }
    ensures kept { run.new ≡ run.old }
{
    let verdicts = run.run(rt, alloc, stretches, workers, gate)?;
    let reasons = find_reasons(rt, alloc, run, &verdicts, wanted.reasons, workers, gate)?;
    let counts = find_counts(rt, alloc, run, wanted.detections, stretches, workers, gate)?;
    let job = run.job();
    let classes = classes_if(job, wanted.classes);
    let further = further_columns(alloc, &reasons, &counts, classes)?;
    let column = Column::First(&verdicts);
    let rows = FaultRows::new(alloc, job.circuit(), job.faults(), column, lines, &further)?;
    write_rows_in_threads(rt, alloc, &rows, format, workers, out)
}

/// Finds the reasons of a job's faults, if they are wanted, and tells the gate how many faults have
/// each.
fn find_reasons<R: Threads + Wait, G: Watch + Sync>(
    rt: &R,
    alloc: Global,
    run: &mut RunJob,
    verdicts: &Verdicts,
    wanted: bool,
    workers: u32,
    gate: &G,
) -> Result<Option<Vec<Option<Reason>>>, RunFault>
    requires { AreFirsts run.old.whole.list.model run.old.whole.circuit run.old.whole.tests.tests
        verdicts.now.firsts }
    ensures reasons { IfOk result (λ reasons. HasReasons run.old.whole verdicts.now.firsts wanted
        (column_of reason_cells (option_map (λ r. r.items) reasons))) }
    ensures refused { IfErr result (λ fault. fault ≡ RunFault.Memory) }
    ensures kept { run.new ≡ run.old }
{
    if !wanted {
        return Ok(None);
    }
    let reasons = reasons(rt, alloc, run, verdicts, workers)?;
    gate.explains(reason_counts(&reasons));
    Ok(Some(reasons))
}

/// Counts the tests that detect each fault of a job up to a number, if they are wanted.
fn find_counts<R: Threads + Wait, G: Watch + Sync>(
    rt: &R,
    alloc: Global,
    run: &mut RunJob,
    wanted: Option<u32>,
    stretches: u32,
    workers: u32,
    gate: &G,
) -> Result<Option<Vec<u32>>, RunFault>
    requires counted { IsSome wanted → G.passing gate.now }
    requires stretches { 0 < stretches }
    ensures counts { IfOk result (λ counts. HasCounts run.old.whole wanted
        (column_of count_cells (option_map (λ n. n.items) counts))) }
    ensures refused { IfErr result (IsOpenFault workers) }
    ensures kept { run.new ≡ run.old }
{
    let Some(most) = wanted else {
        return Ok(None);
    };
    let counts = detections(rt, alloc, run, most, stretches, workers, gate)?;
    Ok(Some(counts))
}

/// Returns the classes of a job's faults, if they are wanted.
fn classes_if(job: &Job, wanted: bool) -> Option<&Classes>
    ensures { HasClasses job.now wanted
        (column_of class_cells (option_map (λ k. k.now.class_of) result)) }
{
    if wanted { Some(job.classes()) } else { None }
}

/// Returns the further columns of what was found.
fn further_columns<'a>(
    alloc: Global,
    reasons: &'a Option<Vec<Option<Reason>>>,
    counts: &'a Option<Vec<u32>>,
    classes: Option<&'a Classes>,
) -> Result<Vec<Further<'a>>, AllocError>
    ensures { IfOk result (λ further. map further_in further.items
        ≡ column_of reason_cells (option_map (λ r. r.items) reasons.now)
        ++ (column_of count_cells (option_map (λ n. n.items) counts.now)
        ++ column_of class_cells (option_map (λ k. k.now.class_of) classes.entry))) }
{
    let mut further = Vec::new(alloc);
    if let Some(reasons) = reasons {
        further.push(Further::Reasons(reasons))?;
    }
    if let Some(counts) = counts {
        further.push(Further::Detections(counts))?;
    }
    if let Some(classes) = classes {
        further.push(Further::Classes(classes))?;
    }
    Ok(further)
}
