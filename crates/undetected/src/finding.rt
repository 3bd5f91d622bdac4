//! The reason of each fault.

ghost use Rattle.std.specs.Prelude.{◌≡◌, ◌↔◌, ◌<◌, ℕ, IfErr, IfOk, IsTrue, None, Option};
ghost use Rattle.std.specs.Prelude.{Some, length, slice_get};
ghost use Rattle.bench_net.specs.Scan.{names};
ghost use Rattle.fault_model.specs.Fault.{Fault};
ghost use Rattle.block_sim.specs.First.{IsFirst};
ghost use Rattle.flat_circuit.specs.Flat.{AreLive};
ghost use Rattle.block_sim.specs.Parts.{BelongTogether};
ghost use Rattle.workers.specs.Verdict.{AreFirsts};
ghost use Rattle.undetected.specs.Activated.{AreActivations};
ghost use Rattle.undetected.specs.Reasons.{AreReasons, HasPath, HasReason, IsLineIn, IsReason};

use crate::Reason;
use crate::activations::Activations;
use bench_net::Circuit;
use block_sim::live_signals;
use fault_model::Line;
use region_runs::RunJob;
use std::alloc::{AllocError, Global};
use std::sync::Wait;
use std::thread::Threads;
use workers::{RunFault, Verdicts};

/// Returns for each fault of a job's uncollapsed list the reason why no test detects it; none for a
/// detected fault. The verdicts are from a run of the job. It takes about a byte for each fault and
/// three for each signal, and reads the fault-free words of all tests once, window by window if the
/// tests stand apart ([`RunJob::read_words`]).
///
/// # Errors
///
/// [`RunFault::Memory`] if memory runs out.
pub fn reasons<R: Threads + Wait>(
    rt: &R,
    alloc: Global,
    run: &mut RunJob,
    verdicts: &Verdicts,
    workers: u32,
) -> Result<Vec<Option<Reason>>, RunFault>
    requires { AreFirsts run.old.whole.list.model run.old.whole.circuit run.old.whole.tests.tests
        verdicts.now.firsts }
    ensures reasons { IfOk result (λ reasons. AreReasons run.old.whole.list.model
        run.old.whole.circuit run.old.whole.tests.tests verdicts.now.firsts reasons.items) }
    ensures refused { IfErr result (λ fault. fault ≡ RunFault.Memory) }
    ensures kept { run.new ≡ run.old }
{
    let activations = activations(rt, alloc, run, workers)?;
    let reasons = reasons_by(alloc, run, &activations, verdicts)?;
    Ok(reasons)
}

/// Finds which faults of a job some test activates.
fn activations<R: Threads + Wait>(
    rt: &R,
    alloc: Global,
    run: &mut RunJob,
    workers: u32,
) -> Result<Activations, RunFault>
    ensures known { IfOk result (λ known. AreActivations run.old.whole known) }
    ensures refused { IfErr result (λ fault. fault ≡ RunFault.Memory) }
    ensures kept { run.new ≡ run.old }
{
    let mut activations = Activations::none(alloc, run.job().circuit())?;
    run.read_words(rt, alloc, workers, &mut activations)?;
    Ok(activations)
}

/// Returns the reason of each fault of a job, from what some test activates.
fn reasons_by(
    alloc: Global,
    run: &RunJob,
    activations: &Activations,
    verdicts: &Verdicts,
) -> Result<Vec<Option<Reason>>, AllocError>
    requires firsts { AreFirsts run.now.whole.list.model run.now.whole.circuit
        run.now.whole.tests.tests verdicts.now.firsts }
    requires known { AreActivations run.now.whole activations.now }
    ensures { IfOk result (λ reasons. AreReasons run.now.whole.list.model run.now.whole.circuit
        run.now.whole.tests.tests verdicts.now.firsts reasons.items) }
{
    let _tests = run.tests();
    let live = live_signals(alloc, run.job().circuit())?;
    let count = run.job().faults().count();
    let mut reasons = Vec::with_capacity(alloc, count as usize)?;
    for fault in 0..count {
        reasons.push(reason_at(run, &live, activations, verdicts, fault))?;
    }
    Ok(reasons)
}

/// Returns the reason of the fault of a number, none if a test detects it.
fn reason_at(
    run: &RunJob,
    live: &[bool],
    activations: &Activations,
    verdicts: &Verdicts,
    fault: u32,
) -> Option<Reason>
    requires together { BelongTogether run.now.whole }
    requires firsts { AreFirsts run.now.whole.list.model run.now.whole.circuit
        run.now.whole.tests.tests verdicts.now.firsts }
    requires live { AreLive run.now.whole.circuit live.now }
    requires room { length live.now ≡ length (names run.now.whole.circuit) }
    requires fault { fault < length run.now.whole.list.list }
    requires known { AreActivations run.now.whole activations.now }
    ensures { (f : Fault) (first : Option ℕ) → slice_get run.now.whole.list.list fault ≡ Some f
        → slice_get verdicts.now.firsts fault ≡ Some first
        → HasReason run.now.whole.circuit run.now.whole.tests.tests f first result }
{
    match verdicts.first(fault) {
        Some(_) => None,
        None => Some(reason_of(run, live, activations, fault)),
    }
}

/// Returns the reason of an undetected fault, by its number.
fn reason_of(run: &RunJob, live: &[bool], activations: &Activations, fault: u32) -> Reason
    requires live { AreLive run.now.whole.circuit live.now }
    requires room { length live.now ≡ length (names run.now.whole.circuit) }
    requires fault { fault < length run.now.whole.list.list }
    requires known { AreActivations run.now.whole activations.now }
    ensures { (f : Fault) → slice_get run.now.whole.list.list fault ≡ Some f
        → IsFirst run.now.whole.circuit run.now.whole.tests.tests f None
        → IsReason run.now.whole.circuit run.now.whole.tests.tests f result }
{
    let _tests = run.tests();
    let job = run.job();
    if !has_path(job.circuit(), live, job.faults().line_of(fault)) {
        Reason::NoPath
    } else if !activations.of(run, fault) {
        Reason::NotActivated
    } else {
        Reason::NotObserved
    }
}

/// Returns whether a line reaches an observer.
fn has_path(circuit: &Circuit, live: &[bool], line: Line) -> bool
    requires live { AreLive circuit.now live.now }
    requires room { length live.now ≡ length (names circuit.now) }
    requires line { IsLineIn circuit.now line }
    ensures { IsTrue result ↔ HasPath circuit.now line }
{
    let _circuit = circuit;
    match line {
        Line::Stem(signal) => live[signal as usize],
        Line::Pin { gate, pin: _ } => live[gate as usize],
        Line::Data { .. } | Line::Out { .. } => true,
    }
}
