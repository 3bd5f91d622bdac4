//! The report of the pins that block the effects of undetected faults.

ghost use Rattle.std.specs.Prelude.{◌≡◌, ◌<◌, ◌≤◌, ◌++◌, All, IfErr, OnOk, true};
ghost use Rattle.std.specs.List.{flat_map};
ghost use Rattle.patterns.specs.Tests.{as_number};
ghost use Rattle.block_sim.specs.Parts.{BelongTogether};
ghost use Rattle.blocking_pins.specs.Blocking.{AreDetected};
ghost use Rattle.byte_output.specs.Output.{Writes};
ghost use Rattle.region_runs.specs.Refused.{IsFirstsFault};
ghost use Rattle.report.specs.EndToEnd.{IsJobTextFault, IsListFault, WritesOneOf};
ghost use Rattle.report.specs.Report.{coverage_line};
ghost use Rattle.analysis_reports.specs.BlockingReports.{IsBlockingReport, IsBlockingReportOfJob};
ghost use Rattle.analysis_reports.specs.BlockingReports.{HasNames, cells_in, pin_cells, pin_line};

use crate::blocks::{count_flags, detected_flags};
use bench_net::Circuit;
use block_sim::Job;
use blocking_pins::BlockingPin;
use byte_output::{Out, OutFailed, put_pieces};
use itoa::Buffer;
use job_loading::{ReportFault, RunJob, SimFault, Watch};
use report::put_coverage;
use std::alloc::Global;
use std::sync::Wait;
use std::thread::Threads;

/// A pin that blocks effects of undetected faults, as reports name it.
#[derive(Clone, Copy, Debug, PartialEq, Eq)]
pub struct NamedPin<'a> {
    /// The name of the gate.
    pub gate: &'a str,
    /// The number of the pin, from 1.
    pub pin: u64,
    /// The name of the signal that the pin reads.
    pub net: &'a str,
    /// The controlling value of the gate, 0 or 1.
    pub value: u32,
    /// The number of undetected faults that the pin blocks.
    pub faults: u32,
    /// The number of tests under which it blocks one.
    pub tests: u32,
}

/// Runs a job in a number of stretches by workers in threads of their own, and writes which pins
/// block the effects of undetected faults, as [`report::write_report_of_run`] writes its report.
/// Then the run has its tests as its own, with their fault-free words ([`RunJob::hold_tests`]).
///
/// The first line is the coverage line. A line `pin GATE K NET V F T` follows for each pin: pin K
/// of the gate, from 1, reads the signal NET. The controlling value of the gate is V. The pin
/// blocks F undetected faults, each under at least one of T tests. [`blocking_pins::blocking_pins`]
/// defines the pins and their order.
///
/// # Examples
///
/// `z = AND(a, b)` with the tests `00`, `01` and `10` gives
///
/// ```text
/// 3 of 6 (50.00%)
/// pin z 1 a 0 1 1
/// pin z 2 b 0 1 1
/// ```
pub fn write_blocking_of_run<R: Threads + Wait, G: Watch + Sync, W: Out>(
    rt: &R,
    alloc: Global,
    run: &mut RunJob,
    stretches: u32,
    workers: u32,
    gate: &G,
    out: &mut W,
) -> Result<(), SimFault>
    requires job { BelongTogether run.old.whole }
    requires gate { run.old.apart ≡ true → G.passing gate.now }
    requires stretches { 0 < stretches }
    ensures written { WritesOneOf (IsBlockingReportOfJob run.old.whole) result
        (W.seen out.old) (W.seen out.new) }
    ensures refused { IfErr result (IsJobTextFault workers
        (IsFirstsFault run.old.whole stretches workers (G.passing gate.now) (G.stops gate.now))) }
    ensures workers { OnOk result ((0 < workers) × (workers ≤ 64)) }
    ensures kept { run.new.whole ≡ run.old.whole }
{
    let verdicts = run.run(rt, alloc, stretches, workers, gate)?;
    let detected = detected_flags(alloc, &verdicts)?;
    run.hold_tests(rt, alloc, workers)?;
    write_blocking(alloc, run.job(), &detected, out)
}

/// Writes the coverage of the faults of a job, and the pins that block effects of undetected
/// faults, as [`write_blocking_of_run`] does. `detected` has a flag for each fault of the list:
/// whether a test detects it.
fn write_blocking<W: Out>(
    alloc: Global,
    job: &Job,
    detected: &[bool],
    out: &mut W,
) -> Result<(), SimFault>
    requires { AreDetected job.now detected.now }
    ensures written { WritesOneOf (IsBlockingReport job.now detected.now) result
        (W.seen out.old) (W.seen out.new) }
    ensures refused { IfErr result IsListFault }
{
    let circuit = job.circuit();
    let signals = circuit.signals();
    prove!(signals > 0);
    let faults = job.faults().count();
    let pins = blocking_pins::blocking_pins(alloc, job, detected)?;
    put_blocking(circuit, count_flags(detected), faults, &pins, out)?;
    Ok(())
}

/// Writes the coverage line, and a line for each pin.
fn put_blocking<W: Out>(
    circuit: &Circuit,
    detected: u32,
    faults: u32,
    pins: &[BlockingPin],
    out: &mut W,
) -> Result<(), ReportFault>
    requires some { 0 < faults }
    requires each { All (HasNames circuit.now) pins.now }
    ensures { Writes result (W.seen out.old) (W.seen out.new) (coverage_line detected faults
        ++ flat_map (λ pin. pin_line (pin_cells circuit.now pin)) pins.now) }
{
    put_coverage(detected, faults, "", out)?;
    put_pins(circuit, pins, out)?;
    Ok(())
}

/// Writes a line for each pin.
fn put_pins<W: Out>(circuit: &Circuit, pins: &[BlockingPin], out: &mut W) -> Result<(), OutFailed>
    requires { All (HasNames circuit.now) pins.now }
    ensures { Writes result (W.seen out.old) (W.seen out.new)
        (flat_map (λ pin. pin_line (pin_cells circuit.now pin)) pins.now) }
{
    for pin in pins {
        put_pin(&named_pin(circuit, *pin), out)?;
    }
    Ok(())
}

/// Returns a pin with the names of its signals.
pub fn named_pin(circuit: &Circuit, pin: BlockingPin) -> NamedPin<'_>
    requires { HasNames circuit.now pin }
    ensures { cells_in result ≡ pin_cells circuit.now pin }
{
    NamedPin {
        gate: circuit.name_of(pin.gate),
        pin: u64::from(pin.pin) + 1,
        net: circuit.name_of(pin.read),
        value: number_of(pin.value),
        faults: pin.faults,
        tests: pin.tests,
    }
}

/// Returns a bit as a number.
fn number_of(bit: bool) -> u32
    ensures { result ≡ as_number bit }
{
    u32::from(bit)
}

/// Writes the line of a pin.
fn put_pin<W: Out>(pin: &NamedPin<'_>, out: &mut W) -> Result<(), OutFailed>
    ensures { Writes result (W.seen out.old) (W.seen out.new) (pin_line (cells_in pin.now)) }
{
    let mut number = Buffer::new();
    let mut value = Buffer::new();
    let mut faults = Buffer::new();
    let mut tests = Buffer::new();
    let pieces = [
        "pin ",
        pin.gate,
        " ",
        number.format(pin.pin),
        " ",
        pin.net,
        " ",
        value.format(pin.value),
        " ",
        faults.format(pin.faults),
        " ",
        tests.format(pin.tests),
        "\n",
    ];
    put_pieces(&pieces, out)
}
