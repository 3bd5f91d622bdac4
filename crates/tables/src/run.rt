//! The tables of a run.

ghost use Rattle.std.specs.Prelude.{◌≡◌, ◌<◌, ◌≤◌, IfErr, OnOk, true};
ghost use Rattle.block_sim.specs.Parts.{BelongTogether};
ghost use Rattle.report.specs.EndToEnd.{WritesOneOf};
ghost use Rattle.tables.specs.Views.{Counts, IsKept, IsTableOfJob, IsViewFault};

use crate::further::FurtherColumns;
use crate::run_faults::write_faults_of_run;
use crate::run_lists::{
    write_blocks_of_run, write_counts_of_run, write_pins_of_run, write_points_of_run,
};
use block_coverage::Separator;
use job_loading::{RunJob, Watch};
use report::{Lines, Out, SimFault};
use std::alloc::Global;
use std::sync::Wait;
use std::thread::Threads;
use table_rows::Format;

/// A table of a run.
#[derive(Clone, Copy)]
pub enum View {
    /// A row for each fault, with the first test that detects it. With [`Lines::Undetected`] only
    /// the undetected faults have a row, and else all have one. The further columns that are
    /// requested are the last columns, or the last members of each object. The counts take a second
    /// run, whose pieces the gate lets pass.
    Faults {
        lines: Lines,
        further: FurtherColumns,
    },
    /// A row for each block: how many of its faults are detected, how many it has, and the
    /// percentage, rounded down. [`block_coverage::block_rows`] defines the blocks and their order.
    /// All faults of the circuit have the first record of comma-separated values, with the name
    /// `(circuit)`, which no block has, and the summary of JSON.
    Blocks(Separator),
    /// A row for each pin that blocks effects of undetected faults: the name of the gate, the
    /// number of the pin from 1, the name of the signal that it reads, and the controlling value of
    /// the gate. Then it has the number of undetected faults that the pin blocks, and the number of
    /// tests under which it blocks one. [`blocking_pins::blocking_pins`] defines the pins and their
    /// order. The run then has its tests as its own, with their fault-free words
    /// ([`RunJob::hold_tests`]).
    Blocking,
    /// A row for each test that is the first to detect some fault, in order: the test's number from
    /// 0 and the number of faults that it is the first to detect. Then it has the number of faults
    /// that it and the tests before it detect, also in percent.
    Curve,
    /// A row for each count from 0 to `most`, with the number of faults that this many tests
    /// detect. The last row counts the faults that at least `most` tests detect.
    Histogram {
        most: u32,
    },
}

/// Runs a job in a number of stretches by workers in threads of their own, and writes a table, as
/// `report::write_report_of_run` writes its report.
///
/// # Examples
///
/// `z = AND(a, b)` with the tests `00`, `01` and `11`, the lines of undetected faults and the
/// reasons gives, as comma-separated values,
///
/// ```text
/// kind,name,pin,defect,first,net,reason
/// stem,b,,sa1,,b,not observed
/// ```
pub fn write_view_of_run<R: Threads + Wait, G: Watch + Sync, W: Out>(
    rt: &R,
    alloc: Global,
    run: &mut RunJob,
    stretches: u32,
    workers: u32,
    view: View,
    format: Format,
    gate: &G,
    out: &mut W,
) -> Result<(), SimFault>
    requires job { BelongTogether run.old.whole }
    requires gate { run.old.apart ≡ true → G.passing gate.now }
    requires counted { Counts view → G.passing gate.now }
    requires stretches { 0 < stretches }
    ensures written { WritesOneOf (IsTableOfJob run.old.whole view format) result
        (W.seen out.old) (W.seen out.new) }
    ensures refused { IfErr result (IsViewFault view run.old.whole stretches workers
        (G.passing gate.now) (G.stops gate.now)) }
    ensures workers { OnOk result ((0 < workers) × (workers ≤ 64)) }
    ensures kept { IsKept view run.old run.new }
{
    match view {
        View::Faults { lines, further } => write_faults_of_run(
            rt, alloc, run, stretches, workers, lines, further, format, gate, out,
        ),
        View::Blocks(separator) => write_blocks_of_run(
            rt, alloc, run, stretches, workers, separator, format, gate, out,
        ),
        View::Blocking => {
            write_pins_of_run(rt, alloc, run, stretches, workers, format, gate, out)
        }
        View::Curve => write_points_of_run(rt, alloc, run, stretches, workers, format, gate, out),
        View::Histogram { most } => {
            write_counts_of_run(rt, alloc, run, stretches, workers, most, format, gate, out)
        }
    }
}
