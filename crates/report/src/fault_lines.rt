//! The lines of the faults of a list with their first tests, which are written in stretches of the
//! list.

ghost use Rattle.std.specs.Prelude.{◌≡◌, length};
ghost use Rattle.fault_model.specs.Fault.{faults};

use crate::contents::Lines;
use crate::report::put_lines;
use bench_net::Circuit;
use byte_output::{Out, OutFailed};
use fault_model::Faults;
use threaded_lines::FaultLines;
use workers::Verdicts;

/// The lines of the requested faults, each with its first detecting test.
#[derive(Drop)]
pub(crate) struct FirstLines<'a> {
    pub(crate) circuit: &'a Circuit,
    pub(crate) list: &'a Faults,
    pub(crate) verdicts: &'a Verdicts,
    pub(crate) lines: Lines,
    ghost listed: { list.now.list ≡ faults list.now.model circuit.now },
    ghost counted: { length verdicts.now.firsts ≡ length list.now.list },
}

impl FaultLines for FirstLines<'_> {
    ghost use Rattle.std.specs.Prelude.{map, zip};
    ghost use Rattle.report.specs.Report.{wanted_line};

    ghost texts = { λ own. map (wanted_line own.lines own.circuit.now)
        (zip own.list.now.list own.verdicts.now.firsts) };

    fn count(&self) -> u32 {
        self.list.count()
    }

    fn put<W: Out>(&self, start: u32, end: u32, out: &mut W) -> Result<(), OutFailed> {
        put_lines(
            self.circuit,
            self.list,
            self.verdicts,
            self.lines,
            start,
            end,
            out,
        )
    }
}
