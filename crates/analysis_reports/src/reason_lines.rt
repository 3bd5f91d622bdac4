//! The lines of the undetected faults with their reasons, which are written in stretches of the
//! list.

ghost use Rattle.std.specs.Prelude.{◌≡◌, length};
ghost use Rattle.fault_model.specs.Fault.{faults};

use crate::reasoned::put_reason_lines;
use bench_net::Circuit;
use byte_output::{Out, OutFailed};
use fault_model::Faults;
use threaded_lines::FaultLines;
use undetected::Reason;

/// The lines of the faults that have a reason.
#[derive(Drop)]
pub(crate) struct ReasonLines<'a> {
    pub(crate) circuit: &'a Circuit,
    pub(crate) list: &'a Faults,
    pub(crate) reasons: &'a [Option<Reason>],
    ghost listed: { list.now.list ≡ faults list.now.model circuit.now },
    ghost counted: { length reasons.now ≡ length list.now.list },
}

impl FaultLines for ReasonLines<'_> {
    ghost use Rattle.std.specs.Prelude.{map, zip};
    ghost use Rattle.analysis_reports.specs.Reasons.{reason_line};

    ghost texts = { λ own. map (reason_line own.circuit.now)
        (zip own.list.now.list own.reasons.now) };

    fn count(&self) -> u32 {
        self.list.count()
    }

    fn put<W: Out>(&self, start: u32, end: u32, out: &mut W) -> Result<(), OutFailed> {
        put_reason_lines(self.circuit, self.list, self.reasons, start, end, out)
    }
}
