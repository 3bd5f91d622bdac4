//! The text calls: if they fail, nothing is written.

ghost use Rattle.std.specs.Prelude.{◌≤◌};

use crate::memory::parts::{ORDER, is_want};
use crate::memory::sweep::{Outcome, Trial, answered, refused};
use crate::memory::written::{LISTING, REPORT};
use analysis_reports::{
    KeptForm, KeptLayout, TestOrder, responses_text, write_detections_of_run, write_kept_of_run,
};
use fault_model::Model;
use job_loading::read_run;
use report::{
    Contents, Limit, Lines, OpenGate, Out, OutFailed, RunFault, SimFault, faults_text,
    schedule_text, simulate_text, write_curve_of_run, write_report_of_run,
};
use std::alloc::Global;
use std::sync::Wait;
use std::thread::Threads;
use worked_circuits::C17;

/// An output of 2,048 bytes that takes no memory.
#[derive(Drop)]
pub(crate) struct Screen {
    bytes: [u8; 2048],
    len: usize,
    fails: u64,
    ghost in_room: { len ≤ 2048 },
}

impl Screen {
    pub(crate) fn new() -> Screen {
        Screen {
            bytes: [0; 2048],
            len: 0,
            fails: 0,
        }
    }

    pub(crate) fn text(&self) -> &[u8] {
        &self.bytes[..self.len]
    }
}

impl Out for Screen {
    ghost use Rattle.std.specs.Prelude.{None};

    ghost seen = { λ s. record { bytes = None; fails = s.fails } };

    fn put(&mut self, piece: &[u8]) -> Result<usize, OutFailed> {
        let taken = piece.len().min(2048 - self.len);
        if taken == 0 && !piece.is_empty() {
            self.fails = self.fails.saturating_add(1);
            return Err(OutFailed);
        }
        let end = self.len + taken;
        self.bytes[self.len..end].copy_from_slice(&piece[..taken]);
        self.len = end;
        Ok(taken)
    }
}

/// A text call.
#[derive(Clone, Copy)]
pub(crate) enum TextCall {
    Simulate,
    InParts,
    Schedule,
    Faults,
    Curve,
    Detections,
    Compact,
    Responses,
}

/// All text calls.
pub(crate) const CALLS: [TextCall; 8] = [
    TextCall::Simulate,
    TextCall::InParts,
    TextCall::Schedule,
    TextCall::Faults,
    TextCall::Curve,
    TextCall::Detections,
    TextCall::Compact,
    TextCall::Responses,
];

/// The curve of C17 under the tests of [`tests_of_c17`]: 64 tests of ones, and then one of zeros.
/// Ones detect 14 of the 34 faults, and zeros 5 more.
const CURVE: &[u8] = b"0 14 41.17\n64 19 55.88\n19 of 34 (55.88%)\n";

/// The number of faults that two of these tests detect.
const TWICE_DETECTED: &[u8] = b"14 of 34 (41.17%)\n";

/// The tests that are kept.
const COMPACTED: &[u8] = b"# columns: G1 G2 G3 G6 G7\n11111\n00000\n";

/// The responses of C17 to these tests.
const RESPONSES: &[u8] = b"\
    10\n10\n10\n10\n10\n10\n10\n10\n10\n10\n10\n10\n10\n10\n10\n10\n\
    10\n10\n10\n10\n10\n10\n10\n10\n10\n10\n10\n10\n10\n10\n10\n10\n\
    10\n10\n10\n10\n10\n10\n10\n10\n10\n10\n10\n10\n10\n10\n10\n10\n\
    10\n10\n10\n10\n10\n10\n10\n10\n10\n10\n10\n10\n10\n10\n10\n10\n\
    00\n";

/// Returns the text that a call on C17 writes.
fn text_of(call: TextCall) -> &'static [u8] {
    match call {
        TextCall::Simulate | TextCall::InParts | TextCall::Schedule => REPORT,
        TextCall::Faults => LISTING,
        TextCall::Curve => CURVE,
        TextCall::Detections => TWICE_DETECTED,
        TextCall::Compact => COMPACTED,
        TextCall::Responses => RESPONSES,
    }
}

/// A text call on C17 under these tests.
#[derive(Drop)]
pub(crate) struct Written<'a, R> {
    pub(crate) rt: &'a R,
    pub(crate) call: TextCall,
    pub(crate) tests: &'a [u8],
}

/// The layout of the rows of a compaction, in the order of the list.
const ROWS: KeptLayout = KeptLayout {
    order: TestOrder::AsListed,
    form: KeptForm::Rows,
};

impl<R: Threads + Wait> Written<'_, R> {
    /// Writes an output of a run of C17 under these tests.
    fn write_of_run(&self, alloc: Global, screen: &mut Screen) -> Result<(), SimFault> {
        let (rt, tests, gate) = (self.rt, self.tests, &OpenGate);
        let (model, limit) = (Model::StuckAt, Limit::Pieces);
        let mut run = read_run(rt, alloc, model, C17, tests, limit, true, 2)?;
        let count = run.stretches(None, 2);
        match self.call {
            TextCall::InParts => {
                let all = Contents::of(Lines::All);
                write_report_of_run(rt, alloc, &mut run, 3, 2, all, gate, screen)
            }
            TextCall::Curve => write_curve_of_run(rt, alloc, &mut run, count, 2, gate, screen),
            TextCall::Compact => {
                match write_kept_of_run(rt, alloc, &mut run, count, 2, ROWS, gate, screen) {
                    Ok(_count) => Ok(()),
                    Err(fault) => Err(fault),
                }
            }
            _ => { write_detections_of_run(rt, alloc, &mut run, count, 2, 2, false, gate, screen) }
        }
    }

    fn write(&self, alloc: Global, screen: &mut Screen) -> Result<(), SimFault> {
        let (rt, tests) = (self.rt, self.tests);
        match self.call {
            TextCall::Simulate => simulate_text(rt, alloc, C17, tests, 2, true, screen),
            TextCall::Schedule => schedule_text(alloc, C17, tests, ORDER, 2, true, screen),
            TextCall::Faults => faults_text(alloc, C17, screen),
            TextCall::InParts | TextCall::Curve | TextCall::Detections | TextCall::Compact => {
                self.write_of_run(alloc, screen)
            }
            TextCall::Responses => responses_text(alloc, C17, tests, screen),
        }
    }

    /// Returns whether the call may fail so: for memory, and for a thread if it starts one.
    fn is_want(&self, fault: SimFault) -> bool {
        match self.call {
            TextCall::Schedule | TextCall::Faults | TextCall::Responses => is_want(fault),
            TextCall::Simulate
            | TextCall::InParts
            | TextCall::Curve
            | TextCall::Detections
            | TextCall::Compact => is_want(fault) || fault == SimFault::Run(RunFault::Threads),
        }
    }
}

impl<R: Threads + Wait> Trial for Written<'_, R> {
    fn name(&self) -> &str {
        match self.call {
            TextCall::Simulate => "simulate_text",
            TextCall::InParts => "write_report_of_run",
            TextCall::Schedule => "schedule_text",
            TextCall::Faults => "faults_text",
            TextCall::Curve => "write_curve_of_run",
            TextCall::Detections => "write_detections_of_run",
            TextCall::Compact => "write_kept_of_run",
            TextCall::Responses => "responses_text",
        }
    }

    fn attempt(&self, alloc: Global) -> Outcome {
        let mut screen = Screen::new();
        match self.write(alloc, &mut screen) {
            Ok(()) => answered(screen.text() == text_of(self.call)),
            Err(fault) => refused(screen.text().is_empty() && self.is_want(fault)),
        }
    }
}
