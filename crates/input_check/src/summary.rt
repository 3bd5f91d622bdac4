//! The sizes of a circuit and its tests, and of a run.

ghost use Rattle.std.specs.Prelude.{◌≡◌, ◌<◌, ◌≤◌, ◌*◌, IfNone, IfOk, IfSome, Some};
ghost use Rattle.patterns.specs.Tests.{max_pieces};
ghost use Rattle.input_check.specs.Counts.{AreCountsOf, AreTestCountsOf, tests_a_run};

use crate::gates::{GateCounts, count_gates};
use bench_net::Circuit;
use fault_model::{Model, collapse, list_faults_in};
use job_loading::{LONG_TESTS, piece_bytes};
use patterns::{BLOCK_SIZE, MAX_PIECES, MAX_TESTS, Tests};
use region_runs::{stretches_for, window_blocks};
use std::alloc::{AllocError, Global};
use std::fmt::{self, Display, Formatter};
use test_threads::LARGE_PIECE;

/// The number of workers of `run` by default.
pub(crate) const USUAL_WORKERS: u32 = 4;

/// The sizes of a circuit.
#[derive(Clone, Copy)]
pub struct Counts {
    pub model: Model,
    pub inputs: usize,
    pub outputs: usize,
    /// Flip-flops.
    pub cells: usize,
    /// Gates of each kind: AND, NAND, OR, NOR, XOR, XNOR, NOT, BUFF.
    pub gates: [u32; 8],
    /// The arguments of all gates.
    pub pins: u64,
    /// Gate pins, data pins of flip-flops and OUTPUT lines.
    pub sinks: u64,
    pub signals: u32,
    /// The greatest level of a gate.
    pub depth: u32,
    /// Faults of the model, in the uncollapsed list.
    pub faults: u32,
    /// Classes of these faults.
    pub classes: u32,
}

/// Counts the parts of a circuit.
pub fn count_circuit(alloc: Global, model: Model, circuit: &Circuit) -> Result<Counts, AllocError>
    ensures { IfOk result (AreCountsOf model circuit.now) }
{
    let list = list_faults_in(alloc, circuit, model)?;
    let classes = collapse(alloc, circuit, &list)?;
    let GateCounts { gates, pins, sinks } = count_gates(circuit);
    Ok(Counts {
        model,
        inputs: circuit.inputs().len(),
        outputs: circuit.outputs().len(),
        cells: circuit.scan_cells().len(),
        gates,
        pins,
        sinks,
        signals: circuit.signals(),
        depth: circuit.depth(),
        faults: list.count(),
        classes: classes.count(),
    })
}

impl Counts {
    /// Returns the most tests of a run without `--parts`: 64 times 16,777,216 div classes, and
    /// 65,536 at most.
    pub(crate) fn tests_a_run(&self) -> u32
        ensures { result ≡ tests_a_run self.now.classes }
    {
        let blocks = MAX_PIECES / self.classes.max(1);
        blocks.saturating_mul(BLOCK_SIZE).min(MAX_TESTS)
    }

    /// Returns the bytes of a test file with this number of tests.
    fn text(&self, tests: u32) -> u64 {
        let sources = self.inputs.saturating_add(self.cells) as u64;
        sources.saturating_add(1).saturating_mul(u64::from(tests))
    }

    /// Estimates the bytes of a run of this number of tests, by the figures of the guide. The run
    /// has these bytes of the test file, and the fault-free words of this number of groups of two
    /// blocks at a time.
    fn memory(&self, tests: u32, text: u64, groups: u32, workers: u32) -> u64 {
        let signals = u64::from(self.signals);
        let classes = u64::from(self.classes);
        let sources = self.inputs.saturating_add(self.cells) as u64;
        let blocks = u64::from(tests.div_ceil(BLOCK_SIZE));
        let words = signals
            .saturating_mul(16)
            .saturating_mul(u64::from(groups))
            .saturating_add(sources.saturating_mul(8).saturating_mul(blocks));
        let lists = self
            .all_gates()
            .saturating_mul(290)
            .saturating_add(signals.saturating_mul(70))
            .saturating_add(self.pins.saturating_mul(12))
            .saturating_add(u64::from(self.faults).saturating_mul(4))
            .saturating_add(classes.saturating_mul(12 + 40));
        // Each worker runs one stretch at a time.
        let stretch = u64::from(self.classes.div_ceil(stretches_for(self.classes, workers)));
        let each = signals
            .saturating_mul(61)
            .saturating_add(stretch.saturating_mul(80));
        text.saturating_add(words)
            .saturating_add(lists)
            .saturating_add(each.saturating_mul(u64::from(workers)))
    }

    /// Estimates the bytes of a test file that a run with this number of tests has at a time, if it
    /// reads a long file piece by piece.
    fn text_at_a_time(&self, tests: u32, workers: u32) -> u64 {
        let whole = self.text(tests);
        let rows = self.text(BLOCK_SIZE);
        let large = LARGE_PIECE as u64;
        if whole < LONG_TESTS || rows > large {
            return whole;
        }
        let usual = piece_bytes(whole);
        let piece = if rows <= usual { usual } else { large };
        piece.saturating_mul(u64::from(workers))
    }

    /// Estimates the bytes of a run that goes window by window, and reads a long test file piece by
    /// piece.
    fn memory_in_windows(&self, tests: u32, workers: u32) -> u64 {
        // The blocks by which a window goes on, and the block before.
        let window = window_blocks(self.signals) / 2 + 1;
        let text = self.text_at_a_time(tests, workers);
        self.memory(tests, text, window.min(groups_of(tests)), workers)
    }
}

/// Returns the number of groups of two blocks that this number of tests has.
fn groups_of(tests: u32) -> u32 {
    tests.div_ceil(2 * BLOCK_SIZE)
}

/// The size of a run of tests.
#[derive(Clone, Copy)]
pub struct TestCounts {
    pub tests: u32,
    /// Blocks of 64 tests.
    pub blocks: u32,
    /// Classes times blocks.
    pub pieces: u64,
    /// An estimate of the bytes of a run with four workers, which has the fault-free words of some
    /// tests at a time.
    pub bytes: u64,
}

/// Computes the size of a run of tests on a circuit with these counts.
pub fn count_tests(counts: &Counts, tests: &Tests) -> TestCounts
    ensures { AreTestCountsOf counts.now.classes tests.now result }
{
    let blocks = tests.blocks();
    TestCounts {
        tests: tests.count(),
        blocks,
        pieces: u64::from(counts.classes).saturating_mul(u64::from(blocks)),
        bytes: counts.memory_in_windows(tests.count(), USUAL_WORKERS),
    }
}

/// Tests that are too many for one run.
#[derive(Clone, Copy)]
pub struct Excess {
    /// Classes of the faults.
    pub classes: u32,
    /// Blocks of 64 tests.
    pub blocks: u32,
    /// Classes times blocks.
    pub pieces: u64,
}

/// Returns the excess of tests that are too many for one run.
pub(crate) fn excess_of(counts: &Counts, taken: &TestCounts) -> Option<Excess>
    requires pieces { taken.now.pieces ≡ counts.now.classes * taken.now.blocks }
    ensures none { IfNone result (taken.now.pieces ≤ max_pieces) }
    ensures past { IfSome result (λ excess. max_pieces < taken.now.pieces) }
    ensures classes { IfSome result (λ excess. excess.classes ≡ counts.now.classes) }
    ensures blocks { IfSome result (λ excess. excess.blocks ≡ taken.now.blocks) }
    ensures pieces { IfSome result (λ excess. excess.pieces ≡ taken.now.pieces) }
{
    if taken.pieces <= u64::from(MAX_PIECES) {
        return None;
    }
    Some(Excess {
        classes: counts.classes,
        blocks: taken.blocks,
        pieces: taken.pieces,
    })
}

impl Display for Excess {
    ghost use Rattle.std.specs.Prelude.{Some};
    ghost use Rattle.input_check.specs.Objects.{excess_words};

    ghost output = { λ excess. Some (excess_words excess) };

    fn fmt<W: fmt::Write>(&self, f: &mut Formatter<W>) -> fmt::Result {
        let Excess {
            classes,
            blocks,
            pieces,
        } = *self;
        write!(
            f,
            "found {pieces} pieces: {classes} classes on {blocks} blocks of 64 tests; "
        )?;
        write!(f, "try --parts auto")
    }
}
