//! Simulation of one fault class on one block of tests, and the workspace that it needs.

ghost use Rattle.std.specs.Prelude.{◌≡◌, ◌↔◌, ◌+◌, ◌<◌, ◌≤◌, IfOk, IsTrue, List, ℕ};
ghost use Rattle.std.specs.Prelude.{Some, length, slice_get};
ghost use Rattle.fault_model.specs.Collapse.{representatives};
ghost use Rattle.fault_model.specs.Fault.{Fault};
ghost use Rattle.patterns.specs.Tests.{blocks};
ghost use Rattle.block_sim.specs.First.{AreDetecting, AreDetectingLanes, IsTrueOutcome};
ghost use Rattle.block_sim.specs.Parts.{HasRoom};
ghost use Rattle.flat_circuit.specs.BlockSpans.{one_block};
ghost use Rattle.block_sim.specs.Propagation.{IsSettled};
ghost use Rattle.block_sim.specs.ActiveGates.{HasActive};

use crate::fault_site::propagate_fault;
use crate::job::Job;
use crate::launch_condition::launch_lanes;
use crate::propagation::{Extent, Followed};
use crate::propagation_state::PropagationState;
use flat_circuit::block_lanes::{block_word, least_lane};
use flat_circuit::block_span::BlockSpan;
use flat_circuit::block_view::BlockView;
use patterns::Outcome;
use std::alloc::{AllocError, Global};
use std::marker::Model;

/// Room for the changes of a fault on a block: words that differ, and gates that wait. It is used
/// again and again, for any job with at most as many signals.
#[derive(Drop)]
pub struct Workspace {
    pub(crate) changes: PropagationState,
}

impl Model for Workspace {
    ghost use Rattle.std.specs.Prelude.{length};
    ghost use Rattle.block_sim.specs.Parts.{Room};
    ghost use Rattle.block_sim.specs.PropagationState.{IsAtRest};

    ghost Value = { Room };

    ghost view = { λ w. record {
      signals = length w.changes.overlay;
      evaluations = w.changes.evaluations;
    } };

    ghost invariant = { λ w. IsAtRest w.changes };
}

impl Workspace {
    /// Makes a workspace that fits the job. It takes a word and a few numbers for each signal.
    pub fn new(alloc: Global, job: &Job) -> Result<Workspace, AllocError>
        ensures fits { IfOk result (λ workspace. HasRoom workspace job.now) }
        ensures fresh { IfOk result (λ workspace. workspace.evaluations ≡ 0) }
    {
        let changes = PropagationState::new(alloc, job.circuit().signals())?;
        Ok(Workspace { changes })
    }

    /// Returns whether the workspace is large enough for a job.
    pub fn fits(&self, job: &Job) -> bool
        ensures { IsTrue result ↔ HasRoom self.now job.now }
    {
        job.circuit().signals() as usize <= self.changes.overlay.words().len()
    }

    /// Returns how often a gate was evaluated on a word since the workspace was made. It stays at
    /// the greatest u64.
    pub fn gate_evaluations(&self) -> u64
        ensures { result ≡ self.now.evaluations }
    {
        self.changes.evaluations
    }
}

/// Returns the outcome of a class on a block: `Hit(k)` with the least `k` below the block's size
/// for which test `64 * block + k` detects the representative of the class, else `Clear`. It takes
/// no memory.
///
/// All tests of the block are simulated at once, from the fault's line on. Only the part of the
/// circuit whose words change is evaluated. (Parallel-pattern single-fault propagation:
/// Waicukauski, Eichelberger, Forlenza, Lindbloom and McCarthy, Fault Simulation for Structured
/// VLSI.) At most it evaluates, once each, the gates that the fault makes active: gates with a pin
/// that sees, under some test of the block, another bit with the fault than without it. If the
/// fault is excited under no test of the block, it evaluates none. A transition fault makes the
/// same gates active as its line stuck at the fault's bit.
///
/// Each test is followed to the end; [`first_hit`] has the same outcome and is faster if there are
/// hits.
pub fn simulate(job: &Job, workspace: &mut Workspace, class: u32, block: u32) -> Outcome
    requires class { class < length job.now.classes.representative }
    requires block { block < blocks (length job.now.tests.tests) }
    requires fits { HasRoom workspace.old job.now }
    ensures outcome { IsTrueOutcome job.now.list.model job.now.circuit
        job.now.tests.tests class block result }
    ensures room { workspace.new.signals ≡ workspace.old.signals }
    ensures grown { workspace.old.evaluations ≤ workspace.new.evaluations }
    ensures counted { (r : Fault) (gates : List ℕ)
        → slice_get (representatives job.now.list.model job.now.circuit) class ≡ Some r
        → HasActive job.now.circuit job.now.tests.tests block r gates
        → workspace.new.evaluations ≤ workspace.old.evaluations + length gates }
{
    let lanes = detecting_lanes(job, workspace, class, block, Extent::WholeBlock);
    least_lane(block_word(lanes, block))
}

/// Returns the outcome of a class on a block, as [`simulate`] does and within the same bound. It
/// only follows the tests below the least that is known to detect the fault, so it ends early. Use
/// it for lists of tests; the counts of [`simulate`] don't depend on which tests detect a fault.
pub fn first_hit(job: &Job, workspace: &mut Workspace, class: u32, block: u32) -> Outcome
    requires class { class < length job.now.classes.representative }
    requires block { block < blocks (length job.now.tests.tests) }
    requires fits { HasRoom workspace.old job.now }
    ensures outcome { IsTrueOutcome job.now.list.model job.now.circuit
        job.now.tests.tests class block result }
    ensures room { workspace.new.signals ≡ workspace.old.signals }
    ensures grown { workspace.old.evaluations ≤ workspace.new.evaluations }
    ensures counted { (r : Fault) (gates : List ℕ)
        → slice_get (representatives job.now.list.model job.now.circuit) class ≡ Some r
        → HasActive job.now.circuit job.now.tests.tests block r gates
        → workspace.new.evaluations ≤ workspace.old.evaluations + length gates }
{
    let all = [Followed {
        class,
        place: class as usize,
        lanes: !0,
    }];
    let lanes = detecting_lanes(job, workspace, class, block, Extent::FirstHits(&all));
    least_lane(block_word(lanes, block))
}

/// Returns the tests of a block that detect a class. Bit k, from the least, is 1 exactly if test
/// `64 * block + k` detects the representative of the class. It is 0 past the last test. The call
/// takes no memory.
///
/// Each test is followed to the end, within the same bound as [`simulate`]. A transition fault is
/// detected with the test before, so a bit stands for a pair of tests: for lane 0 with the last
/// test of the block before. The first test of all detects none.
pub fn detecting(job: &Job, workspace: &mut Workspace, class: u32, block: u32) -> u64
    requires class { class < length job.now.classes.representative }
    requires block { block < blocks (length job.now.tests.tests) }
    requires fits { HasRoom workspace.old job.now }
    ensures lanes { AreDetecting job.now.list.model job.now.circuit
        job.now.tests.tests class block result }
    ensures room { workspace.new.signals ≡ workspace.old.signals }
    ensures grown { workspace.old.evaluations ≤ workspace.new.evaluations }
    ensures counted { (r : Fault) (gates : List ℕ)
        → slice_get (representatives job.now.list.model job.now.circuit) class ≡ Some r
        → HasActive job.now.circuit job.now.tests.tests block r gates
        → workspace.new.evaluations ≤ workspace.old.evaluations + length gates }
{
    let word = detecting_lanes(job, workspace, class, block, Extent::WholeBlock);
    block_word(word, block)
}

/// Returns the lanes, in the word of its group, of a block whose tests detect a class, as far as
/// they are followed.
fn detecting_lanes(
    job: &Job,
    workspace: &mut Workspace,
    class: u32,
    block: u32,
    extent: Extent<'_>,
) -> u128
    requires class { class < length job.now.classes.representative }
    requires block { block < blocks (length job.now.tests.tests) }
    requires fits { HasRoom workspace.old job.now }
    ensures detection { (r : Fault)
        × (slice_get (representatives job.now.list.model job.now.circuit) class ≡ Some r)
        × AreDetectingLanes job.now.circuit job.now.tests.tests (one_block block) r
        (IsSettled extent.entry result) result }
    ensures room { workspace.new.signals ≡ workspace.old.signals }
    ensures grown { workspace.old.evaluations ≤ workspace.new.evaluations }
    ensures counted { (r : Fault) (gates : List ℕ)
        → slice_get (representatives job.now.list.model job.now.circuit) class ≡ Some r
        → HasActive job.now.circuit job.now.tests.tests block r gates
        → workspace.new.evaluations ≤ workspace.old.evaluations + length gates }
{
    let stuck = job.representative(class);
    let group = block / 2;
    let span = BlockSpan {
        first: block,
        last: block,
    };
    let lanes = span.test_lanes(job.tests()) & launch_lanes(job, group, stuck);
    let words = job.words();
    let circuit = words.circuit;
    let view = BlockView {
        circuit,
        good: words.of(group),
        lanes,
    };
    propagate_fault(view, stuck.moved(circuit), extent, &mut workspace.changes)
}
