//! The tests of a block in which an observer sees a complemented signal.

ghost use Rattle.std.specs.Prelude.{◌≡◌, ◌<◌, length};
ghost use Rattle.bench_net.specs.Scan.{names};
ghost use Rattle.patterns.specs.Tests.{blocks};
ghost use Rattle.block_sim.specs.Flips.{AreObserving};
ghost use Rattle.block_sim.specs.Parts.{HasRoom};

use crate::job::Job;
use crate::propagation::flip_in_lanes;
use crate::workspace::Workspace;
use flat_circuit::block_lanes::block_word;
use flat_circuit::block_span::BlockSpan;
use flat_circuit::block_view::BlockView;

/// Returns the tests of a block in which a complemented signal is seen at an observer. Bit k, from
/// the least, is 1 exactly if test `64 * block + k` detects the signal stuck at the complement of
/// its fault-free bit. It is 0 past the last test. The call takes no memory.
///
/// The word is the same for every fault model: no test looks back at the test before it. As for
/// [`detecting`](crate::detecting), only the part of the circuit whose words change is evaluated.
pub fn observing(job: &Job, workspace: &mut Workspace, signal: u32, block: u32) -> u64
    requires signal { signal < length (names job.now.circuit) }
    requires block { block < blocks (length job.now.tests.tests) }
    requires fits { HasRoom workspace.old job.now }
    ensures lanes { AreObserving job.now.circuit job.now.tests.tests signal block result }
    ensures room { workspace.new.signals ≡ workspace.old.signals }
{
    let span = BlockSpan {
        first: block,
        last: block,
    };
    let tests = job.tests();
    let lanes = span.test_lanes(tests);
    let words = job.words();
    let circuit = words.circuit;
    let good = words.of(block / 2);
    let view = BlockView {
        circuit,
        good,
        lanes,
    };
    let place = circuit.place_of(signal);
    let seen = flip_in_lanes(view, place, lanes, &mut workspace.changes);
    block_word(lanes & seen, block)
}
