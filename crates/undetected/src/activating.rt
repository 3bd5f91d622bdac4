//! Which tests of a block, or of a group of two blocks, activate the faults on a signal.

ghost use Rattle.std.specs.Prelude.{◌≡◌, ◌↔◌, ◌+◌, ◌*◌, ◌<◌, Bool, IsTrue, ℕ, [], length, suc};
ghost use Rattle.std.specs.Prelude.{slice_index_or, true};
ghost use Rattle.std.specs.Bool.{Decides};
ghost use Rattle.bench_net.specs.Scan.{names};
ghost use Rattle.fault_model.specs.declared.Line.TheVariants as line;
ghost use Rattle.fault_model.specs.Detection.{HasBit, IsInitialized, IsSecondOfPair, LooksBack};
ghost use Rattle.patterns.specs.Tests.{blocks};
ghost use Rattle.flat_circuit.specs.BlockSpans.{groups};
ghost use Rattle.flat_circuit.specs.Words.{lane};
ghost use Rattle.undetected.specs.Activated.{IsActivatedIn, IsActivatedInGroup, stem_fault};

use block_sim::Job;
use fault_model::Model;

/// Returns whether a test of a group of two blocks activates the fault of a bit on a signal's
/// stem. The words of both blocks lie side by side in memory.
#[inline(always)]
pub(crate) fn activates_in_group(job: &Job, group: u32, signal: u32, bit: bool) -> bool
    requires group { group < groups (length job.now.tests.tests) }
    requires signal { signal < length (names job.now.circuit) }
    ensures { IsTrue result ↔ IsActivatedInGroup job.now.circuit job.now.tests.tests
        (stem_fault job.now.list.model signal bit) group }
{
    let blocks = job.tests().blocks();
    let block = 2 * group;
    activates(job, block, signal, bit)
        || (block + 1 < blocks && activates(job, block + 1, signal, bit))
}

/// Returns whether a test of a block activates the fault of a bit on a signal's stem.
#[inline(always)]
fn activates(job: &Job, block: u32, signal: u32, bit: bool) -> bool
    requires block { block < blocks (length job.now.tests.tests) }
    requires signal { signal < length (names job.now.circuit) }
    ensures { IsTrue result ↔ IsActivatedIn job.now.circuit job.now.tests.tests
        (stem_fault job.now.list.model signal bit) block }
{
    let _circuit = job.circuit();
    let opposite = lanes_with(job.word(block, signal), !bit);
    if opposite == 0 {
        return false;
    }
    let lanes = opposite & launch_lanes(job, block, signal, bit);
    lanes.trailing_zeros() < job.tests().size_of(block)
}

/// Returns the lanes in which a word has a bit.
#[inline(always)]
fn lanes_with(word: u64, bit: bool) -> u64
    ensures { (k : ℕ) → k < 64 → (lane result k ≡ true) ↔ (lane word k ≡ bit) }
{
    if bit { word } else { !word }
}

/// Returns the lanes of a block whose test before lets the fault of a bit on a signal's stem be
/// detected: all lanes for a stuck-at fault. For a transition fault, those in which that test gives
/// the signal the bit, and in a list of pairs only those of the capture tests.
#[inline(always)]
fn launch_lanes(job: &Job, block: u32, signal: u32, bit: bool) -> u64
    requires block { block < blocks (length job.now.tests.tests) }
    requires signal { signal < length (names job.now.circuit) }
    ensures { (k : ℕ) → k < 64 → 64 * block + k < length job.now.tests.tests
        → Decides (lane result k) (LooksBack job.now.circuit job.now.tests.tests
        job.now.list.model (line.Stem signal) bit (64 * block + k)) }
{
    match job.faults().model() {
        Model::StuckAt => !0,
        Model::Transition => initialized_lanes(job, block, signal, bit),
        Model::TransitionPairs => capture_lanes() & initialized_lanes(job, block, signal, bit),
    }
}

/// Returns the lanes of capture tests. A block has an even number of lanes, so each pair lies in
/// one block, and its capture test has an odd lane.
#[inline(always)]
fn capture_lanes() -> u64
    ensures { (block k : ℕ) → k < 64 → Decides (lane result k) (IsSecondOfPair (64 * block + k)) }
{
    0xAAAA_AAAA_AAAA_AAAA
}

/// Returns the lanes of a block whose test before gives a signal a bit. No test comes before the
/// first one.
fn initialized_lanes(job: &Job, block: u32, signal: u32, bit: bool) -> u64
    requires block { block < blocks (length job.now.tests.tests) }
    requires signal { signal < length (names job.now.circuit) }
    ensures { (k : ℕ) → k < 64 → 64 * block + k < length job.now.tests.tests
        → Decides (lane result k) (IsInitialized job.now.circuit job.now.tests.tests
        (line.Stem signal) bit (64 * block + k)) }
{
    let fits = lanes_with(word_before(job, block, signal), bit);
    let earlier = if block == 0 { !1 } else { !0 };
    fits & earlier
}

/// Returns the fault-free word of a signal, one test earlier: lane `k` has its bit under test
/// `64 * block + k - 1`, if there is one.
fn word_before(job: &Job, block: u32, signal: u32) -> u64
    requires block { block < blocks (length job.now.tests.tests) }
    requires signal { signal < length (names job.now.circuit) }
    ensures { (k t : ℕ) (bit : Bool) → k < 64 → suc t ≡ 64 * block + k
        → (lane result k ≡ bit) ↔ HasBit job.now.circuit
        (slice_index_or job.now.tests.tests t []) (line.Stem signal) bit }
{
    let _circuit = job.circuit();
    let last = if block == 0 {
        0
    } else {
        job.word(block - 1, signal)
    };
    one_lane_up(job.word(block, signal), last)
}

/// Returns the lanes of a word one up, and in lane 0 the last lane of the word before it.
#[inline(always)]
fn one_lane_up(word: u64, last: u64) -> u64
    ensures first { lane result 0 ≡ lane last 63 }
    ensures later { (k : ℕ) → k < 63 → lane result (k + 1) ≡ lane word k }
{
    word << 1 | last >> 63
}
