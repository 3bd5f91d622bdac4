//! The blocks that are simulated at once: one, the two of a group, or the eight of a unit.

ghost use Rattle.std.specs.Prelude.{◌≡◌, ◌↔◌, ◌+◌, ◌*◌, ◌<◌, ℕ, IsTrue, length};
ghost use Rattle.std.specs.Bool.{Decides};
ghost use Rattle.patterns.specs.Tests.{blocks};
ghost use Rattle.flat_circuit.specs.BlockSpans.{HasBlock, IsInSpan, IsPaired, IsSpan, IsTogether};
ghost use Rattle.flat_circuit.specs.BlockSpans.{IsUnit, begins_unit, group_of, span_of, unit_of};
ghost use Rattle.flat_circuit.specs.Words.{lane};

use crate::block_lanes::lanes_below;
use patterns::Tests;

/// Returns whether a unit of 512 tests begins with a block: the block is the first of eight blocks,
/// all of which are full.
pub fn is_unit(tests: &Tests, block: u32) -> bool
    requires { block < blocks (length tests.now.tests) }
    ensures begins { result ≡ begins_unit (length tests.now.tests) block }
    ensures is { IsTrue result ↔ IsUnit (length tests.now.tests) block }
{
    let count = tests.count();
    block % 8 == 0 && 511 < count - 64 * block
}

/// The first and the last of the blocks that are simulated at once, both included, counted from 0.
#[derive(Clone, Copy)]
pub struct BlockSpan {
    pub first: u32,
    pub last: u32,
}

impl BlockSpan {
    /// Returns the eight blocks of a unit of 512 tests that begins with a block, if all of these
    /// tests are there and 512 tests come before them. Otherwise it returns the block with the
    /// other one of its group, as [`BlockSpan::from`] does. Most classes are detected in the first
    /// unit.
    pub fn unit_from(tests: &Tests, block: u32) -> BlockSpan
        requires { block < blocks (length tests.now.tests) }
        ensures span_is { result ≡ unit_of (length tests.now.tests) block }
        ensures together { (other : ℕ) → HasBlock result other
            ↔ IsTogether (length tests.now.tests) block other }
    {
        if block >= 8 && is_unit(tests, block) {
            return BlockSpan {
                first: block,
                last: block + 7,
            };
        }
        BlockSpan::from(tests, block)
    }

    /// Returns a block with the other one of its group, if that comes after it. Most classes are
    /// detected in the first group, so its blocks are simulated one by one.
    pub fn from(tests: &Tests, block: u32) -> BlockSpan
        requires { block < blocks (length tests.now.tests) }
        ensures span { IsSpan (length tests.now.tests) result }
        ensures span_is { result ≡ span_of (length tests.now.tests) block }
        ensures together { (other : ℕ) → HasBlock result other
            ↔ IsPaired (length tests.now.tests) block other }
        ensures first { result.first ≡ block }
        ensures alone { block < 2 → result.last ≡ block }
    {
        if block >= 2 && block % 2 == 0 && block + 1 < tests.blocks() {
            BlockSpan {
                first: block,
                last: block + 1,
            }
        } else {
            BlockSpan {
                first: block,
                last: block,
            }
        }
    }

    /// Returns the lanes of its tests.
    pub fn test_lanes(self, tests: &Tests) -> u128
        requires { IsSpan (length tests.now.tests) self }
        ensures { (k : ℕ) → k < 128 → Decides (lane result k)
            (IsInSpan (length tests.now.tests) self (128 * group_of self + k)) }
    {
        let end = self.last % 2 * 64 + tests.size_of(self.last);
        lanes_below(end) & !lanes_below(self.first % 2 * 64)
    }
}
