//! Words of 512 lanes that have the same bit in each lane.

ghost use Rattle.std.specs.Prelude.{◌≡◌, ◌<◌, ℕ};
ghost use Rattle.wide_words.specs.Wide.{number};
ghost use Rattle.flat_circuit.specs.Words.{lane};

use wide_words::Wide;

/// Returns a word with this bit in each of its lanes.
#[inline(always)]
pub fn in_each_wide_lane(bit: bool) -> Wide
    ensures { (k : ℕ) → k < 512 → lane (number result) k ≡ bit }
{
    Wide::splat(in_each_part(bit))
}

/// Returns a part of a word, with this bit in each of its lanes.
#[inline(always)]
fn in_each_part(bit: bool) -> u64
    ensures { (k : ℕ) → k < 64 → lane result k ≡ bit }
{
    if bit { !0 } else { 0 }
}
