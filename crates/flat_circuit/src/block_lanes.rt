//! Lanes of a word: the lanes below a number, a block's word from a group's and the other way, and
//! the least lane that is 1.

ghost use Rattle.std.specs.Prelude.{◌≡◌, ℕ, ◌+◌, ◌*◌, ◌/◌, ◌<◌, ◌≤◌, nat_lt};
ghost use Rattle.std.specs.Int.{bit_at};
ghost use Rattle.flat_circuit.specs.Words.{lane, IsLeastLane};

use patterns::Outcome;

/// Returns a word with this bit in each of its lanes.
#[inline(always)]
pub fn in_each_lane(bit: bool) -> u128
    ensures { (k : ℕ) → k < 128 → lane result k ≡ bit }
{
    if bit { !0 } else { 0 }
}

/// Returns a word whose lanes below this number are 1.
pub fn lanes_below(size: u32) -> u128
    requires { size ≤ 128 }
    ensures { (k : ℕ) → k < 128 → lane result k ≡ nat_lt k size }
{
    if size == 128 { !0 } else { (1 << size) - 1 }
}

/// Returns the word of a block, from the word of its group.
pub fn block_word(word: u128, block: u32) -> u64
    ensures { (k j : ℕ) → k < 64 → 64 * block + k ≡ 128 * (block / 2) + j
        → lane result k ≡ lane word j }
{
    if block % 2 == 0 {
        (word & u128::from(u64::MAX)) as u64
    } else {
        (word >> 64) as u64
    }
}

/// Returns the word of a group, from the words of its two blocks.
pub fn group_word(low: u64, high: u64) -> u128
    ensures low { (k : ℕ) → k < 64 → bit_at result k ≡ bit_at low k }
    ensures high { (k : ℕ) → k < 64 → bit_at result (64 + k) ≡ bit_at high k }
{
    u128::from(high) << 64 | u128::from(low)
}

/// Returns the least lane that is 1, as an outcome.
pub fn least_lane(word: u64) -> Outcome
    ensures { IsLeastLane word result }
{
    if word == 0 {
        Outcome::Clear
    } else {
        Outcome::Hit(word.trailing_zeros())
    }
}
