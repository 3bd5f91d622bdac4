//! The words of groups side by side in a wide word.
//!
//! A group has the lanes of two blocks. A wide word has eight slots, each with the lanes of one
//! block of a group, or four, each with those of both. The slots have copies of one group, or the
//! lanes of four groups:
//!
//! ```text
//! slots of one block      | 0: 64 lanes | 1: the same 64 lanes | .. | 7: the same 64 lanes |
//! slots of a group        | 0: 128 lanes          | 1: the same 128 lanes          | 2 | 3 |
//! slots of four groups    | 0: the first one's    | 1: the second one's            | 2 | 3 |
//! ```

ghost use Rattle.std.specs.Prelude.{◌≡◌, ◌≢◌, ℕ, ◌+◌, ◌/◌, ◌%◌, ◌<◌, ◌≤◌, false};
ghost use Rattle.wide_words.specs.Lanes.{lane};
ghost use Rattle.wide_words.specs.Layouts.{one_of};
ghost use Rattle.wide_words.specs.Wide.{number};

use crate::wide::Wide;

/// The words of signals, slot by slot: how the lanes of groups stand in a wide word, and which
/// words they are.
pub trait Copies: Copy {
    ghost use Rattle.std.specs.Prelude.{◌≡◌, ◌≢◌, ◌⊎◌, List, ℕ, ◌+◌, ◌<◌, ◌≤◌, false, length};
    ghost use Rattle.std.specs.Prelude.{slice_index_or};
    ghost use Rattle.wide_words.specs.Lanes.{IsLayout, Layout, lane, lane_in, slot_of, slots};
    ghost use Rattle.wide_words.specs.Wide.{number};

    ghost layout: { Layout };

    ghost sized: { IsLayout layout };

    /// The words of the group that a slot has the lanes of, one for each signal.
    ghost rows: { Self → ℕ → List ℕ };

    /// Returns the word of a signal, in each slot that of the slot's group.
    fn of(self, signal: u32) -> Wide
        requires { (slot : ℕ) → slot < slots layout → signal < length (rows self slot) }
        ensures { (k : ℕ) → k < 512 → lane (number result) k
            ≡ lane (slice_index_or (rows self (slot_of layout k)) signal 0) (lane_in layout k) };

    /// Returns lanes of a group in one slot, counted from 0, and 0 in all others.
    fn put(self, slot: usize, lanes: u128) -> Wide
        requires { slot < slots layout }
        ensures own { (k : ℕ) → k < 512 → slot_of layout k ≡ slot
            → lane (number result) k ≡ lane lanes (lane_in layout k) }
        ensures others { (k : ℕ) → k < 512 → slot_of layout k ≢ slot
            → lane (number result) k ≡ false };

    /// Returns the lanes of a group that a wide word has in a slot.
    fn part(self, slot: usize, word: Wide) -> u128
        requires { slot < slots layout }
        ensures own { (k : ℕ) → k < 512 → slot_of layout k ≡ slot
            → lane result (lane_in layout k) ≡ lane (number word) k }
        ensures rest { (k : ℕ) → (k < layout.base) ⊎ (layout.base + layout.size ≤ k)
            → lane result k ≡ false };
}

/// The words of the first block of a group, in eight slots.
#[derive(Clone, Copy)]
pub struct Low<'a> {
    pub words: &'a [u128],
}

/// The words of the second block of a group, in eight slots.
#[derive(Clone, Copy)]
pub struct High<'a> {
    pub words: &'a [u128],
}

/// The words of both blocks of a group, in four slots.
#[derive(Clone, Copy)]
pub struct Both<'a> {
    pub words: &'a [u128],
}

/// The words of four groups, each in a slot of its own.
#[derive(Clone, Copy)]
pub struct Four<'a> {
    pub first: &'a [u128],
    pub second: &'a [u128],
    pub third: &'a [u128],
    pub fourth: &'a [u128],
}

impl Copies for Low<'_> {
    ghost use Rattle.wide_words.specs.Layouts.{low_layout, low_sized};

    ghost layout = { low_layout };

    ghost sized = { low_sized };

    ghost rows = { λ s _. s.words.now };

    #[inline(always)]
    fn of(self, signal: u32) -> Wide {
        Wide::splat(low_half(self.words[signal as usize]))
    }

    #[inline(always)]
    fn put(self, slot: usize, lanes: u128) -> Wide {
        let mut parts = [0u64; 8];
        parts[slot] = low_half(lanes);
        Wide::from_parts(parts)
    }

    #[inline(always)]
    fn part(self, slot: usize, word: Wide) -> u128 {
        joined(word.to_parts()[slot], 0)
    }
}

impl Copies for High<'_> {
    ghost use Rattle.wide_words.specs.Layouts.{high_layout, high_sized};

    ghost layout = { high_layout };

    ghost sized = { high_sized };

    ghost rows = { λ s _. s.words.now };

    #[inline(always)]
    fn of(self, signal: u32) -> Wide {
        Wide::splat(high_half(self.words[signal as usize]))
    }

    #[inline(always)]
    fn put(self, slot: usize, lanes: u128) -> Wide {
        let mut parts = [0u64; 8];
        parts[slot] = high_half(lanes);
        Wide::from_parts(parts)
    }

    #[inline(always)]
    fn part(self, slot: usize, word: Wide) -> u128 {
        joined(0, word.to_parts()[slot])
    }
}

impl Copies for Both<'_> {
    ghost use Rattle.wide_words.specs.Layouts.{both_layout, both_sized};

    ghost layout = { both_layout };

    ghost sized = { both_sized };

    ghost rows = { λ s _. s.words.now };

    #[inline(always)]
    fn of(self, signal: u32) -> Wide {
        let word = self.words[signal as usize];
        let low = low_half(word);
        let high = high_half(word);
        Wide::from_parts([low, high, low, high, low, high, low, high])
    }

    #[inline(always)]
    fn put(self, slot: usize, lanes: u128) -> Wide {
        put_group(slot, lanes)
    }

    #[inline(always)]
    fn part(self, slot: usize, word: Wide) -> u128 {
        part_of_group(slot, word)
    }
}

impl Copies for Four<'_> {
    ghost use Rattle.wide_words.specs.Layouts.{both_layout, both_sized, one_of};

    ghost layout = { both_layout };

    ghost sized = { both_sized };

    ghost rows = { λ s slot. one_of s.first.now s.second.now s.third.now s.fourth.now slot };

    #[inline(always)]
    fn of(self, signal: u32) -> Wide {
        let at = signal as usize;
        side_by_side(
            self.first[at],
            self.second[at],
            self.third[at],
            self.fourth[at],
        )
    }

    #[inline(always)]
    fn put(self, slot: usize, lanes: u128) -> Wide {
        put_group(slot, lanes)
    }

    #[inline(always)]
    fn part(self, slot: usize, word: Wide) -> u128 {
        part_of_group(slot, word)
    }
}

/// Returns the words of four groups side by side.
#[inline(always)]
pub fn side_by_side(first: u128, second: u128, third: u128, fourth: u128) -> Wide
    ensures { (k : ℕ) → k < 512 → lane (number result) k
        ≡ lane (one_of first second third fourth (k / 128)) (k % 128) }
{
    Wide::from_parts([
        low_half(first),
        high_half(first),
        low_half(second),
        high_half(second),
        low_half(third),
        high_half(third),
        low_half(fourth),
        high_half(fourth),
    ])
}

/// Returns lanes of a group in one of four slots, and 0 in all others.
#[inline(always)]
fn put_group(slot: usize, lanes: u128) -> Wide
    requires { slot < 4 }
    ensures own { (k : ℕ) → k < 512 → k / 128 ≡ slot
        → lane (number result) k ≡ lane lanes (0 + k % 128) }
    ensures others { (k : ℕ) → k < 512 → k / 128 ≢ slot → lane (number result) k ≡ false }
{
    let mut parts = [0u64; 8];
    parts[2 * slot] = low_half(lanes);
    parts[2 * slot + 1] = high_half(lanes);
    Wide::from_parts(parts)
}

/// Returns the lanes that a wide word has in one of four slots.
#[inline(always)]
fn part_of_group(slot: usize, word: Wide) -> u128
    requires { slot < 4 }
    ensures own { (k : ℕ) → k < 512 → k / 128 ≡ slot
        → lane result (0 + k % 128) ≡ lane (number word) k }
    ensures rest { (k : ℕ) → 128 ≤ k → lane result k ≡ false }
{
    let parts = word.to_parts();
    joined(parts[2 * slot], parts[2 * slot + 1])
}

/// Returns the lanes 0 to 63.
#[inline(always)]
fn low_half(word: u128) -> u64
    ensures { (k : ℕ) → k < 64 → lane result k ≡ lane word k }
{
    (word & u128::from(u64::MAX)) as u64
}

/// Returns the lanes 64 to 127.
#[inline(always)]
fn high_half(word: u128) -> u64
    ensures { (k : ℕ) → k < 64 → lane result k ≡ lane word (64 + k) }
{
    (word >> 64) as u64
}

/// Returns the lanes of two blocks side by side.
#[inline(always)]
fn joined(low: u64, high: u64) -> u128
    ensures low { (k : ℕ) → k < 64 → lane result k ≡ lane low k }
    ensures high { (k : ℕ) → k < 64 → lane result (64 + k) ≡ lane high k }
    ensures rest { (k : ℕ) → 128 ≤ k → lane result k ≡ false }
{
    u128::from(low) | u128::from(high) << 64
}
