//! A word of 512 lanes, and what is done to all of them at once.

ghost use Rattle.std.specs.Prelude.{◌≡◌, ◌↔◌, ℕ, ◌+◌, ◌*◌, ◌/◌, ◌%◌, ◌^◌, ◌<◌, All, IsTrue};
ghost use Rattle.std.specs.Prelude.{bit_and, bit_or, bit_xor, length, slice_index_or};

use std::simd::u64x8;

/// A word of 512 lanes: part `p` has the lanes `64 * p` to `64 * p + 63`.
#[derive(Clone, Copy)]
pub struct Wide {
    parts: u64x8,
    ghost room: { length parts ≡ 8 },
    ghost fits: { All (λ part. part < 2 ^ 64) parts },
}

impl Wide {
    ghost use Rattle.wide_words.specs.Lanes.{lane};
    ghost use Rattle.wide_words.specs.Wide.{number};

    /// Returns the word in which no lane is 1.
    #[inline(always)]
    pub fn none() -> Wide
        ensures { number result ≡ 0 }
    {
        Wide {
            parts: u64x8::splat(0),
        }
    }

    /// Returns the word with these parts.
    #[inline(always)]
    pub fn from_parts(parts: [u64; 8]) -> Wide
        ensures { (k : ℕ) → k < 512
            → lane (number result) k ≡ lane (slice_index_or parts (k / 64) 0) (k % 64) }
    {
        Wide {
            parts: u64x8::from_array(parts),
        }
    }

    /// Returns the word of which each part is this one.
    #[inline(always)]
    pub fn splat(part: u64) -> Wide
        ensures { (k : ℕ) → k < 512 → lane (number result) k ≡ lane part (k % 64) }
    {
        Wide {
            parts: u64x8::splat(part),
        }
    }

    /// Returns the parts.
    #[inline(always)]
    pub fn to_parts(self) -> [u64; 8]
        ensures { (p k : ℕ) → k < 64
            → lane (slice_index_or result p 0) k ≡ lane (number self) (64 * p + k) }
    {
        self.parts.to_array()
    }

    /// Returns the lanes that are 1 in both words.
    #[inline(always)]
    pub fn and(self, other: Wide) -> Wide
        ensures { number result ≡ bit_and (number self) (number other) }
    {
        Wide {
            parts: self.parts & other.parts,
        }
    }

    /// Returns the lanes that are 1 in one of two words or in both.
    #[inline(always)]
    pub fn or(self, other: Wide) -> Wide
        ensures { number result ≡ bit_or (number self) (number other) }
    {
        Wide {
            parts: self.parts | other.parts,
        }
    }

    /// Returns the lanes in which two words differ.
    #[inline(always)]
    pub fn xor(self, other: Wide) -> Wide
        ensures { number result ≡ bit_xor (number self) (number other) }
    {
        Wide {
            parts: self.parts ^ other.parts,
        }
    }

    /// Returns whether no lane is 1.
    #[inline(always)]
    pub fn is_none(self) -> bool
        ensures { IsTrue result ↔ (number self ≡ 0) }
    {
        self.parts.reduce_or() == 0
    }
}
