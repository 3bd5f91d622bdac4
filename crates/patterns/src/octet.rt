//! Up to eight tests, with a byte for each source. A reader packs rows into bytes, of which a
//! processor takes many at a time, and then moves eight tests into words at once.

ghost use Rattle.std.specs.Prelude.{◌≡◌, ◌≢◌, ℕ, ◌+◌, ◌<◌, ◌≤◌, ◌==◌, [], map, length, IfOk};
ghost use Rattle.std.specs.Prelude.{if◌then◌else◌};
ghost use Rattle.std.specs.Prelude.{slice_index};
ghost use Rattle.std.specs.Int.{bit_at};
ghost use Rattle.patterns.specs.Making.{with_test};
ghost use Rattle.patterns.specs.Tests.{IsTestList, IsWord, as_number};

use std::alloc::{AllocError, Global};
use std::marker::Model;

/// Up to eight tests.
#[derive(Drop)]
pub(crate) struct Octet {
    width: u32,
    count: u32,
    /// The byte of each source: bit k is the bit of test k, and 0 past the last test.
    bytes: Vec<u8>,
}

impl Model for Octet {
    ghost use Rattle.patterns.specs.Tests.{TestList};

    ghost Value = { TestList };

    ghost use Rattle.patterns.specs.Octets.{AreBytes, tests_in_bytes};

    ghost view = { λ o. record {
      width = o.width;
      tests = tests_in_bytes o.width o.count o.bytes.items;
    } };

    ghost invariant = { λ o. AreBytes o.width o.count o.bytes.items };
}

impl Octet {
    /// Makes an octet of `width` sources without tests.
    pub(crate) fn new(alloc: Global, width: u32) -> Result<Octet, AllocError>
        ensures { IfOk result (λ octet. octet ≡ record { width = width; tests = [] }) }
    {
        let bytes = vec![in alloc; 0u8; width as usize]?;
        Ok(Octet {
            width,
            count: 0,
            bytes,
        })
    }

    /// Returns the number of tests.
    pub(crate) fn count(&self) -> u32
        ensures count { result ≡ length self.now.tests }
        ensures few { result ≤ 8 }
    {
        self.count
    }

    /// Returns the byte of each source: bit k is the bit of test k, and 0 past the last test.
    pub(crate) fn bytes(&self) -> &[u8]
        ensures count { length result.now ≡ self.now.width }
        ensures list { IsTestList self.now }
        ensures bytes { (source : ℕ) → source < self.now.width
            → IsWord self.now.tests 0 source (slice_index result.now source) }
    {
        self.bytes.as_slice()
    }

    /// Adds the test of a row of digits `0` and `1`.
    pub(crate) fn push(&mut self, row: &[u8])
        requires room { length self.old.tests < 8 }
        requires width { length row.now ≡ self.old.width }
        ensures { self.new ≡ with_test self.old (map (λ b. b == 49) row.now) }
    {
        set_bits(&mut self.bytes, row, self.count);
        self.count += 1;
    }

    /// Drops the tests.
    pub(crate) fn clear(&mut self)
        ensures { self.new ≡ record { width = self.old.width; tests = [] } }
    {
        self.count = 0;
        self.bytes.fill(0);
    }
}

/// Sets the bit at `lane` of the byte of each source whose digit is `1`.
fn set_bits(bytes: &mut [u8], row: &[u8], lane: u32)
    requires lane { lane < 8 }
    requires sources { length bytes.old ≡ length row.now }
    requires clear { (source : ℕ) → bit_at (slice_index bytes.old source) lane ≡ 0 }
    ensures set { (source : ℕ) → source < length row.now
        → bit_at (slice_index bytes.new source) lane
        ≡ as_number (slice_index row.now source == 49) }
    ensures others { (source k : ℕ) → k ≢ lane
        → bit_at (slice_index bytes.new source) k ≡ bit_at (slice_index bytes.old source) k }
{
    let bit = 1u8 << lane;
    for (source, digit) in row.iter().enumerate() {
        bytes[source] |= bit_if_one(*digit, bit);
    }
}

/// Returns the bit if the digit is `1`, and else 0.
#[inline(always)]
fn bit_if_one(digit: u8, bit: u8) -> u8
    ensures { result ≡ (if digit == 49 then bit else 0) }
{
    if digit == b'1' { bit } else { 0 }
}

/// Merges bytes into words, from this lane on.
pub(crate) fn merge_bytes(words: &mut [u64], bytes: &[u8], lane: u32)
    requires lane { lane < 64 }
    requires sources { length words.old ≡ length bytes.now }
    requires clear { (source k : ℕ) → lane ≤ k → k < 64
        → bit_at (slice_index words.old source) k ≡ 0 }
    ensures merged { (source k : ℕ) → source < length bytes.now → lane + k < 64
        → bit_at (slice_index words.new source) (lane + k)
        ≡ bit_at (slice_index bytes.now source) k }
    ensures low { (source k : ℕ) → k < lane
        → bit_at (slice_index words.new source) k ≡ bit_at (slice_index words.old source) k }
{
    for (source, byte) in bytes.iter().enumerate() {
        words[source] |= u64::from(*byte) << lane;
    }
}
