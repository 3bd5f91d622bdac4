//! What the pins block: the number of faults, and the tests.

ghost use Rattle.std.specs.Prelude.{◌≡◌, ◌<◌, All, IfOk, length, map, true};
ghost use Rattle.flat_circuit.specs.Words.{lane};
ghost use Rattle.blocking_pins.specs.Counting.{AreAdded};

use std::alloc::{AllocError, Global};

/// The number of faults that a pin blocks.
#[derive(Clone, Copy)]
pub(crate) struct PinCount {
    /// The number of faults.
    pub(crate) faults: u32,
    /// The last of them, counted from 1; 0 if there is none.
    pub(crate) last: u32,
}

/// The faults and the tests of all pins, by their places in the list of pins.
#[derive(Drop)]
pub(crate) struct Tally {
    /// The number of faults.
    pub(crate) counts: Vec<PinCount>,
    /// For each group of tests the lanes in which each pin blocks a fault.
    pub(crate) rows: Vec<Vec<u128>>,
}

impl Tally {
    /// Makes the tally of pins that block nothing.
    pub(crate) fn new(alloc: Global, pins: usize, groups: u32) -> Result<Tally, AllocError>
        ensures pins { IfOk result (λ tally. length tally.counts.items ≡ pins) }
        ensures none { IfOk result (λ tally.
            All (λ count. count ≡ record { faults = 0; last = 0 }) tally.counts.items) }
        ensures groups { IfOk result (λ tally. length tally.rows.items ≡ groups) }
        ensures rows { IfOk result (λ tally. All (λ row. (length row ≡ pins)
            × All (λ word. word ≡ 0) row) (map (λ row. row.items) tally.rows.items)) }
    {
        let none = PinCount { faults: 0, last: 0 };
        let counts = vec![in alloc; none; pins]?;
        let mut rows = Vec::with_capacity(alloc, groups as usize)?;
        for _group in 0..groups {
            rows.push(zero_row(alloc, pins)?)?;
        }
        Ok(Tally { counts, rows })
    }
}

/// Returns a row of this many words, all of which are 0.
fn zero_row(alloc: Global, pins: usize) -> Result<Vec<u128>, AllocError>
    ensures count { IfOk result (λ row. length row.items ≡ pins) }
    ensures zero { IfOk result (λ row. All (λ word. word ≡ 0) row.items) }
{
    Ok(vec![in alloc; 0u128; pins]?)
}

/// Notes the lanes of a group in which a pin blocks a fault. Faults are counted from 1.
#[inline(always)]
pub(crate) fn note(counts: &mut [PinCount], row: &mut [u128], at: usize, number: u32, lanes: u128)
    requires at { at < length counts.old }
    requires room { length row.old ≡ length counts.old }
    ensures { AreAdded number (λ i k. (i ≡ at) × (lane lanes k ≡ true)) counts.old counts.new
        row.old row.new }
{
    if lanes == 0 {
        return;
    }
    row[at] |= lanes;
    let count = counts[at];
    if count.last != number {
        counts[at] = PinCount {
            faults: count.faults.saturating_add(1),
            last: number,
        };
    }
}
