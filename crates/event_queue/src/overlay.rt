//! The differences of signals from their fault-free words.

ghost use Rattle.std.specs.Prelude.{◌≡◌, ◌≢◌, ℕ, ◌<◌, All, IfOk, length, slice_index_or, slice_set};

use std::alloc::{AllocError, Global};
use std::marker::Model;

/// A word for each signal, 0 if the signal doesn't differ, with the list of the signals that do.
#[derive(Drop)]
pub struct Overlay {
    words: Vec<u128>,
    changed: Vec<u32>,
    count: usize,
}

impl Model for Overlay {
    ghost use Rattle.std.specs.Prelude.{List, ℕ};
    ghost use Rattle.event_queue.specs.Overlay.{IsOverlay};

    ghost Value = { List ℕ };

    ghost view = { λ o. o.words.items };

    ghost invariant = { λ o. IsOverlay o.words.items o.changed.items o.count };
}

impl Overlay {
    /// Makes an overlay of this many words, none of which differs.
    pub fn new(alloc: Global, signals: u32) -> Result<Overlay, AllocError>
        ensures room { IfOk result (λ o. length o ≡ signals) }
        ensures clear { IfOk result (λ o. All (λ word. word ≡ 0) o) }
    {
        let words = vec![in alloc; 0u128; signals as usize]?;
        let changed = vec![in alloc; 0u32; signals as usize]?;
        Ok(Overlay {
            words,
            changed,
            count: 0,
        })
    }

    /// Returns the words.
    #[inline(always)]
    pub fn words(&self) -> &[u128]
        ensures { result.now ≡ self.now }
    {
        self.words.as_slice()
    }

    /// Lets a signal differ that didn't differ before.
    #[inline(always)]
    pub fn change(&mut self, signal: u32, word: u128)
        requires signal { signal < length self.old }
        requires same { slice_index_or self.old signal 0 ≡ 0 }
        requires word { word ≢ 0 }
        ensures { self.new ≡ slice_set self.old signal word }
    {
        self.words[signal as usize] = word;
        self.changed[self.count] = signal;
        self.count += 1;
    }

    /// Clears the differences of all signals.
    #[inline(always)]
    pub fn clear(&mut self)
        ensures room { length self.new ≡ length self.old }
        ensures clear { All (λ word. word ≡ 0) self.new }
    {
        erase(&mut self.words, &self.changed[..self.count]);
        self.count = 0;
    }
}

/// Writes 0 at each of the listed places. All other places are 0.
#[inline(always)]
fn erase(words: &mut [u128], listed: &[u32])
    requires within { All (λ s. s < length words.old) listed.now }
    requires all { (s : ℕ) → slice_index_or words.old s 0 ≢ 0 → (j : ℕ) × (j < length listed.now)
        × (slice_index_or listed.now j 0 ≡ s) }
    ensures room { length words.new ≡ length words.old }
    ensures clear { All (λ word. word ≡ 0) words.new }
{
    for signal in listed {
        words[*signal as usize] = 0;
    }
}
