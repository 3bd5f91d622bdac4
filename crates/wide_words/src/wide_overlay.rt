//! The differences of signals from their fault-free words, in wide words.
//!
//! A word that differs stands in a list of those that do, and a number for each signal names its
//! place there: so few lines of the cache have them all, and a signal that does not differ costs
//! its number alone.

ghost use Rattle.std.specs.Prelude.{◌≡◌, ◌≢◌, ◌↔◌, ℕ, ◌<◌, All, IfOk, IsTrue, bit_or, length};
ghost use Rattle.std.specs.Prelude.{slice_index_or, slice_set};
ghost use Rattle.wide_words.specs.Wide.{number};

use crate::wide::Wide;
use std::alloc::{AllocError, Global};
use std::marker::Model;

/// A wide word for each signal: the lanes in which it differs.
#[derive(Drop)]
pub struct WideOverlay {
    index: Vec<u32>,
    words: Vec<Wide>,
    changed: Vec<u32>,
}

impl Model for WideOverlay {
    ghost use Rattle.std.specs.Prelude.{List, ℕ, vec_capacity};
    ghost use Rattle.wide_words.specs.WideOverlay.{IsWideOverlay, overlaid};

    ghost Value = { List ℕ };

    ghost view = { λ o. overlaid o.words.items o.index.items };

    ghost invariant = { λ o. IsWideOverlay o.words.items o.index.items o.changed.items
        (vec_capacity o.words) (vec_capacity o.changed) };
}

impl WideOverlay {
    /// Makes an overlay with a word for this many signals, none of which differs.
    pub fn new(alloc: Global, signals: u32) -> Result<WideOverlay, AllocError>
        ensures room { IfOk result (λ o. length o ≡ signals) }
        ensures clear { IfOk result (λ o. All (λ word. word ≡ 0) o) }
    {
        let index = vec![in alloc; 0u32; signals as usize]?;
        let changed = Vec::with_capacity(alloc, signals as usize)?;
        let mut words = Vec::with_capacity(alloc, signals as usize + 1)?;
        words.push_reserved(Wide::none());
        Ok(WideOverlay {
            index,
            words,
            changed,
        })
    }

    /// Returns whether a signal differs in some lane.
    #[inline(always)]
    pub fn differs(&self, signal: u32) -> bool
        requires { signal < length self.now }
        ensures { IsTrue result ↔ (slice_index_or self.now signal 0 ≢ 0) }
    {
        self.index[signal as usize] != 0
    }

    /// Returns the lanes in which a signal differs.
    #[inline(always)]
    pub fn lanes_of(&self, signal: u32) -> Wide
        requires { signal < length self.now }
        ensures { number result ≡ slice_index_or self.now signal 0 }
    {
        let place = self.index[signal as usize] as usize;
        self.words[place]
    }

    /// Lets a signal differ that did not.
    #[inline(always)]
    pub fn change(&mut self, signal: u32, word: Wide)
        requires signal { signal < length self.old }
        requires same { slice_index_or self.old signal 0 ≡ 0 }
        requires word { number word ≢ 0 }
        ensures { self.new ≡ slice_set self.old signal (number word) }
    {
        self.index[signal as usize] = self.words.len() as u32;
        self.words.push_reserved(word);
        self.changed.push_reserved(signal);
    }

    /// Lets a signal that differs do so in these lanes too.
    #[inline(always)]
    pub fn join(&mut self, signal: u32, word: Wide)
        requires signal { signal < length self.old }
        requires differs { slice_index_or self.old signal 0 ≢ 0 }
        ensures { self.new ≡ slice_set self.old signal
            (bit_or (slice_index_or self.old signal 0) (number word)) }
    {
        let place = self.index[signal as usize] as usize;
        let both = self.words[place].or(word);
        self.words[place] = both;
    }

    /// Clears the differences of all signals.
    #[inline(always)]
    pub fn clear(&mut self)
        ensures room { length self.new ≡ length self.old }
        ensures clear { All (λ word. word ≡ 0) self.new }
    {
        erase(&mut self.index, self.changed.as_slice());
        self.changed.clear();
        self.words.truncate(1);
    }
}

/// Writes 0 at each of the listed places. All other places are 0.
#[inline(always)]
fn erase(places: &mut [u32], listed: &[u32])
    requires within { All (λ s. s < length places.old) listed.now }
    requires all { (s : ℕ) → slice_index_or places.old s 0 ≢ 0 → (j : ℕ) × (j < length listed.now)
        × (slice_index_or listed.now j 0 ≡ s) }
    ensures room { length places.new ≡ length places.old }
    ensures clear { All (λ place. place ≡ 0) places.new }
{
    for signal in listed {
        places[*signal as usize] = 0;
    }
}
