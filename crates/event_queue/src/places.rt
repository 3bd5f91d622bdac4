//! A set of places, from which the least is taken.

ghost use Rattle.std.specs.Prelude.{◌≡◌, ◌≢◌, ℕ, ◌+◌, ◌*◌, ◌^◌, ◌<◌, ◌≤◌, All, IfOk, IfSome};
ghost use Rattle.std.specs.Prelude.{IfNone, length, slice_index_or, slice_set};
ghost use Rattle.event_queue.specs.Places.{ArePlaces, flag};

use std::alloc::{AllocError, Global};
use std::marker::Model;

/// The places that are set: a bit for each, in words of 64, and a bit for each word that isn't 0.
///
/// ```text
/// words        0: 0..01010   1: 0..0   2: 0..00001        places 1, 3 and 128 are set
/// summary      0: 0..00101                                words 0 and 2 have some
/// ```
///
/// So the least of 4,096 places is found in two steps, and nothing is allocated as places come and
/// go.
#[derive(Drop)]
pub struct Places {
    words: Vec<u64>,
    summary: Vec<u64>,
}

impl Model for Places {
    ghost use Rattle.std.specs.Prelude.{List, ℕ};
    ghost use Rattle.event_queue.specs.Places.{ArePlaces, flags};

    ghost Value = { List ℕ };

    ghost view = { λ p. flags p.words.items };

    ghost invariant = { λ p. ArePlaces p.words.items p.summary.items };
}

impl Places {
    /// Makes a set with room for this many places and a few more, none of which is set.
    pub fn new(alloc: Global, places: u32) -> Result<Places, AllocError>
        ensures room { IfOk result (λ p. places < length p) }
        ensures empty { IfOk result (λ p. All (λ flag. flag ≡ 0) p) }
    {
        let words = vec![in alloc; 0u64; places as usize / 64 + 1]?;
        let summary = vec![in alloc; 0u64; places as usize / 4096 + 1]?;
        Ok(Places { words, summary })
    }

    /// Sets a place.
    #[inline(always)]
    pub fn add(&mut self, place: u32)
        requires { place < length self.old }
        ensures { self.new ≡ slice_set self.old place 1 }
    {
        let word = place as usize / 64;
        let bits = self.words[word];
        self.words[word] = bits | (1u64 << (place % 64));
        let marks = self.summary[word / 64];
        self.summary[word / 64] = marks | (1u64 << (word % 64) as u32);
    }

    /// Takes the least place that is set; `None` if none is. The search starts from a place below
    /// which none is set.
    #[inline(always)]
    pub fn take(&mut self, from: u32) -> Option<u32>
        requires within { from < length self.old }
        requires low { (place : ℕ) → slice_index_or self.old place 0 ≢ 0 → from ≤ place }
        ensures none { IfNone result ((self.new ≡ self.old) × All (λ flag. flag ≡ 0) self.old) }
        ensures some { IfSome result (λ place. (slice_index_or self.old place 0 ≡ 1)
            × (self.new ≡ slice_set self.old place 0)) }
        ensures least { IfSome result (λ place. (other : ℕ)
            → slice_index_or self.old other 0 ≢ 0 → place ≤ other) }
    {
        match least_word(
            self.words.as_slice(),
            self.summary.as_slice(),
            from as usize / 64,
        ) {
            Some(word) => {
                let bits = self.words[word];
                let bit = bits.trailing_zeros();
                let rest = bits & !(1u64 << bit);
                self.words[word] = rest;
                let place = word as u32 * 64 + bit;
                if rest != 0 {
                    return Some(place);
                }
                let marks = self.summary[word / 64];
                self.summary[word / 64] = marks & !(1u64 << (word % 64) as u32);
                Some(place)
            }
            None => None,
        }
    }

    /// Clears all places. The search starts from a place below which none is set.
    pub fn clear(&mut self, from: u32)
        requires within { from < length self.old }
        requires low { (place : ℕ) → slice_index_or self.old place 0 ≢ 0 → from ≤ place }
        ensures room { length self.new ≡ length self.old }
        ensures clear { All (λ flag. flag ≡ 0) self.new }
    {
        let first = from as usize / 4096;
        while let Some(word) = first_marked(self.summary.as_slice(), first) {
            self.words[word] = 0;
            let marks = self.summary[word / 64];
            self.summary[word / 64] = marks & !(1u64 << (word % 64) as u32);
        }
    }
}

/// Returns the first word that isn't 0, from one before which all are 0.
#[inline(always)]
fn least_word(words: &[u64], summary: &[u64], from: usize) -> Option<usize>
    requires places { ArePlaces words.now summary.now }
    requires within { from < length words.now }
    requires low { (w : ℕ) → slice_index_or words.now w 0 ≢ 0 → from ≤ w }
    ensures some { IfSome result (λ word. (word < length words.now)
        × (slice_index_or words.now word 0 ≢ 0)) }
    ensures least { IfSome result (λ word. (w : ℕ)
        → slice_index_or words.now w 0 ≢ 0 → word ≤ w) }
    ensures none { IfNone result (All (λ word. word ≡ 0) words.now) }
{
    if words[from] != 0 {
        Some(from)
    } else {
        first_marked(summary, from / 64)
    }
}

/// Returns the first marked word, by the marks in the summary from this word on.
#[inline(always)]
fn first_marked(summary: &[u64], from: usize) -> Option<usize>
    requires few { 64 * length summary.now < 2 ^ 64 }
    ensures some { IfSome result (λ word. flag summary.now word ≡ 1) }
    ensures least { IfSome result (λ word. (w : ℕ) → 64 * from ≤ w → flag summary.now w ≡ 1
        → word ≤ w) }
    ensures none { IfNone result ((w : ℕ) → 64 * from ≤ w → flag summary.now w ≡ 0) }
{
    for at in from..summary.len() {
        let marks = summary[at];
        if marks != 0 {
            return Some(at * 64 + marks.trailing_zeros() as usize);
        }
    }
    None
}
