//! Wide words that are known for some signals, until all of them are forgotten at once.

ghost use Rattle.std.specs.Prelude.{◌≡◌, ℕ, ◌<◌, IfOk, None, Some, length, slice_index_or};
ghost use Rattle.std.specs.Prelude.{slice_set};

use std::alloc::{AllocError, Global};
use std::marker::Model;
use wide_words::Wide;

/// A signal and its word.
#[derive(Clone, Copy)]
pub(crate) struct KnownWord {
    pub(crate) signal: u32,
    pub(crate) word: Wide,
}

/// The wide words that are known. They stand in the order in which they came, so the memory that is
/// in use grows with the words that are known at once, and not with the signals. For each signal
/// there is a place among them, which counts only if the word there is the signal's: so all words
/// are forgotten at once.
#[derive(Drop)]
pub(crate) struct KnownWide {
    places: Vec<u32>,
    known: Vec<KnownWord>,
}

impl Model for KnownWide {
    ghost use Rattle.std.specs.Prelude.{List, Option, vec_capacity};
    ghost use Rattle.wide_words.specs.declared.wide.Wide.{Wide};
    ghost use Rattle.region_sim.specs.KnownWide.{AreKnownAt, known_wide};

    ghost Value = { List (Option Wide) };

    ghost view = { λ k. known_wide k.known.items k.places.items };

    ghost invariant = { λ k. AreKnownAt k.places.items k.known.items (vec_capacity k.known) };
}

impl KnownWide {
    /// Makes room for the words of this many signals.
    pub(crate) fn new(alloc: Global, signals: u32) -> Result<KnownWide, AllocError>
        ensures { IfOk result (λ known. length known ≡ signals) }
    {
        let places = vec![in alloc; 0u32; signals as usize]?;
        let known = Vec::with_capacity(alloc, signals as usize)?;
        Ok(KnownWide { places, known })
    }

    /// Forgets all words.
    #[inline(always)]
    #[tactic(auto, using(crate::proofs::KnownWideWords::none_known))]
    pub(crate) fn forget(&mut self)
        ensures room { length self.new ≡ length self.old }
        ensures none { (signal : ℕ) → slice_index_or self.new signal None ≡ None }
    {
        self.known.clear();
    }

    /// Returns the word of a signal, if it is known.
    #[inline(always)]
    pub(crate) fn of(&self, signal: u32) -> Option<Wide>
        requires { signal < length self.now }
        ensures { result ≡ slice_index_or self.now signal None }
    {
        let place = self.places[signal as usize] as usize;
        if place < self.known.len() && self.known[place].signal == signal {
            Some(self.known[place].word)
        } else {
            None
        }
    }

    /// Records the word of a signal.
    #[inline(always)]
    pub(crate) fn keep(&mut self, signal: u32, word: Wide)
        requires { signal < length self.old }
        ensures { self.new ≡ slice_set self.old signal (Some word) }
    {
        let place = self.places[signal as usize] as usize;
        if place < self.known.len() && self.known[place].signal == signal {
            self.known[place] = KnownWord { signal, word };
        } else {
            self.places[signal as usize] = self.known.len() as u32;
            self.known.push_reserved(KnownWord { signal, word });
        }
    }
}
