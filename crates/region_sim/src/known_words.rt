//! Words that are known for some signals, until all of them are forgotten at once.

ghost use Rattle.std.specs.Prelude.{◌≡◌, ℕ, ◌<◌, ◌≤◌, IfOk, None, Some, length, slice_index_or};
ghost use Rattle.std.specs.Prelude.{slice_set};

use std::alloc::{AllocError, Global};
use std::marker::Model;

/// A word for each signal, with the number of the unit of work in which it was computed. It is
/// known only in that unit, so the next unit forgets all words. After the last number, which takes
/// 4 billion units, all marks are cleared.
#[derive(Drop)]
pub(crate) struct KnownWords {
    words: Vec<u128>,
    marks: Vec<u32>,
    unit: u32,
}

impl Model for KnownWords {
    ghost use Rattle.std.specs.Prelude.{List, Option, ℕ};
    ghost use Rattle.region_sim.specs.KnownWords.{AreMarked, known_words};

    ghost Value = { List (Option ℕ) };

    ghost view = { λ k. known_words k.unit k.marks.items k.words.items };

    ghost invariant = { λ k. AreMarked k.unit k.marks.items k.words.items };
}

impl KnownWords {
    /// Makes room for the words of this many signals.
    pub(crate) fn new(alloc: Global, signals: u32) -> Result<KnownWords, AllocError>
        ensures { IfOk result (λ known. length known ≡ signals) }
    {
        let words = vec![in alloc; 0u128; signals as usize]?;
        let marks = vec![in alloc; 0u32; signals as usize]?;
        Ok(KnownWords {
            words,
            marks,
            unit: 1,
        })
    }

    /// Forgets all words.
    #[inline(always)]
    pub(crate) fn forget(&mut self)
        ensures room { length self.new ≡ length self.old }
        ensures none { (signal : ℕ) → slice_index_or self.new signal None ≡ None }
    {
        self.unit = next_unit(self.unit, &mut self.marks);
    }

    /// Returns the word of a signal, if it is known.
    #[inline(always)]
    pub(crate) fn of(&self, signal: u32) -> Option<u128>
        requires { signal < length self.now }
        ensures { result ≡ slice_index_or self.now signal None }
    {
        if self.marks[signal as usize] == self.unit {
            Some(self.words[signal as usize])
        } else {
            None
        }
    }

    /// Records the word of a signal.
    #[inline(always)]
    pub(crate) fn keep(&mut self, signal: u32, word: u128)
        requires { signal < length self.old }
        ensures { self.new ≡ slice_set self.old signal (Some word) }
    {
        self.words[signal as usize] = word;
        self.marks[signal as usize] = self.unit;
    }
}

/// Returns the number of the next unit, which no mark has.
#[inline(always)]
fn next_unit(unit: u32, marks: &mut [u32]) -> u32
    requires { (signal : ℕ) → slice_index_or marks.old signal 0 ≤ unit }
    ensures room { length marks.new ≡ length marks.old }
    ensures later { (signal : ℕ) → slice_index_or marks.new signal 0 < result }
{
    if unit == u32::MAX {
        clear_marks(marks);
        return 1;
    }
    unit + 1
}

/// Sets all marks to the number of no unit.
#[inline(never)]
fn clear_marks(marks: &mut [u32])
    ensures room { length marks.new ≡ length marks.old }
    ensures clear { (signal : ℕ) → slice_index_or marks.new signal 0 ≡ 0 }
{
    for mark in marks {
        *mark = 0;
    }
}
