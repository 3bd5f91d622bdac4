//! Gates that stop workers, count pieces, or hold a piece until another piece or other workers have
//! come.

ghost use Rattle.workers.specs.Stops.{any_stop};

use region_runs::Watch;
use std::sync::atomic::{AtomicU64, Ordering};
use std::thread;
use std::time::{Clock, Duration};
use workers::Gate;

/// The number of turns of 1 ms for which a gate holds a piece.
const TURNS: u32 = 10_000;

/// The pieces and workers that a gate stops or holds. A gate that holds a worker gives up after
/// 10,000 turns of 1 ms.
#[derive(Clone, Copy)]
pub(crate) enum Plan {
    /// It stops the worker of the piece of this class and block.
    Stop(u32, u32),
    /// It only counts the pieces.
    Count,
    /// It holds the worker of the first piece until the second piece has arrived.
    Meet((u32, u32), (u32, u32)),
    /// It also holds the worker of the second piece until the first has arrived.
    MeetBoth((u32, u32), (u32, u32)),
    /// It holds every worker until workers 0 to 3 have come, each with its own number.
    Roll,
    /// It lets two workers pass two by two: each waits until both have a piece. So of two pieces
    /// that a worker claims one after the other there are mostly others between.
    TwoByTwo,
    /// It holds the worker that comes first until the other one has called it a number of times.
    Hold(u64),
}

/// A gate with a plan.
#[derive(Drop)]
pub(crate) struct Planned<'a, C> {
    clock: &'a C,
    plan: Plan,
    // Whether the first piece has come; the bit of each worker that has come, or the number of
    // calls; of the worker that is held the number plus 1.
    first: AtomicU64,
    // Whether the second piece has come, or how many times the other worker has.
    second: AtomicU64,
}

impl<'a, C: Clock> Planned<'a, C> {
    pub(crate) fn new(clock: &'a C, plan: Plan) -> Planned<'a, C> {
        Planned {
            clock,
            plan,
            first: AtomicU64::new(0),
            second: AtomicU64::new(0),
        }
    }

    /// Returns the number of pieces, if the plan is to count them.
    pub(crate) fn pieces(&self) -> u64 {
        self.first.load(Ordering::SeqCst)
    }

    /// Lets a piece come, and holds the first until the second has come. If it holds both, it also
    /// holds the second until the first has come.
    fn meets(&self, piece: (u32, u32), first: (u32, u32), second: (u32, u32), both: bool) -> bool {
        if piece == first {
            self.first.store(1, Ordering::SeqCst);
            return has_come(self.clock, &self.second, 0, 1);
        }
        if piece == second {
            self.second.store(1, Ordering::SeqCst);
            return !both || has_come(self.clock, &self.first, 0, 1);
        }
        true
    }

    /// Lets a worker come, and waits for workers 0 to 3.
    fn rolls(&self, worker: u32) -> bool {
        self.first.fetch_or(1 << (worker % 64), Ordering::SeqCst);
        has_come(self.clock, &self.first, 0, 0b1111) && self.first.load(Ordering::SeqCst) == 0b1111
    }

    /// Holds a worker if it came first, until the other one has come this many times.
    fn holds(&self, worker: u32, wanted: u64) -> bool {
        let number = u64::from(worker) + 1;
        let is_first = self
            .first
            .compare_exchange(0, number, Ordering::SeqCst, Ordering::SeqCst)
            .is_ok();
        if is_first {
            return has_come(self.clock, &self.second, 0, wanted);
        }
        if self.first.load(Ordering::SeqCst) != number {
            self.second.fetch_add(1, Ordering::SeqCst);
        }
        true
    }
}

impl<C: Clock> Gate for Planned<'_, C> {
    ghost passing = { λ _. ⊥ };

    ghost stops = { λ _. any_stop };

    fn pass(&self, worker: u32, class: u32, block: u32) -> bool {
        let piece = (class, block);
        match self.plan {
            Plan::Stop(stopped, at) => piece != (stopped, at),
            Plan::Count => {
                self.first.fetch_add(1, Ordering::SeqCst);
                true
            }
            Plan::Meet(first, second) => self.meets(piece, first, second, false),
            Plan::MeetBoth(first, second) => self.meets(piece, first, second, true),
            Plan::Roll => self.rolls(worker),
            Plan::TwoByTwo => {
                let before = self.first.fetch_add(1, Ordering::SeqCst);
                has_come(self.clock, &self.first, before / 2 * 2, 2)
            }
            Plan::Hold(wanted) => self.holds(worker, wanted),
        }
    }
}

impl<C: Clock> Watch for Planned<'_, C> {}

/// Waits until a word is at least `wanted` more than `before`, and returns whether it is.
fn has_come<C: Clock>(clock: &C, word: &AtomicU64, before: u64, wanted: u64) -> bool {
    for _ in 0..TURNS {
        if word.load(Ordering::SeqCst).wrapping_sub(before) >= wanted {
            return true;
        }
        thread::sleep(clock, Duration::from_millis(1));
    }
    false
}
