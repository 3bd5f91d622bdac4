//! The backoff of a worker, which rests if pieces are smaller than the cost of claims.

ghost use Rattle.std.specs.Prelude.{◌≡◌, ◌≤◌};

use std::hint::spin_loop;

/// The cost of a claim and a change of its piece if other workers claim too, in evaluations of a
/// gate: each moves a cache line from another processor.
const CLAIM: u64 = 8;

/// A worker rests when it owes this number of evaluations.
const LIMIT: u64 = 128;

/// The debt that a rest pays.
const RESTED: u64 = 32;

/// The number of pauses of a rest of worker 1, about 50 microseconds. Worker 2 rests twice as long,
/// and so on.
const PAUSES: u32 = 1_000;

/// The longest rest, as a multiple of worker 1's.
const LONGEST: u32 = 8;

/// The backoff of a worker.
///
/// If most pieces are dropped, or take few evaluations, several workers are slower than one: each
/// waits for the data that the others have just changed. So a worker owes the price of each claim
/// if others claimed since its last one, and pays with its evaluations. If it owes much, it rests,
/// and most of the time only one worker claims. Worker 0 never rests.
#[derive(Drop)]
pub(crate) struct Backoff {
    // The rest of this worker, in pauses.
    pauses: u32,
    classes: u32,
    // The number of the piece that was claimed last.
    last: u64,
    // The worker's evaluations up to its last piece.
    evaluations: u64,
    owed: u64,
}

impl Backoff {
    /// Makes the backoff of a worker that has not claimed, at a ledger of this number of classes.
    pub(crate) fn of(worker: u32, classes: u32, evaluations: u64) -> Backoff
        ensures first { worker ≡ 0 → result.pauses ≡ 0 }
    {
        Backoff {
            pauses: PAUSES * worker.min(LONGEST),
            classes,
            last: 0,
            evaluations,
            owed: 0,
        }
    }

    /// Accounts for a finished piece and all evaluations that the worker has made, and rests if the
    /// worker owes much.
    pub(crate) fn after_piece(&mut self, class: u32, block: u32, evaluations: u64)
        ensures rest { self.new.pauses ≡ self.old.pauses }
    {
        let piece = u64::from(self.classes) * u64::from(block) + u64::from(class);
        let is_alone = piece == self.last.wrapping_add(1);
        self.last = piece;
        let made = evaluations.wrapping_sub(self.evaluations);
        self.evaluations = evaluations;
        let price = if is_alone { 0 } else { CLAIM };
        // If no other worker claims, the debt shrinks little by little.
        let paid = made.saturating_add(u64::from(is_alone));
        self.owed = self.owed.saturating_add(price).saturating_sub(paid);
        if self.owed >= LIMIT {
            self.owed -= RESTED;
            let _paused = rest(self.pauses.min(PAUSES * LONGEST));
        }
    }
}

/// Lets a processor pause this number of times, and counts the pauses.
fn rest(pauses: u32) -> u32
    requires { pauses ≤ 8000 }
    ensures { result ≡ pauses }
{
    let mut paused = 0;
    for before in 0..pauses {
        spin_loop();
        paused = before + 1;
    }
    paused
}
