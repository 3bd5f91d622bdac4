//! The fault ledger: a list of pieces of work that workers claim and report to.
//!
//! A piece is one fault class and one block of 64 tests. Workers claim pieces in one fixed order,
//! report outcomes, or drop a piece if an earlier block of its class is known to detect it.
//! Outcomes come in any order; a class is settled at its earliest detecting test. A drop is the
//! fault dropping of Bushnell and Agrawal, Essentials of Electronic Testing, by blocks of tests.
//!
//! [`Ledger`] has one owner, who calls for all workers; [`SharedLedger`] is for workers in threads
//! of their own, each with its [`Seat`]. Both give the same replies.
#![tactic(auto)]

mod calls;
mod closed;
pub mod laws;
mod rows;
mod sequential;
mod shared;
mod states;
mod words;

ghost use Rattle.std.specs.Prelude.{◌≡◌, ◌<◌, min};
ghost use Rattle.patterns.specs.Tests.{size_of};
ghost use Rattle.fault_ledger.specs.Answer.{fits_size};
ghost use Rattle.fault_ledger.specs.History.{block_count, piece_count, state_of};
ghost use Rattle.fault_ledger.specs.Face.{shape_fault};

pub use calls::replay;
pub use closed::Closed;
use patterns::{BLOCK_SIZE, MAX_PIECES, Outcome};
pub use sequential::Ledger;
pub use shared::{Seat, SharedLedger};
use std::alloc::{AllocError, AllocFailed};
use thiserror::Error;

/// The most workers that a ledger serves.
pub const MAX_WORKERS: u32 = 64;

/// The size of a ledger. Classes, tests and workers are numbered from 0.
#[derive(Clone, Copy, Debug, PartialEq, Eq)]
pub struct Shape {
    /// The number of fault classes.
    pub classes: u32,
    /// The number of tests.
    pub tests: u32,
    /// The number of workers.
    pub workers: u32,
}

/// The state of a piece. A piece that isn't open never changes again.
#[derive(Clone, Copy, Debug, PartialEq, Eq)]
pub enum PieceState {
    /// Neither reported nor dropped.
    Open,
    /// No test of the block detects the class.
    Clear,
    /// The first test of the block that detects the class, counted from 0 within the block.
    Hit(u32),
    /// Dropped, because an earlier block of the class is a hit.
    Skipped,
}

/// The status of a fault class.
#[derive(Clone, Copy, Debug, PartialEq, Eq)]
pub enum Status {
    /// The first test that detects the class, counted from 0 over all blocks, or none.
    Settled(Option<u32>),
    /// The class waits for this block, its lowest open one.
    Waiting(u32),
}

/// The result of a check whether all fault classes are settled.
#[derive(Clone, Copy, Debug, PartialEq, Eq)]
pub enum Finish {
    /// All are settled.
    Finished,
    /// The lowest class that isn't settled, and its lowest open block.
    Waiting { class: u32, block: u32 },
}

/// The reason why a call changed nothing.
#[derive(Clone, Copy, Debug, PartialEq, Eq, Error)]
pub enum Refusal {
    /// The worker's number isn't below the number of workers.
    #[error("no such worker")]
    NoSuchWorker,
    /// A claim by a worker that holds a piece.
    #[error("the worker holds a piece")]
    Holding,
    /// A report or a drop by a worker that holds no piece.
    #[error("the worker holds no piece")]
    NothingHeld,
    /// A report of a hit at a test that the block doesn't have.
    #[error("the block has fewer tests")]
    BadOutcome,
    /// A drop without a hit at an earlier block of the class.
    #[error("no earlier block is a hit")]
    NoEarlierHit,
    /// A status call, in a list of calls, for a class that isn't below the number of classes.
    #[error("no such class")]
    NoSuchClass,
}

/// The result of a claim that is accepted.
#[derive(Clone, Copy, Debug, PartialEq, Eq)]
pub enum Claim {
    /// The worker holds this piece from then on.
    Piece { class: u32, block: u32 },
    /// All pieces were claimed.
    Exhausted,
}

/// One event of a ledger: a worker got the next piece, reported the piece that it held, or dropped
/// it.
///
/// No call takes or returns one. Contracts use the history of a ledger, which is the list of its
/// events.
#[derive(Clone, Copy, Debug, PartialEq, Eq)]
pub enum Event {
    /// This worker got the next piece.
    Claim(u32),
    /// This worker reported the outcome of the piece that it held.
    Report(u32, Outcome),
    /// This worker dropped the piece that it held.
    Drop(u32),
}

/// A call of a [`Ledger`] in a list of calls for [`replay`].
#[derive(Clone, Copy, Debug, PartialEq, Eq)]
pub enum Call {
    /// [`Ledger::claim`] of this worker.
    Claim(u32),
    /// [`Ledger::report`] of this worker and outcome.
    Report(u32, Outcome),
    /// [`Ledger::drop_piece`] of this worker.
    Drop(u32),
    /// [`Ledger::status`] of this class, in range or not.
    Status(u32),
    /// [`Ledger::finished`].
    Finished,
}

/// The reply to a call.
#[derive(Clone, Copy, Debug, PartialEq, Eq)]
pub enum Reply {
    /// The claim was accepted.
    Claimed(Claim),
    /// The report or drop was accepted.
    Done,
    /// The call changed nothing.
    Refused(Refusal),
    /// The status of the class.
    Status(Status),
    /// The reply to [`Ledger::finished`].
    Finish(Finish),
}

/// The reason why there is no ledger of a shape.
#[derive(Clone, Copy, Debug, PartialEq, Eq, Error)]
pub enum LedgerFault {
    /// The number of workers is 0.
    #[error("no workers")]
    NoWorkers,
    /// The number of workers is above 64.
    #[error("more than 64 workers")]
    TooManyWorkers,
    /// Classes times blocks is above 16,777,216.
    #[error("more than 16777216 pieces")]
    TooManyPieces,
    /// An allocation failed.
    #[error("out of memory")]
    Memory,
}

impl From<AllocError> for LedgerFault {
    ghost use Rattle.fault_ledger.specs.declared.LedgerFault.{LedgerFault};
    ghost use Rattle.fault_ledger.specs.declared.LedgerFault.TheVariants.{Memory};

    ghost from_gives = { λ _ fault. fault ≡ Memory };

    fn from(_refused: AllocError) -> LedgerFault {
        LedgerFault::Memory
    }
}

impl<T: Drop> From<AllocFailed<T>> for LedgerFault {
    ghost use Rattle.fault_ledger.specs.declared.LedgerFault.{LedgerFault};
    ghost use Rattle.fault_ledger.specs.declared.LedgerFault.TheVariants.{Memory};

    ghost from_gives = { λ _ fault. fault ≡ Memory };

    fn from(_refused: AllocFailed<T>) -> LedgerFault {
        LedgerFault::Memory
    }
}

impl Shape {
    /// Returns the number of blocks of 64 tests; the last may be short.
    pub(crate) fn blocks(self) -> u32
        ensures { result ≡ block_count self }
    {
        self.tests.div_ceil(BLOCK_SIZE)
    }

    /// Returns the number of pieces: classes times blocks.
    pub(crate) fn pieces(self) -> u64
        ensures { result ≡ piece_count self }
    {
        u64::from(self.classes) * u64::from(self.blocks())
    }

    /// Returns the number of classes that have a piece: all, or none if there are no tests.
    pub(crate) fn classes_with_pieces(self) -> u32
        ensures { result ≡ min self.classes (piece_count self) }
    {
        u64::from(self.classes).min(self.pieces()) as u32
    }

    /// Returns the number of tests in a block.
    pub(crate) fn size_of(self, block: u32) -> u32
        requires { block < block_count self }
        ensures { result ≡ size_of self.tests block }
    {
        (self.tests - BLOCK_SIZE * block).min(BLOCK_SIZE)
    }

    /// Returns whether a block has the test that an outcome names.
    pub(crate) fn takes(self, block: u32, outcome: Outcome) -> bool
        requires { block < block_count self }
        ensures { result ≡ fits_size (size_of self.tests block) outcome }
    {
        match outcome {
            Outcome::Clear => true,
            Outcome::Hit(test) => test < self.size_of(block),
        }
    }

    /// Returns the reason why there is no ledger of this shape, apart from memory.
    pub(crate) fn fault(self) -> Option<LedgerFault>
        ensures { result ≡ shape_fault self }
    {
        if self.workers == 0 {
            Some(LedgerFault::NoWorkers)
        } else if self.workers > MAX_WORKERS {
            Some(LedgerFault::TooManyWorkers)
        } else if self.pieces() > u64::from(MAX_PIECES) {
            Some(LedgerFault::TooManyPieces)
        } else {
            None
        }
    }
}

/// Returns the state of a piece that was reported with this outcome.
pub(crate) fn state_after(outcome: Outcome) -> PieceState
    ensures { result ≡ state_of outcome }
{
    match outcome {
        Outcome::Clear => PieceState::Clear,
        Outcome::Hit(test) => PieceState::Hit(test),
    }
}
