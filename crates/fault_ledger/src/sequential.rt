//! The ledger of one owner.

ghost use Rattle.std.specs.Prelude.{ℕ, ◌≡◌, ◌⊎◌, ◌<◌, ◌≤◌, if◌then◌else◌, min, [], length};
ghost use Rattle.std.specs.Prelude.{slice_get, IfOk, IfErr, OnErr, Some, None};
ghost use Rattle.std.specs.Option.{option_map};
ghost use Rattle.fault_ledger.specs.declared.Call.{Call};
ghost use Rattle.fault_ledger.specs.declared.Reply.{Reply};
ghost use Rattle.fault_ledger.specs.Answer.{is_hit, claim_reply_of, done_reply_of};
ghost use Rattle.fault_ledger.specs.History.{History, held_by, state_of};
ghost use Rattle.fault_ledger.specs.Seats.{class_and_block};
ghost use Rattle.fault_ledger.specs.Face.{face, shape_of, shape_fault, Answers, IsLedger};

use crate::states::{finish_in, status_in};
use crate::{Claim, Finish, LedgerFault, PieceState, Refusal, Shape, Status, state_after};
use patterns::Outcome;
use std::alloc::Global;
use std::marker::Model;

/// A ledger with one owner.
///
/// The n-th claim, counted from 0, is for the piece of class `n % classes` and block `n / classes`.
/// Only [`Ledger::new`] takes memory: 8 bytes a piece, 8 a worker, and 4 a class that has a piece.
#[derive(Debug, Drop)]
pub struct Ledger {
    shape: Shape,
    claimed: u32,
    holding: Vec<Option<u32>>,
    states: Vec<PieceState>,
    // For each class the lowest of its blocks that is a hit, or the number of blocks if none is.
    lowest_hits: Vec<u32>,
}

impl Model for Ledger {
    ghost use Rattle.fault_ledger.specs.Face.{Face, IsLedger};
    ghost use Rattle.fault_ledger.specs.Lowest.{AreLowestHits};

    ghost Value = { Face };

    ghost view = { λ l. record {
      shape = l.shape;
      claimed = l.claimed;
      holding = l.holding.items;
      states = l.states.items;
    } };

    ghost invariant = { λ l. IsLedger (record {
      shape = l.shape;
      claimed = l.claimed;
      holding = l.holding.items;
      states = l.states.items;
    }) × AreLowestHits l.shape l.states.items l.lowest_hits.items };
}

impl Ledger {
    /// Makes a ledger of these numbers of fault classes, tests and workers, without claims.
    ///
    /// # Errors
    ///
    /// The first that applies: [`LedgerFault::NoWorkers`]; [`LedgerFault::TooManyWorkers`] above 64
    /// workers; [`LedgerFault::TooManyPieces`] above 16,777,216 pieces; [`LedgerFault::Memory`].
    pub fn new(alloc: Global, classes: u32, tests: u32, workers: u32) -> Result<Ledger, LedgerFault>
        ensures face { IfOk result (λ ledger. ledger ≡ face (shape_of classes tests workers) []) }
        ensures refused { (fault : LedgerFault)
            → shape_fault (shape_of classes tests workers) ≡ Some fault → result ≡ Err fault }
        ensures memory { shape_fault (shape_of classes tests workers) ≡ None
            → IfErr result (λ fault. fault ≡ LedgerFault.Memory) }
    {
        let shape = Shape {
            classes,
            tests,
            workers,
        };
        if let Some(fault) = shape.fault() {
            return Err(fault);
        }
        let holding = vec![in alloc; None; workers as usize]?;
        let states = vec![in alloc; PieceState::Open; shape.pieces() as usize]?;
        let lowest_hits = vec![in alloc; shape.blocks(); shape.classes_with_pieces() as usize]?;
        Ok(Ledger {
            shape,
            claimed: 0,
            holding,
            states,
            lowest_hits,
        })
    }

    /// Returns the numbers of classes, tests and workers.
    pub fn shape(&self) -> Shape
        ensures shape { result ≡ self.now.shape }
        ensures ledger { IsLedger self.now }
    {
        self.shape
    }

    /// Returns the class and the block of the piece that a worker holds.
    pub fn held(&self, worker: u32) -> Option<(u32, u32)>
        requires { worker < self.now.shape.workers }
        ensures held { (h : History) → self.now ≡ face self.now.shape h
            → result ≡ option_map {U = ℕ × ℕ} (class_and_block self.now.shape) (held_by worker h) }
        ensures ledger { IsLedger self.now }
    {
        match self.holding[worker as usize] {
            Some(piece) => Some((piece % self.shape.classes, piece / self.shape.classes)),
            None => None,
        }
    }

    /// Claims the next piece for a worker that holds none, or returns [`Claim::Exhausted`] if all
    /// are claimed. It takes constant time.
    ///
    /// # Errors
    ///
    /// [`Refusal::NoSuchWorker`], else [`Refusal::Holding`].
    pub fn claim(&mut self, worker: u32) -> Result<Claim, Refusal>
        ensures answer { Answers self.old (Call.Claim worker) (claim_reply_of result) self.new }
        ensures exhausted { result ≡ Ok Claim.Exhausted → self.new ≡ self.old }
        ensures shape { self.new.shape ≡ self.old.shape }
        ensures refused { OnErr result (self.new ≡ self.old) }
    {
        if worker >= self.shape.workers {
            return Err(Refusal::NoSuchWorker);
        }
        if self.holding[worker as usize].is_some() {
            return Err(Refusal::Holding);
        }
        let piece = self.claimed;
        if piece as usize >= self.states.len() {
            return Ok(Claim::Exhausted);
        }
        self.holding[worker as usize] = Some(piece);
        self.claimed = piece + 1;
        Ok(Claim::Piece {
            class: piece % self.shape.classes,
            block: piece / self.shape.classes,
        })
    }

    /// Reports a worker's outcome of the piece that it holds; the worker then holds no piece. It
    /// takes constant time.
    ///
    /// # Errors
    ///
    /// [`Refusal::NoSuchWorker`], else [`Refusal::NothingHeld`], else [`Refusal::BadOutcome`] if
    /// the outcome names a test that the piece's block doesn't have; the worker then still holds
    /// the piece.
    pub fn report(&mut self, worker: u32, outcome: Outcome) -> Result<(), Refusal>
        ensures answer { Answers self.old (Call.Report worker outcome) (done_reply_of result)
            self.new }
        ensures shape { self.new.shape ≡ self.old.shape }
        ensures refused { OnErr result (self.new ≡ self.old) }
    {
        let piece = piece_held(&self.holding, worker)?;
        let block = piece / self.shape.classes;
        if !self.shape.takes(block, outcome) {
            return Err(Refusal::BadOutcome);
        }
        let class = (piece % self.shape.classes) as usize;
        self.lowest_hits[class] = lowest_hit_after(self.lowest_hits[class], block, outcome);
        self.holding[worker as usize] = None;
        self.states[piece as usize] = state_after(outcome);
        Ok(())
    }

    /// Skips the piece that a worker holds; the worker then holds no piece. It takes constant time.
    ///
    /// # Errors
    ///
    /// [`Refusal::NoSuchWorker`], else [`Refusal::NothingHeld`], else [`Refusal::NoEarlierHit`] if
    /// no earlier block of the class is a hit; the worker then still holds the piece. A drop of a
    /// piece of block 0 always fails.
    pub fn drop_piece(&mut self, worker: u32) -> Result<(), Refusal>
        ensures answer { Answers self.old (Call.Drop worker) (done_reply_of result) self.new }
        ensures shape { self.new.shape ≡ self.old.shape }
        ensures refused { OnErr result (self.new ≡ self.old) }
    {
        let piece = piece_held(&self.holding, worker)?;
        let class = (piece % self.shape.classes) as usize;
        if self.lowest_hits[class] >= piece / self.shape.classes {
            return Err(Refusal::NoEarlierHit);
        }
        self.holding[worker as usize] = None;
        self.states[piece as usize] = PieceState::Skipped;
        Ok(())
    }

    /// Returns at which test a class is settled, else the block that it waits for. It looks at the
    /// blocks of the class up to the first that isn't clear.
    pub fn status(&self, class: u32) -> Status
        requires { class < self.now.shape.classes }
        ensures { Answers self.now (Call.Status class) (Reply.Status result) self.now }
    {
        status_in(self.shape, &self.states, class)
    }

    /// Returns `Finished` if all classes are settled, else the lowest class that isn't, with the
    /// block that it waits for. It takes at most the time of [`Ledger::status`] for that class and
    /// each lower one, and constant time if there is no piece.
    pub fn finished(&self) -> Finish
        ensures { Answers self.now Call.Finished (Reply.Finish result) self.now }
    {
        finish_in(self.shape, &self.states)
    }
}

/// Returns the piece that a worker holds.
fn piece_held(holding: &[Option<u32>], worker: u32) -> Result<u32, Refusal>
    ensures held { IfOk result (λ piece. slice_get holding.now worker ≡ Some (Some piece)) }
    ensures refused { IfErr result (λ refusal.
        ((refusal ≡ Refusal.NoSuchWorker) × (length holding.now ≤ worker))
        ⊎ ((refusal ≡ Refusal.NothingHeld) × (slice_get holding.now worker ≡ Some None))) }
{
    match holding.get(worker as usize) {
        None => Err(Refusal::NoSuchWorker),
        Some(None) => Err(Refusal::NothingHeld),
        Some(Some(piece)) => Ok(*piece),
    }
}

/// Returns the lowest hit of a class, or its number of blocks, after the report of a block.
fn lowest_hit_after(lowest: u32, block: u32, outcome: Outcome) -> u32
    ensures { result ≡ if is_hit (state_of outcome) then min lowest block else lowest }
{
    match outcome {
        Outcome::Clear => lowest,
        Outcome::Hit(_) => lowest.min(block),
    }
}
