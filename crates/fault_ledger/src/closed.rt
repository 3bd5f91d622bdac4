//! A shared ledger after it is closed.

ghost use Rattle.std.specs.Prelude.{◌≡◌, ◌<◌, count_by, map, slice_index, IfOk, None};
ghost use Rattle.fault_ledger.specs.History.{History, block_count, entry, piece_at};
ghost use Rattle.fault_ledger.specs.Answer.{IsLegal};
ghost use Rattle.fault_ledger.specs.Settled.{status, finish, is_skipped};
ghost use Rattle.fault_ledger.specs.Face.{shape_fault};
ghost use Rattle.fault_ledger.specs.Heads.{IsHead, state_in};
ghost use Rattle.fault_ledger.specs.Seats.{AreStates, closed_face, closed_of};
ghost use Rattle.fault_ledger.specs.Words as rule;

use crate::words::{SKIPPED, state_at};
use crate::{Finish, PieceState, Shape, Status};
use patterns::BLOCK_SIZE;
use std::alloc::{AllocError, Global};
use std::marker::Model;

/// A closed ledger: the state of each piece.
#[derive(Debug, Drop)]
pub struct Closed {
    shape: Shape,
    // The code of each piece's state, as in its word.
    codes: Vec<u8>,
    // For each class that has a piece the number of its first blocks that are clear.
    clear_blocks: Vec<u32>,
}

impl Model for Closed {
    ghost use Rattle.std.specs.Prelude.{◌≡◌, map, None};
    ghost use Rattle.fault_ledger.specs.Face.{shape_fault};
    ghost use Rattle.fault_ledger.specs.Heads.{AreHeads};
    ghost use Rattle.fault_ledger.specs.Seats.{ClosedFace, AreStates, closed_of};
    ghost use Rattle.fault_ledger.specs.Words as rule;

    ghost Value = { ClosedFace };

    ghost view = { λ c. closed_of c.shape (map rule.state_at c.codes.items) };

    ghost invariant = { λ c. (shape_fault c.shape ≡ None)
        × AreStates c.shape (map rule.state_at c.codes.items)
        × AreHeads c.shape (map rule.state_at c.codes.items) c.clear_blocks.items };
}

impl Closed {
    /// Returns the states of all pieces of a ledger of this shape, by their codes.
    pub(crate) fn of(alloc: Global, shape: Shape, codes: Vec<u8>) -> Result<Closed, AllocError>
        requires limits { shape_fault shape ≡ None }
        requires states { AreStates shape (map rule.state_at codes.items) }
        ensures { IfOk result (λ closed.
            closed ≡ closed_of shape (map rule.state_at codes.items)) }
    {
        let with_pieces = shape.classes_with_pieces();
        let mut clear_blocks = Vec::with_capacity(alloc, with_pieces as usize)?;
        for class in 0..with_pieces {
            clear_blocks.push(clear_head(shape, &codes, class))?;
        }
        Ok(Closed {
            shape,
            codes,
            clear_blocks,
        })
    }

    /// Returns the state of a piece.
    pub fn entry(&self, class: u32, block: u32) -> PieceState
        requires { (class < self.now.shape.classes) × (block < block_count self.now.shape) }
        ensures states { AreStates self.now.shape self.now.states }
        ensures entry { (h : History) → self.now ≡ closed_face self.now.shape h
            → result ≡ entry (piece_at self.now.shape class block) h }
    {
        state_of(self.shape, &self.codes, class, block)
    }

    /// Returns at which test a class is settled, else the block that it waits for. It takes
    /// constant time.
    pub fn status(&self, class: u32) -> Status
        requires { class < self.now.shape.classes }
        ensures states { AreStates self.now.shape self.now.states }
        ensures status { (h : History) → IsLegal self.now.shape h
            → self.now ≡ closed_face self.now.shape h → result ≡ status self.now.shape h class }
    {
        let clear = clear_of(&self.clear_blocks, class);
        if clear == self.shape.blocks() {
            return Status::Settled(None);
        }
        match state_of(self.shape, &self.codes, class, clear) {
            PieceState::Hit(test) => Status::Settled(Some(BLOCK_SIZE * clear + test)),
            PieceState::Open => Status::Waiting(clear),
            // The block isn't clear.
            PieceState::Clear => unreachable!(),
            // A skipped piece comes after a hit of its class.
            PieceState::Skipped => unreachable!(),
        }
    }

    /// Returns `Finished` if all classes are settled, else the lowest class that isn't, with the
    /// block that it waits for. It takes at most the time of [`Closed::status`] for that class and
    /// each lower one, and constant time if there is no piece.
    pub fn finished(&self) -> Finish
        ensures states { AreStates self.now.shape self.now.states }
        ensures finish { (h : History) → IsLegal self.now.shape h
            → self.now ≡ closed_face self.now.shape h → result ≡ finish self.now.shape h }
    {
        if self.shape.pieces() == 0 {
            return Finish::Finished;
        }
        for class in 0..self.shape.classes {
            if let Status::Waiting(block) = self.status(class) {
                return Finish::Waiting { class, block };
            }
        }
        Finish::Finished
    }

    /// Returns the number of pieces that were dropped. It looks at each piece.
    pub fn skipped(&self) -> u32
        ensures { result ≡ count_by is_skipped self.now.states }
    {
        let mut skipped = 0;
        for piece in 0..self.codes.len() {
            if u64::from(self.codes[piece]) == SKIPPED {
                skipped += 1;
            }
        }
        skipped
    }
}

/// Returns the state of the piece of a class and a block, by the codes of all pieces.
fn state_of(shape: Shape, codes: &[u8], class: u32, block: u32) -> PieceState
    requires limits { shape_fault shape ≡ None }
    requires states { AreStates shape (map rule.state_at codes.now) }
    requires range { (class < shape.classes) × (block < block_count shape) }
    ensures { result ≡ state_in shape (map rule.state_at codes.now) class block }
{
    let piece = class + shape.classes * block;
    let code = codes[piece as usize];
    state_at(u64::from(code))
}

/// Returns the number of first blocks of a class that are clear: none if the class has no piece.
fn clear_of(clear_blocks: &[u32], class: u32) -> u32
    ensures { result ≡ slice_index clear_blocks.now class }
{
    match clear_blocks.get(class as usize) {
        Some(clear) => *clear,
        None => 0,
    }
}

/// Returns the number of first blocks of a class that are clear, by the codes of all pieces.
fn clear_head(shape: Shape, codes: &[u8], class: u32) -> u32
    requires limits { shape_fault shape ≡ None }
    requires states { AreStates shape (map rule.state_at codes.now) }
    requires range { class < shape.classes }
    ensures { IsHead shape (map rule.state_at codes.now) class result }
{
    let blocks = shape.blocks();
    for block in 0..blocks {
        let PieceState::Clear = state_of(shape, codes, class, block) else {
            return block;
        };
    }
    blocks
}
