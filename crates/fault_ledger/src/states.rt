//! The status of the classes by the states of all pieces.

ghost use Rattle.std.specs.Prelude.{◌≡◌, ◌<◌, None};
ghost use Rattle.fault_ledger.specs.History.{History, states_of};
ghost use Rattle.fault_ledger.specs.Answer.{IsLegal};
ghost use Rattle.fault_ledger.specs.Settled.{status, finish};
ghost use Rattle.fault_ledger.specs.Face.{shape_fault};
ghost use Rattle.fault_ledger.specs.Seats.{AreStates};

use crate::{Finish, PieceState, Shape, Status};
use patterns::BLOCK_SIZE;

/// Returns at which test a class is settled, else the block that it waits for.
pub(crate) fn status_in(shape: Shape, states: &[PieceState], class: u32) -> Status
    requires limits { shape_fault shape ≡ None }
    requires states { AreStates shape states.now }
    requires range { class < shape.classes }
    ensures { (h : History) → IsLegal shape h → states.now ≡ states_of shape h
        → result ≡ status shape h class }
{
    for block in 0..shape.blocks() {
        let piece = class + shape.classes * block;
        match states[piece as usize] {
            PieceState::Clear => {}
            PieceState::Hit(test) => return Status::Settled(Some(BLOCK_SIZE * block + test)),
            PieceState::Open => return Status::Waiting(block),
            // A skipped piece comes after a hit of its class.
            PieceState::Skipped => unreachable!(),
        }
    }
    Status::Settled(None)
}

/// Returns `Finished` if all classes are settled, else the lowest class that isn't, with the block
/// that it waits for.
pub(crate) fn finish_in(shape: Shape, states: &[PieceState]) -> Finish
    requires limits { shape_fault shape ≡ None }
    requires states { AreStates shape states.now }
    ensures { (h : History) → IsLegal shape h → states.now ≡ states_of shape h
        → result ≡ finish shape h }
{
    if shape.pieces() == 0 {
        return Finish::Finished;
    }
    for class in 0..shape.classes {
        if let Status::Waiting(block) = status_in(shape, states, class) {
            return Finish::Waiting { class, block };
        }
    }
    Finish::Finished
}
