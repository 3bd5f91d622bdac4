//! Shapes that no ledger has, and a ledger of the most classes, without a piece.

use crate::checks::check_ok;
use crate::ledger::staffed::Staffed;
use fault_ledger::{
    Call, Claim, Finish, Ledger, LedgerFault, Refusal, Reply, Shape, SharedLedger, Status, replay,
};
use std::alloc::Global;

/// Numbers of classes, tests and workers, and the reason why there is no ledger of them.
static SHAPES: [(u32, u32, u32, LedgerFault); 2] = [
    (16_385, 65_536, 65, LedgerFault::TooManyWorkers),
    (u32::MAX, u32::MAX, 1, LedgerFault::TooManyPieces),
];

#[test]
fn limits_of_a_shape(rt: HostRuntime) {
    for (classes, tests, workers, fault) in &SHAPES {
        let owned = Ledger::new(rt.alloc(), *classes, *tests, *workers).err();
        let shared = SharedLedger::new(rt.alloc(), *classes, *tests, *workers).err();
        assert!(rt; owned == Some(*fault) && shared == Some(*fault));
    }
}

/// The most classes that a shape can have, and no tests: there is no piece.
const NO_PIECES: Shape = Shape {
    classes: u32::MAX,
    tests: 0,
    workers: 1,
};

/// The replies of both ledgers of that shape: all is claimed, and each class is settled at no test.
static NO_PIECES_REPLIES: [(Call, Reply); 4] = [
    (Call::Claim(0), Reply::Claimed(Claim::Exhausted)),
    (
        Call::Status(u32::MAX - 1),
        Reply::Status(Status::Settled(None)),
    ),
    (Call::Status(u32::MAX), Reply::Refused(Refusal::NoSuchClass)),
    (Call::Finished, Reply::Finish(Finish::Finished)),
];

/// Returns whether both ledgers of that shape have this reply to a single call.
fn is_replied(alloc: Global, call: Call, reply: Reply) -> Result<bool, LedgerFault> {
    let (_ledger, replies) = replay(alloc, NO_PIECES, &[call])?;
    let mut staffed = Staffed::new(alloc, NO_PIECES)?;
    Ok(replies.as_slice() == [reply].as_slice() && staffed.reply_with(0, call) == reply)
}

/// Returns whether a closed ledger of that shape is finished, with nothing skipped.
fn is_done(alloc: Global) -> Result<bool, LedgerFault> {
    let closed = Staffed::new(alloc, NO_PIECES)?.close(alloc)?;
    Ok(closed.finished() == Finish::Finished && closed.skipped() == 0)
}

/// A walk over all classes would take minutes, and a word for each of them 17 GB.
#[test]
fn classes_without_a_piece_take_no_time_and_memory(rt: HostRuntime) {
    for (call, reply) in &NO_PIECES_REPLIES {
        check_ok(&rt, is_replied(rt.alloc(), *call, *reply), "no_pieces");
    }
    check_ok(&rt, is_done(rt.alloc()), "no_pieces");
}
