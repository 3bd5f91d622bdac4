//! A shared ledger with its seats.

ghost use Rattle.std.specs.Prelude.{◌≡◌, All, IfOk};

use fault_ledger::{
    Call, Claim, Closed, LedgerFault, PieceState, Refusal, Reply, Seat, Shape, SharedLedger,
};
use std::alloc::Global;

/// A shared ledger with the seats of all its workers, worker w at place w.
#[derive(Drop)]
pub(crate) struct Staffed {
    pub(crate) shape: Shape,
    pub(crate) ledger: SharedLedger,
    pub(crate) seats: Vec<Seat>,
    ghost sized: { ledger.shape ≡ shape },
    ghost seated: { All (λ seat. seat.place ≡ ledger) seats.items },
}

impl Staffed {
    pub(crate) fn new(alloc: Global, shape: Shape) -> Result<Staffed, LedgerFault>
        ensures { IfOk result (λ staffed. staffed.shape ≡ shape) }
    {
        let (ledger, seats) = SharedLedger::new(alloc, shape.classes, shape.tests, shape.workers)?;
        Ok(Staffed {
            shape,
            ledger,
            seats,
        })
    }

    /// Returns the reply to a call that is made with the seat of this worker.
    pub(crate) fn reply_with(&mut self, worker: u32, call: Call) -> Reply {
        let Some(seat) = self.seats.get_mut(worker as usize) else {
            return Reply::Refused(Refusal::NoSuchWorker);
        };
        match call {
            Call::Claim(_) => match self.ledger.claim(seat) {
                Ok(claim) => Reply::Claimed(claim),
                Err(refusal) => Reply::Refused(refusal),
            },
            Call::Report(_, outcome) => reply_of(self.ledger.report(seat, outcome)),
            Call::Drop(_) => reply_of(self.ledger.drop_piece(seat)),
            Call::Status(class) => {
                if class < self.shape.classes {
                    Reply::Status(self.ledger.status(seat, class))
                } else {
                    Reply::Refused(Refusal::NoSuchClass)
                }
            }
            Call::Finished => Reply::Finish(self.ledger.finished(seat)),
        }
    }

    /// Returns the state of a piece by a look of this worker's seat, if there is such a piece.
    pub(crate) fn look(&mut self, worker: u32, class: u32, block: u32) -> Option<PieceState> {
        let seat = self.seats.get_mut(worker as usize)?;
        if class >= self.shape.classes || block >= self.shape.tests.div_ceil(64) {
            return None;
        }
        Some(self.ledger.look(seat, class, block))
    }

    pub(crate) fn close(self, alloc: Global) -> Result<Closed, LedgerFault>
        ensures { IfOk result (λ closed. closed.shape ≡ self.shape) }
    {
        let Staffed {
            shape: _,
            ledger,
            seats,
        } = self;
        if seats.is_empty() {
            return Err(LedgerFault::NoWorkers);
        }
        ledger.close(alloc, seats)
    }
}

fn reply_of(done: Result<(), Refusal>) -> Reply {
    match done {
        Ok(()) => Reply::Done,
        Err(refusal) => Reply::Refused(refusal),
    }
}
