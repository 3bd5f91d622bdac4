//! A list of calls, played over a new ledger.

ghost use Rattle.std.specs.Prelude.{◌≡◌, [], IfOk, IfErr, Some, None};
ghost use Rattle.patterns.specs.Least.{Table};
ghost use Rattle.fault_ledger.specs.Answer.{replies, after_all, IsLegal, IsTrueTo, SettlesAtLeast};
ghost use Rattle.fault_ledger.specs.Answer.{SkippedIsNeverFirst, done_reply_of};
ghost use Rattle.fault_ledger.specs.Face.{face, shape_fault, Answers};

use crate::{Call, Ledger, LedgerFault, Refusal, Reply, Shape};
use std::alloc::Global;

/// Returns the replies to a list of calls of a new ledger, in order, and the ledger after them.
///
/// The reply to a call with a worker or a class out of range is [`Reply::Refused`], and the later
/// calls go on. `replay` fails as [`Ledger::new`] does, and if there is no memory for the replies.
pub fn replay(
    alloc: Global,
    shape: Shape,
    calls: &[Call],
) -> Result<(Ledger, Vec<Reply>), LedgerFault>
    ensures replies { IfOk result (λ done. done.1.items ≡ replies shape [] calls.now) }
    ensures face { IfOk result (λ done. done.0 ≡ face shape (after_all shape [] calls.now)) }
    ensures legal { IfOk result (λ _. IsLegal shape (after_all shape [] calls.now)) }

    // Over every table of outcomes to which the reports are true, a settled class is settled at its
    // least test.
    ensures least { IfOk result (λ _. (table : Table)
        → IsTrueTo shape table (after_all shape [] calls.now)
        → SettlesAtLeast shape table (after_all shape [] calls.now)) }
    ensures skipped { IfOk result (λ _. SkippedIsNeverFirst shape (after_all shape [] calls.now)) }

    ensures refused { (fault : LedgerFault) → shape_fault shape ≡ Some fault → result ≡ Err fault }
    ensures memory { shape_fault shape ≡ None → IfErr result (λ fault. fault ≡ LedgerFault.Memory) }
{
    let mut ledger = Ledger::new(alloc, shape.classes, shape.tests, shape.workers)?;
    let mut replies = Vec::with_capacity(alloc, calls.len())?;
    for call in calls {
        replies.push(reply_to(&mut ledger, *call))?;
    }
    Ok((ledger, replies))
}

/// Makes one call, and returns its reply.
fn reply_to(ledger: &mut Ledger, call: Call) -> Reply
    ensures { Answers ledger.old call result ledger.new }
{
    match call {
        Call::Claim(worker) => match ledger.claim(worker) {
            Ok(claim) => Reply::Claimed(claim),
            Err(refusal) => Reply::Refused(refusal),
        },
        Call::Report(worker, outcome) => reply_of(ledger.report(worker, outcome)),
        Call::Drop(worker) => reply_of(ledger.drop_piece(worker)),
        Call::Status(class) => {
            if class < ledger.shape().classes {
                Reply::Status(ledger.status(class))
            } else {
                Reply::Refused(Refusal::NoSuchClass)
            }
        }
        Call::Finished => Reply::Finish(ledger.finished()),
    }
}

/// Returns the reply for the result of a report or a drop.
fn reply_of(done: Result<(), Refusal>) -> Reply
    ensures { result ≡ done_reply_of done }
{
    match done {
        Ok(()) => Reply::Done,
        Err(refusal) => Reply::Refused(refusal),
    }
}
