//! Cases of seats that never met, and see what the others have done.

use crate::checks::check_ok;
use crate::ledger::staffed::Staffed;
use fault_ledger::{Call, Claim, Finish, LedgerFault, PieceState, Reply, Shape, Status};
use patterns::Outcome;
use patterns::Outcome::{Clear, Hit};
use std::alloc::Global;

/// A step of the seats of a ledger. First comes the worker of the seat.
#[derive(Clone, Copy)]
enum Step {
    /// Its claim gives the piece of this class and block.
    Claims(u32, u32, u32),
    /// It reports this outcome of the piece that it holds.
    Reports(u32, Outcome),
    /// It drops the piece that it holds.
    Drops(u32),
    /// It finds this at the piece of this class and block.
    Looks(u32, (u32, u32), PieceState),
    /// It finds this status of class 0.
    Asks(u32, Status),
    /// It finds that all classes are settled.
    IsFinished(u32),
}

/// Steps on a new ledger.
struct Case {
    name: &'static str,
    shape: Shape,
    steps: &'static [Step],
}

static CASES: [Case; 4] = [
    Case {
        name: "a_seat_sees_a_hit_of_one_it_never_met",
        shape: Shape {
            classes: 1,
            tests: 65,
            workers: 2,
        },
        steps: &[
            Step::Claims(0, 0, 0),
            Step::Claims(1, 0, 1),
            Step::Reports(0, Hit(5)),
            Step::Looks(1, (0, 0), PieceState::Hit(5)),
            Step::Drops(1),
            Step::Looks(0, (0, 1), PieceState::Skipped),
            Step::Asks(1, Status::Settled(Some(5))),
            Step::IsFinished(1),
        ],
    },
    Case {
        name: "seats_ask_of_a_hit_of_one_they_never_met",
        shape: Shape {
            classes: 1,
            tests: 65,
            workers: 3,
        },
        steps: &[
            Step::Claims(0, 0, 0),
            Step::Reports(0, Hit(5)),
            Step::Asks(1, Status::Settled(Some(5))),
            Step::IsFinished(2),
        ],
    },
    // Block 5 has a hit before block 2.
    Case {
        name: "blocks_out_of_order",
        shape: Shape {
            classes: 1,
            tests: 512,
            workers: 8,
        },
        steps: &[
            Step::Claims(0, 0, 0),
            Step::Claims(1, 0, 1),
            Step::Claims(2, 0, 2),
            Step::Claims(3, 0, 3),
            Step::Claims(4, 0, 4),
            Step::Claims(5, 0, 5),
            Step::Claims(6, 0, 6),
            Step::Claims(7, 0, 7),
            Step::Reports(5, Hit(3)),
            Step::Drops(7),
            Step::Reports(2, Hit(0)),
            Step::Reports(0, Clear),
            Step::Asks(3, Status::Waiting(1)),
            Step::Reports(1, Clear),
            Step::Asks(4, Status::Settled(Some(128))),
            Step::IsFinished(6),
        ],
    },
    // Claims go through the classes of a block before the next block.
    Case {
        name: "seats_look_at_pieces_of_several_classes",
        shape: Shape {
            classes: 3,
            tests: 128,
            workers: 2,
        },
        steps: &[
            Step::Claims(0, 0, 0),
            Step::Reports(0, Clear),
            Step::Claims(0, 1, 0),
            Step::Reports(0, Hit(1)),
            Step::Claims(0, 2, 0),
            Step::Claims(1, 0, 1),
            Step::Reports(1, Hit(63)),
            Step::Claims(1, 1, 1),
            Step::Drops(1),
            Step::Looks(1, (0, 0), PieceState::Clear),
            Step::Looks(1, (1, 0), PieceState::Hit(1)),
            Step::Looks(1, (2, 0), PieceState::Open),
            Step::Looks(0, (0, 1), PieceState::Hit(63)),
            Step::Looks(0, (1, 1), PieceState::Skipped),
            Step::Looks(0, (2, 1), PieceState::Open),
        ],
    },
];

/// Takes a step, and returns whether it comes out so.
fn comes_true(staffed: &mut Staffed, step: Step) -> bool {
    match step {
        Step::Claims(worker, class, block) => {
            let claimed = Reply::Claimed(Claim::Piece { class, block });
            staffed.reply_with(worker, Call::Claim(worker)) == claimed
        }
        Step::Reports(worker, outcome) => {
            staffed.reply_with(worker, Call::Report(worker, outcome)) == Reply::Done
        }
        Step::Drops(worker) => staffed.reply_with(worker, Call::Drop(worker)) == Reply::Done,
        Step::Looks(worker, (class, block), state) => {
            staffed.look(worker, class, block) == Some(state)
        }
        Step::Asks(worker, status) => {
            staffed.reply_with(worker, Call::Status(0)) == Reply::Status(status)
        }
        Step::IsFinished(worker) => {
            staffed.reply_with(worker, Call::Finished) == Reply::Finish(Finish::Finished)
        }
    }
}

/// Returns whether all steps of a case come out so.
fn come_true(alloc: Global, case: &Case) -> Result<bool, LedgerFault> {
    let mut staffed = Staffed::new(alloc, case.shape)?;
    for step in case.steps {
        if !comes_true(&mut staffed, *step) {
            return Ok(false);
        }
    }
    Ok(true)
}

#[test]
fn seats_do_what_each_case_says(rt: HostRuntime) {
    for case in &CASES {
        check_ok(&rt, come_true(rt.alloc(), case), case.name);
    }
}
