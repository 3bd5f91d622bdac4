//! Workers in threads of their own on one ledger.

ghost use Rattle.std.specs.Prelude.{◌≡◌, ◌<◌, All, IfOk};
ghost use Rattle.fault_ledger.specs.History.{block_count};

use crate::checks::check_ok;
use crate::ledger::staffed::Staffed;
use fault_ledger::{
    Claim, Closed, Finish, LedgerFault, PieceState, Seat, Shape, SharedLedger, Status,
};
use patterns::Outcome;
use patterns::Outcome::{Clear, Hit};
use std::alloc::{AllocError, Global};
use std::sync::atomic::{AtomicU64, Ordering};
use std::thread;
use std::thread::Threads;

/// The number of workers.
const WORKERS: u32 = 8;

/// 400 classes on 64 blocks, which are 25,600 pieces.
const SHAPE: Shape = Shape {
    classes: 400,
    tests: 4_096,
    workers: WORKERS,
};

const PIECES: u64 = 25_600;

/// The counts that the workers share beside the ledger.
#[derive(Drop)]
struct Counts {
    arrived: AtomicU64,
    claims: AtomicU64,
}

impl Counts {
    /// Waits a while, until all workers are there.
    fn gather(&self) {
        self.arrived.fetch_add(1, Ordering::SeqCst);
        for _ in 0..1_000_000 {
            if self.arrived.load(Ordering::SeqCst) >= u64::from(WORKERS) {
                return;
            }
        }
    }
}

/// Returns the outcome of a piece: of 16 pieces about three are hits.
fn outcome_of(class: u32, block: u32) -> Outcome {
    let number = 7 * u64::from(class) + 11 * u64::from(block);
    if number % 16 < 3 {
        Hit((number % 64) as u32)
    } else {
        Clear
    }
}

/// Claims and reports until all pieces are claimed. Workers of an odd number drop if they can.
fn work(ledger: &SharedLedger, counts: &Counts, mut seat: Seat) -> Seat
    requires { seat.place ≡ ledger.now }
    ensures { result.place ≡ ledger.now }
{
    counts.gather();
    for _ in 0..=PIECES {
        let Ok(Claim::Piece { class, block }) = ledger.claim(&mut seat) else {
            break;
        };
        counts.claims.fetch_add(1, Ordering::SeqCst);
        let is_dropped = seat.worker() % 2 == 1 && ledger.drop_piece(&mut seat).is_ok();
        if !is_dropped && ledger.report(&mut seat, outcome_of(class, block)).is_err() {
            break;
        }
    }
    seat
}

/// Lets each worker work in a thread of its own, if one can be started, and returns the seats.
fn in_threads<R: Threads + Sync>(
    rt: &R,
    ledger: &SharedLedger,
    counts: &Counts,
    seats: Vec<Seat>,
) -> Result<Vec<Seat>, AllocError>
    requires { All (λ seat. seat.place ≡ ledger.now) seats.items }
    ensures { IfOk result (λ back. All (λ seat. seat.place ≡ ledger.now) back.items) }
{
    thread::map_vec(
        rt,
        seats,
        &move |seat: Seat| -> Seat
            requires { seat.place ≡ ledger.now }
            ensures { result.place ≡ ledger.entry.now }
        { work(ledger, counts, seat) },
    )
}

/// Returns whether the state of a piece is its outcome, or it was dropped after a hit.
fn is_as_reported(class: u32, block: u32, state: PieceState, is_hit: bool) -> bool {
    match (state, outcome_of(class, block)) {
        (PieceState::Skipped, _) => is_hit,
        (PieceState::Clear, Clear) => true,
        (PieceState::Hit(test), Hit(want)) => test == want,
        _ => false,
    }
}

/// Returns the test of a hit of a block.
fn test_of(state: PieceState, block: u32) -> Option<u32> {
    match state {
        PieceState::Hit(test) => Some(test.wrapping_add(block.wrapping_mul(64))),
        _ => None,
    }
}

/// Returns whether a class of a closed ledger is settled at its first hit, and its pieces are as
/// they were reported.
fn is_settled(closed: &Closed, blocks: u32, class: u32) -> bool
    requires class { class < closed.now.shape.classes }
    requires blocks { block_count closed.now.shape ≡ blocks }
{
    let mut first = None;
    for block in 0..blocks {
        let state = closed.entry(class, block);
        if !is_as_reported(class, block, state, first.is_some()) {
            return false;
        }
        first = first.or(test_of(state, block));
    }
    closed.status(class) == Status::Settled(first)
}

/// Returns whether all classes of a closed ledger are settled so.
fn are_settled(closed: &Closed, classes: u32, blocks: u32) -> bool
    requires classes { closed.now.shape.classes ≡ classes }
    requires blocks { block_count closed.now.shape ≡ blocks }
{
    for class in 0..classes {
        if !is_settled(closed, blocks, class) {
            return false;
        }
    }
    closed.finished() == Finish::Finished
}

/// Returns the ledger of a shape on which all workers have worked, closed.
fn closed_after<R: Threads + Sync>(
    rt: &R,
    alloc: Global,
    shape: Shape,
    counts: &Counts,
) -> Result<Closed, LedgerFault>
    ensures { IfOk result (λ closed. closed.shape ≡ shape) }
{
    let Staffed {
        shape,
        ledger,
        seats,
    } = Staffed::new(alloc, shape)?;
    let seats = in_threads(rt, &ledger, counts, seats)?;
    let staffed = Staffed {
        shape,
        ledger,
        seats,
    };
    staffed.close(alloc)
}

/// Returns whether workers in threads claim each piece of a ledger of this shape once, and leave
/// each class settled at its first hit.
fn agree<R: Threads + Sync>(rt: &R, alloc: Global, shape: Shape) -> Result<bool, LedgerFault> {
    let counts = Counts {
        arrived: AtomicU64::new(0),
        claims: AtomicU64::new(0),
    };
    let closed = closed_after(rt, alloc, shape, &counts)?;
    let blocks = shape.tests.div_ceil(64);
    Ok(
        are_settled(&closed, shape.classes, blocks)
            && counts.claims.load(Ordering::SeqCst) == PIECES,
    )
}

#[test]
fn many_threads_agree_with_the_outcomes(rt: HostRuntime) {
    check_ok(&rt, agree(&rt, rt.alloc(), SHAPE), "many threads");
}
