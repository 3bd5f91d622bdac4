//! One worker.

ghost use Rattle.std.specs.Prelude.{◌≡◌, ◌⊎◌, ◌<◌, ◌≤◌, ℕ, true, false, Some, None};
ghost use Rattle.fault_ledger.specs.History.{block_count, held_by, piece_at};
ghost use Rattle.fault_ledger.specs.Seats.{FindsNoHit, IsSitter, Makes, Sees};
ghost use Rattle.fault_ledger.specs.declared.Event.{Event};
ghost use Rattle.fault_ledger.specs.declared.Reply.TheVariants.{Done};
ghost use Rattle.block_sim.specs.Parts.{HasRoom};
ghost use Rattle.workers.specs.Settling.{AreSettled, IsShapeOf};
ghost use Rattle.workers.specs.Work.{EndsAs, Works};

use crate::claim_backoff::Backoff;
use block_sim::{Job, Workspace, first_hit};
use fault_ledger::{Claim, Seat, SharedLedger, Status};

/// The end of a worker's work.
#[derive(Clone, Copy, Debug, PartialEq, Eq)]
pub enum End {
    /// All pieces were claimed.
    Exhausted,
    /// The worker has seen every class settled.
    AllSettled,
    /// The gate stopped the worker, which still holds its piece.
    Stopped,
}

/// A gate: a worker asks it before it begins a piece that it has claimed.
pub trait Gate {
    ghost use Rattle.workers.specs.Stops.{Stops};

    /// A claim about a gate: if it holds, [`Gate::pass`] lets every piece pass.
    ghost passing: { Self → Type 0 };

    /// The workers, classes and blocks for which [`Gate::pass`] may stop the worker, and for which
    /// it surely does.
    ghost stops: { Self → Stops };

    /// Returns whether the worker may go on with the piece.
    fn pass(&self, worker: u32, class: u32, block: u32) -> bool
        ensures passing { passing self.now → result ≡ true }
        ensures stopped { result ≡ false → (stops self.now).may worker class block }
        ensures shut { (stops self.now).must worker class block → result ≡ false };

    /// Returns whether the gate is known to let every piece pass. Only then does a run of
    /// `region_runs` go window by window, leave out dead classes, and settle several blocks of a
    /// class in one pass. It still asks the gate for these pieces.
    fn lets_all_pass(&self) -> bool
        ensures { result ≡ true → passing self.now }
    {
        false
    }

    /// Takes the blocks of a window when a run begins with it, from the first to before the end.
    /// All pieces on the blocks before are settled. Only a run in windows calls it.
    fn opens(&self, _first: u32, _end: u32) {}
}

/// A gate that lets every piece pass.
#[derive(Clone, Copy, Debug)]
pub struct OpenGate;

impl Gate for OpenGate {
    ghost use Rattle.workers.specs.Stops.{no_stop};

    ghost passing = { λ _. Unit {0} };

    ghost stops = { λ _. no_stop };

    fn pass(&self, _worker: u32, _class: u32, _block: u32) -> bool {
        true
    }

    fn lets_all_pass(&self) -> bool {
        true
    }
}

/// Drops the piece that the seat holds if an earlier block of its class was a hit, and returns
/// whether it did.
fn drop_held(ledger: &SharedLedger, seat: &mut Seat) -> bool
    requires place { seat.old.place ≡ ledger.now }
    requires sitter { IsSitter seat.old }
    requires piece { (piece : ℕ) × (held_by seat.old.worker seat.old.seen ≡ Some piece) }
    ensures dropped { result ≡ true
        → Makes seat.old (Event.Drop seat.old.worker) Done seat.new }
    ensures missed { result ≡ false → FindsNoHit seat.old seat.new }
{
    match ledger.drop_piece(seat) {
        Ok(()) => true,
        Err(_) => false,
    }
}

/// Drops the piece that the seat holds, or simulates it and reports.
fn finish_piece(
    job: &Job,
    ledger: &SharedLedger,
    workspace: &mut Workspace,
    seat: &mut Seat,
    class: u32,
    block: u32,
) -> bool
    requires shape { IsShapeOf job.now ledger.now.shape }
    requires place { seat.old.place ≡ ledger.now }
    requires piece { held_by seat.old.worker seat.old.seen
        ≡ Some (piece_at ledger.now.shape class block) }
    requires sitter { IsSitter seat.old }
    requires range { (class < ledger.now.shape.classes) × (block < block_count ledger.now.shape) }
    requires fits { HasRoom workspace.old job.now }
    ensures works { Works job.now seat.old seat.new }
    ensures exhausted { seat.new.exhausted ≡ seat.old.exhausted }
    ensures free { held_by seat.new.worker seat.new.seen ≡ None }
    ensures fits { HasRoom workspace.new job.now }
{
    let _parts = job.classes();
    if drop_held(ledger, seat) {
        return false;
    }
    let outcome = first_hit(job, workspace, class, block);
    let Ok(()) = ledger.report(seat, outcome) else {
        unreachable!()
    };
    true
}

/// Returns the lowest class from this one on that the seat doesn't see settled, or the number of
/// classes.
fn lowest_waiting(ledger: &SharedLedger, seat: &mut Seat, classes: u32, from: u32) -> u32
    requires place { seat.old.place ≡ ledger.now }
    requires sitter { IsSitter seat.old }
    requires classes { classes ≡ ledger.now.shape.classes }
    requires range { from ≤ classes }
    requires settled { AreSettled ledger.now.shape seat.old.seen from }
    ensures sees { Sees seat.old seat.old.exhausted seat.new }
    ensures settled { AreSettled ledger.now.shape seat.new.seen result }
    ensures range { result ≤ classes }
{
    for class in from..classes {
        if let Status::Waiting(_) = ledger.status(seat, class) {
            return class;
        }
    }
    classes
}

/// Works as one worker of a run: claims pieces until all are claimed, the gate stops it, or every
/// class is settled.
///
/// If others claim too and pieces take little work, a worker rests between two pieces, and holds
/// none meanwhile. It spins for 1,000 pauses of the processor times its number, at most 8,000,
/// about 400 microseconds. Worker 0 never rests.
pub fn work<G: Gate>(
    job: &Job,
    ledger: &SharedLedger,
    workspace: &mut Workspace,
    seat: &mut Seat,
    gate: &G,
) -> End
    requires shape { IsShapeOf job.now ledger.now.shape }
    requires place { seat.old.place ≡ ledger.now }
    requires free { held_by seat.old.worker seat.old.seen ≡ None }
    requires fits { HasRoom workspace.old job.now }
    ensures works { Works job.now seat.old seat.new }
    ensures ends { EndsAs (G.stops gate.now) seat.new result }
    ensures passing { G.passing gate.now → (result ≡ End.Exhausted) ⊎ (result ≡ End.AllSettled) }
    ensures fits { HasRoom workspace.new job.now }
{
    let _sitter = seat.worker();
    let classes = job.classes().count();
    let mut lowest = 0;
    let mut backoff = Backoff::of(seat.worker(), classes, workspace.gate_evaluations());
    'claims: loop {
        let worker = seat.worker();
        match ledger.claim(seat) {
            Ok(Claim::Piece { class, block }) => {
                if !gate.pass(worker, class, block) {
                    return End::Stopped;
                }
                let _sitter = seat.worker();
                let reported = finish_piece(job, ledger, workspace, seat, class, block);
                backoff.after_piece(class, block, workspace.gate_evaluations());
                if reported {
                    let _sitter = seat.worker();
                    lowest = lowest_waiting(ledger, seat, classes, lowest);
                    if lowest >= classes {
                        return End::AllSettled;
                    }
                }
            }
            Ok(Claim::Exhausted) => {
                let _sitter = seat.worker();
                return End::Exhausted;
            }
            Err(_) => unreachable!(),
        }
    }
}
