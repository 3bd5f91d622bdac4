//! The verdicts of a run.

ghost use Rattle.std.specs.Prelude.{◌≡◌, ◌<◌, ◌^◌, [], length, slice_get, IfErr, IfOk, Some};
ghost use Rattle.fault_ledger.specs.Answer.{IsLegal};
ghost use Rattle.fault_ledger.specs.History.{History};
ghost use Rattle.fault_ledger.specs.Settled.{status};
ghost use Rattle.workers.specs.Settling.{AreSettled, IsShapeOf};
ghost use Rattle.workers.specs.Verdict.{detected_count, verdicts};

use crate::RunFault;
use block_sim::Job;
use fault_ledger::{Closed, Ledger, Status};
use std::marker::Model;

/// For each fault the first test that detects it, or none. Faults and tests are numbered from 0.
#[derive(Debug, Drop)]
pub struct Verdicts {
    firsts: Vec<Option<u32>>,
    detected: u32,
    skipped: u64,
}

impl Model for Verdicts {
    ghost use Rattle.std.specs.Prelude.{◌≡◌, ◌<◌, ◌^◌, length};
    ghost use Rattle.workers.specs.Verdict.{VerdictList, detected_count as detected_in};

    ghost Value = { VerdictList };

    ghost view = { λ v. record { firsts = v.firsts.items; skipped = v.skipped } };

    ghost invariant = { λ v.
        (length v.firsts.items < 2 ^ 32) × (v.detected ≡ detected_in v.firsts.items) };
}

/// Returns the number of faults that a test detects. It takes no branch for a fault, because the
/// next fault's verdict is hard to guess.
fn count_detected(firsts: &[Option<u32>]) -> u32
    requires { length firsts.now < 2 ^ 32 }
    ensures { result ≡ detected_count firsts.now }
{
    let mut detected = 0;
    for first in firsts {
        detected += u32::from(first.is_some());
    }
    detected
}

impl Verdicts {
    /// Makes the verdicts of faults from their first tests, in the order of the uncollapsed list,
    /// and the number of skipped pieces.
    pub fn of(firsts: Vec<Option<u32>>, skipped: u64) -> Verdicts
        requires { length firsts.items < 2 ^ 32 }
        ensures firsts { result.firsts ≡ firsts.items }
        ensures skipped { result.skipped ≡ skipped }
    {
        let detected = count_detected(&firsts);
        Verdicts {
            firsts,
            detected,
            skipped,
        }
    }

    /// Returns the first test that detects a fault, or none if no test does. It takes constant
    /// time.
    pub fn first(&self, fault: u32) -> Option<u32>
        requires { fault < length self.now.firsts }
        ensures { slice_get self.now.firsts fault ≡ Some result }
    {
        self.firsts[fault as usize]
    }

    /// Returns the number of faults that a test detects. It takes constant time.
    pub fn detected(&self) -> u32
        ensures { result ≡ detected_count self.now.firsts }
    {
        let _firsts = &self.firsts;
        self.detected
    }

    /// Returns the number of faults of the uncollapsed list.
    pub fn total(&self) -> u32
        ensures { result ≡ length self.now.firsts }
    {
        self.firsts.len() as u32
    }

    /// Returns the number of pieces of work that were dropped because an earlier block of their
    /// class detects it.
    pub fn skipped(&self) -> u64
        ensures { result ≡ self.now.skipped }
    {
        self.skipped
    }
}

/// A ledger that gives the status of each class.
pub(crate) trait Statuses {
    ghost use Rattle.fault_ledger.specs.declared.Shape.{Shape};
    ghost use Rattle.fault_ledger.specs.History.{History};

    /// The numbers of the ledger.
    ghost shape_of: { Self → Shape };

    /// The ledger shows the state of each piece in a history.
    ghost Shows: { Self → History → Type 0 };

    /// Returns at which test a class is settled, else the block that it waits for.
    fn status_of(&self, class: u32) -> Status
        requires { class < (shape_of self.now).classes }
        ensures { (h : History) → IsLegal (shape_of self.now) h → Shows self.now h
            → result ≡ status (shape_of self.now) h class };
}

impl Statuses for Ledger {
    ghost use Rattle.std.specs.Prelude.{◌≡◌};
    ghost use Rattle.fault_ledger.specs.Face.{face};

    ghost shape_of = { λ ledger. ledger.shape };

    ghost Shows = { λ ledger h. ledger ≡ face ledger.shape h };

    fn status_of(&self, class: u32) -> Status {
        self.status(class)
    }
}

impl Statuses for Closed {
    ghost use Rattle.std.specs.Prelude.{◌≡◌};
    ghost use Rattle.fault_ledger.specs.Seats.{closed_face};

    ghost shape_of = { λ closed. closed.shape };

    ghost Shows = { λ closed h. closed ≡ closed_face closed.shape h };

    fn status_of(&self, class: u32) -> Status {
        self.status(class)
    }
}

/// Adds the verdict of each fault, which is the verdict of its class, to an empty list.
pub(crate) fn verdicts_of<L: Statuses>(
    job: &Job,
    ledger: &L,
    skipped: u64,
    firsts: Vec<Option<u32>>,
) -> Result<Verdicts, RunFault>
    requires shape { IsShapeOf job.now (L.shape_of ledger.now) }
    requires settled { (h : History) × IsLegal (L.shape_of ledger.now) h × L.Shows ledger.now h
        × AreSettled (L.shape_of ledger.now) h (L.shape_of ledger.now).classes }
    requires empty { firsts.items ≡ [] }
    ensures firsts { (h : History) → IsLegal (L.shape_of ledger.now) h → L.Shows ledger.now h
        → IfOk result (λ v. v.firsts
        ≡ verdicts (L.shape_of ledger.now) h job.now.classes.class_of) }
    ensures skipped { IfOk result (λ v. v.skipped ≡ skipped) }
    ensures refused { IfErr result (λ fault. fault ≡ RunFault.Memory) }
{
    let mut firsts = firsts;
    let classes = job.classes();
    for fault in 0..job.faults().count() {
        let Status::Settled(first) = ledger.status_of(classes.class_of(fault)) else {
            unreachable!()
        };
        firsts.push(first)?;
    }
    Ok(Verdicts::of(firsts, skipped))
}
