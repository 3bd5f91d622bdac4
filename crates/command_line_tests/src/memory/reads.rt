//! Calls that only read, and seats that look and meet: they have the same results with and without
//! memory.

ghost use Rattle.std.specs.Prelude.{◌≡◌, ◌<◌, IfOk, length};
ghost use Rattle.bench_net.specs.Scan.{names};
ghost use Rattle.fault_ledger.specs.Face.{shape_of};

use crate::checks::check_ok;
use crate::memory::ballast::Ballast;
use bench_net::Circuit;
use block_sim::Job;
use fault_ledger::{
    Claim, Closed, Finish, Ledger, LedgerFault, PieceState, Seat, Shape, SharedLedger, Status,
};
use fault_model::{Faults, Line, Model};
use patterns::{Outcome, Tests};
use report::RunFault;
use std::alloc::{AllocError, Global};
use workers::{Verdicts, run_schedule};

/// A sum of results, in which their order counts.
#[derive(Clone, Copy, PartialEq, Eq)]
struct Sum(u64);

impl Sum {
    fn add(&mut self, answer: u64) {
        self.0 = self.0.rotate_left(5) ^ answer;
    }
}

/// Adds the results of a circuit's calls for a signal.
fn add_signal(sum: &mut Sum, circuit: &Circuit, signal: u32)
    requires { signal < length (names circuit.now) }
{
    sum.add(u64::from(circuit.level_of(signal)));
    sum.add(u64::from(circuit.source_of(signal).unwrap_or(u32::MAX)));
    sum.add(circuit.name_of(signal).len() as u64);
    sum.add(circuit.gate_of(signal).is_some() as u64);
    sum.add(circuit.sinks_of(signal).len() as u64);
}

/// Adds the results of a circuit's calls.
fn add_circuit(sum: &mut Sum, circuit: &Circuit) {
    sum.add(u64::from(circuit.sources()));
    sum.add(u64::from(circuit.depth()));
    sum.add(circuit.inputs().len() as u64);
    sum.add(circuit.outputs().len() as u64);
    sum.add(circuit.scan_cells().len() as u64);
    sum.add(circuit.in_level_order().len() as u64);
    for signal in 0..circuit.signals() {
        add_signal(sum, circuit, signal);
    }
}

/// Adds the results of a fault list's calls.
fn add_faults(sum: &mut Sum, faults: &Faults) {
    sum.add((faults.model() == Model::StuckAt) as u64);
    for fault in 0..faults.count() {
        sum.add(faults.stuck_of(fault) as u64);
        if let Line::Stem(signal) = faults.line_of(fault) {
            sum.add(u64::from(signal));
        }
    }
}

/// Adds the results of a fault list for the stem of a signal.
fn add_stem(sum: &mut Sum, job: &Job, signal: u32)
    requires { signal < length (names job.now.circuit) }
{
    let faults = job.faults();
    sum.add(u64::from(faults.stem_fault(signal, false)));
    sum.add(u64::from(faults.stem_fault(signal, true)));
}

/// Adds the results of a fault list for the stems of a circuit.
fn add_stems(sum: &mut Sum, job: &Job) {
    for signal in 0..job.circuit().signals() {
        add_stem(sum, job, signal);
    }
}

/// Adds the results of the classes' calls.
fn add_classes(sum: &mut Sum, job: &Job) {
    let classes = job.classes();
    for class in 0..classes.count() {
        sum.add(u64::from(classes.representative(class)));
    }
    for fault in 0..job.faults().count() {
        sum.add(u64::from(classes.class_of(fault)));
    }
}

/// Adds the bits of the tests at a source.
fn add_bits(sum: &mut Sum, tests: &Tests, source: u32)
    requires { source < tests.now.width }
{
    for test in 0..tests.count() {
        sum.add(tests.bit(test, source) as u64);
    }
}

/// Adds the bits of the tests.
fn add_all_bits(sum: &mut Sum, tests: &Tests) {
    for source in 0..tests.width() {
        add_bits(sum, tests, source);
    }
}

/// Adds the results of the tests' calls.
fn add_tests(sum: &mut Sum, tests: &Tests) {
    sum.add(u64::from(tests.count()));
    for block in 0..tests.blocks() {
        sum.add(u64::from(tests.size_of(block)));
        for source in 0..tests.width() {
            sum.add(tests.word(block, source));
        }
    }
}

/// Adds the results of the verdicts' calls.
fn add_verdicts(sum: &mut Sum, verdicts: &Verdicts) {
    sum.add(u64::from(verdicts.detected()));
    sum.add(verdicts.skipped());
    for fault in 0..verdicts.total() {
        sum.add(u64::from(verdicts.first(fault).unwrap_or(u32::MAX)));
    }
}

/// Returns the sum of the results of all calls that only read.
fn sum_of(job: &Job, verdicts: &Verdicts) -> Sum {
    let mut sum = Sum(0);
    add_circuit(&mut sum, job.circuit());
    add_faults(&mut sum, job.faults());
    add_stems(&mut sum, job);
    add_classes(&mut sum, job);
    add_tests(&mut sum, job.tests());
    add_all_bits(&mut sum, job.tests());
    add_verdicts(&mut sum, verdicts);
    sum
}

/// Returns this sum with no memory left.
fn sum_without_memory(alloc: Global, job: &Job, verdicts: &Verdicts) -> Result<Sum, AllocError> {
    let ballast = Ballast::all(alloc)?;
    let sum = sum_of(job, verdicts);
    drop(ballast);
    Ok(sum)
}

/// Returns whether the calls on a job and its verdicts have the same results with and without
/// memory.
pub(crate) fn is_sum_the_same(alloc: Global, job: &Job) -> Result<bool, RunFault> {
    let verdicts = run_schedule(alloc, job, 2, &[])?;
    let without = sum_without_memory(alloc, job, &verdicts)?;
    Ok(without == sum_of(job, &verdicts))
}

/// Returns whether two seats of a ledger of one class and two blocks have the right results. The
/// first reports a hit at the first block, and the second drops the other.
fn seats_answer(ledger: &SharedLedger, first: &mut Seat, second: &mut Seat) -> bool
    requires shape { (ledger.now.shape.classes ≡ 1) × (ledger.now.shape.tests ≡ 65) }
    requires seats { (first.old.place ≡ ledger.now) × (second.old.place ≡ ledger.now) }
    ensures seats { (first.new.place ≡ ledger.now) × (second.new.place ≡ ledger.now) }
{
    let claimed = ledger.claim(first).is_ok() && ledger.claim(second).is_ok();
    let reported = ledger.report(first, Outcome::Hit(5)).is_ok();
    let dropped = ledger.drop_piece(second).is_ok();
    ledger.meet(first, second);
    let seen = ledger.look(first, 0, 1) == PieceState::Skipped;
    let status = ledger.status(first, 0) == Status::Settled(Some(5));
    let finished = ledger.finished(second) == Finish::Finished;
    let seated = (first.worker(), second.worker()) == (0, 1) && first.held().is_none();
    claimed && reported && dropped && seen && status && finished && seated
}

/// Returns whether two seats have the right results with no memory left.
fn seats_answer_without_memory(
    alloc: Global,
    ledger: &SharedLedger,
    first: &mut Seat,
    second: &mut Seat,
) -> Result<bool, AllocError>
    requires shape { (ledger.now.shape.classes ≡ 1) × (ledger.now.shape.tests ≡ 65) }
    requires seats { (first.old.place ≡ ledger.now) × (second.old.place ≡ ledger.now) }
{
    let ballast = Ballast::all(alloc)?;
    let answered = seats_answer(ledger, first, second);
    drop(ballast);
    Ok(answered)
}

/// Returns whether the two seats of a new ledger have them.
fn new_seats_answer(alloc: Global) -> Result<bool, LedgerFault> {
    let (ledger, mut seats) = SharedLedger::new(alloc, 1, 65, 2)?;
    let (Some(mut second), Some(mut first)) = (seats.pop(), seats.pop()) else {
        return Err(LedgerFault::NoWorkers);
    };
    Ok(seats_answer_without_memory(alloc, &ledger, &mut first, &mut second)?)
}

/// A ledger of one class, two blocks and one worker.
const SHAPE: Shape = Shape {
    classes: 1,
    tests: 65,
    workers: 1,
};

/// Returns whether a ledger of this shape has the right results. The first piece is reported as a
/// hit; the second is held, and then dropped.
fn ledger_answers(ledger: &mut Ledger) -> bool
    requires { ledger.old.shape ≡ shape_of 1 65 1 }
{
    let claimed = ledger.claim(0) == Ok(Claim::Piece { class: 0, block: 0 });
    let waits = ledger.status(0) == Status::Waiting(0);
    let reported = ledger.report(0, Outcome::Hit(5)).is_ok() && ledger.claim(0).is_ok();
    let held = ledger.held(0) == Some((0, 1));
    let dropped = ledger.drop_piece(0).is_ok() && ledger.held(0).is_none();
    let status = ledger.status(0) == Status::Settled(Some(5));
    let finished = ledger.finished() == Finish::Finished;
    claimed && waits && reported && held && dropped && status && finished && ledger.shape() == SHAPE
}

/// Returns whether a new ledger has them with no memory left.
fn new_ledger_answers(alloc: Global) -> Result<bool, LedgerFault> {
    let mut ledger = Ledger::new(alloc, 1, 65, 1)?;
    let ballast = Ballast::all(alloc)?;
    let answered = ledger_answers(&mut ledger);
    drop(ballast);
    Ok(answered)
}

/// Reports a hit of the first piece, and drops the second.
fn hit_and_drop(ledger: &SharedLedger, seat: &mut Seat)
    requires { seat.old.place ≡ ledger.now }
    ensures { seat.new.place ≡ ledger.now }
{
    let _reported = ledger.claim(seat).is_ok() && ledger.report(seat, Outcome::Hit(5)).is_ok();
    let _dropped = ledger.claim(seat).is_ok() && ledger.drop_piece(seat).is_ok();
}

/// Returns a closed ledger of that shape. Its first piece was reported as a hit, and the second
/// dropped.
fn closed_ledger(alloc: Global) -> Result<Closed, LedgerFault>
    ensures { IfOk result (λ closed. closed.shape ≡ shape_of 1 65 1) }
{
    let (ledger, mut seats) = SharedLedger::new(alloc, 1, 65, 1)?;
    let Some(mut seat) = seats.pop() else {
        return Err(LedgerFault::NoWorkers);
    };
    hit_and_drop(&ledger, &mut seat);
    seats.push(seat)?;
    ledger.close(alloc, seats)
}

/// Returns whether a closed ledger of that shape has the right results.
fn closed_answers(closed: &Closed) -> bool
    requires { closed.now.shape ≡ shape_of 1 65 1 }
{
    let first = closed.entry(0, 0) == PieceState::Hit(5);
    let second = closed.entry(0, 1) == PieceState::Skipped;
    let status = closed.status(0) == Status::Settled(Some(5));
    let finished = closed.finished() == Finish::Finished;
    first && second && status && finished && closed.skipped() == 1
}

/// Returns whether a closed ledger has them with no memory left.
fn closed_ledger_answers(alloc: Global) -> Result<bool, LedgerFault> {
    let closed = closed_ledger(alloc)?;
    let ballast = Ballast::all(alloc)?;
    let answered = closed_answers(&closed);
    drop(ballast);
    Ok(answered)
}

#[test]
fn ledgers_go_on_without_memory(rt: HostRuntime) {
    check_ok(
        &rt,
        new_seats_answer(rt.alloc()),
        "seats that look and meet",
    );
    check_ok(
        &rt,
        new_ledger_answers(rt.alloc()),
        "a ledger of one thread",
    );
    check_ok(&rt, closed_ledger_answers(rt.alloc()), "a closed ledger");
}
