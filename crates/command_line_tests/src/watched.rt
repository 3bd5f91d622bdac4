//! A report under a gate of the caller's: each worker has a thread, and calls the gate.

ghost use Rattle.workers.specs.Stops.{any_stop};

use crate::checks::check;
use fault_model::Model;
use report::{Contents, Limit, Lines, Plain, SimFault, Watch, simulate_text_watched};
use std::alloc::Global;
use std::sync::Wait;
use std::sync::atomic::{AtomicU64, Ordering};
use std::thread;
use std::thread::Threads;
use std::time::{Clock, Duration};
use worked_circuits::C17_TEXT;
use workers::Gate;

/// The number of milliseconds for which a gate waits before it gives up.
const TURNS: u32 = 10_000;

/// A gate that holds every worker until workers 0 to 3 have come, each with its own number.
#[derive(Drop)]
struct Roll<'a, C> {
    clock: &'a C,
    // The bit of each worker that has come.
    called: AtomicU64,
}

impl<'a, C: Clock> Roll<'a, C> {
    fn new(clock: &'a C) -> Roll<'a, C> {
        Roll {
            clock,
            called: AtomicU64::new(0),
        }
    }
}

impl<C: Clock> Gate for Roll<'_, C> {
    ghost passing = { λ _. ⊥ };

    ghost stops = { λ _. any_stop };

    fn pass(&self, worker: u32, _class: u32, _block: u32) -> bool {
        self.called.fetch_or(1 << (worker % 64), Ordering::SeqCst);
        for _ in 0..TURNS {
            if self.called.load(Ordering::SeqCst) == 0b1111 {
                return true;
            }
            thread::sleep(self.clock, Duration::from_millis(1));
        }
        false
    }
}

impl<C: Clock> Watch for Roll<'_, C> {}

/// Returns whether C17 with one test is reported by four workers that wait for each other.
fn is_met<R: Threads + Wait + Clock + Sync>(rt: &R, alloc: Global) -> Result<bool, SimFault> {
    let gate = Roll::new(rt);
    let contents = Contents::of(Lines::Omitted);
    let mut out = Plain::new(Vec::new(alloc));
    let bench = C17_TEXT.as_bytes();
    let model = Model::StuckAt;
    let limit = Limit::Pieces;
    simulate_text_watched(
        rt, alloc, model, bench, b"11111\n", limit, None, 4, contents, &gate, &mut out,
    )?;
    Ok(out.into_writer().as_slice() == b"14 of 34 (41.17%)\n".as_slice())
}

#[test]
fn four_threads_come_to_the_gate_of_a_report(rt: HostRuntime) {
    check(&rt, is_met(&rt, rt.alloc()) == Ok(true), "met");
}
