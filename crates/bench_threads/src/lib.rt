//! Bench files read in several threads.
//!
//! [`read_bench_in_threads`] returns the circuit or the error that [`bench_net::read_bench`]
//! returns.
#![tactic(auto)]

ghost use Rattle.std.specs.Prelude.{◌≡◌, ◌⊎◌, IfOk, IfErr};
ghost use Rattle.bench_net.specs.Circuit.{IsCircuit};
ghost use Rattle.bench_net.specs.Refusal.{IsAccepted, IsRefused};

mod circuit;
mod in_threads;
mod numbering;
mod reading;
mod setback;
mod stretch;

use bench_net::{BenchFault, Circuit, read_bench};
use circuit::circuit_of_in_threads;
use in_threads::{LinesRead, read_lines_in_threads, threads_for};
use std::alloc::Global;
use std::sync::Wait;
use std::thread::Threads;

/// Reads the circuit of a bench file as [`read_bench`] does, with the same errors, in about as many
/// threads as there are workers. The threads read ranges of the lines, and then number their
/// statements. Then one thread computes the levels of the signals, another one their sinks, and a
/// third one the other tables. Only the caller's thread reads a short file, and a file again that
/// has an error.
pub fn read_bench_in_threads<R: Threads + Wait>(
    rt: &R,
    alloc: Global,
    text: &[u8],
    workers: u32,
) -> Result<Circuit, BenchFault>
    ensures accepted { IfOk result (λ c. IsAccepted text.now c) }
    ensures circuit { IfOk result (λ c. IsCircuit c) }
    ensures refused { IfErr result (λ fault. (fault ≡ BenchFault.Memory)
        ⊎ IsRefused text.now fault) }
{
    if threads_for(text, workers) < 2 {
        return read_bench(alloc, text);
    }
    let LinesRead { lines, spent } = read_lines_in_threads(rt, alloc, text, workers)?;
    circuit_of_in_threads(rt, alloc, lines, spent)
}
