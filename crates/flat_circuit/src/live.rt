//! Live signals: the signals that reach an observer. No test can see the effect of a fault on any
//! other signal, so a simulation doesn't evaluate their gates.

ghost use Rattle.std.specs.Prelude.{◌≡◌, ◌↔◌, ◌<◌, ℕ, IfOk, IsTrue, false, length};
ghost use Rattle.bench_net.specs.Scan.{names};
ghost use Rattle.bench_net.specs.Circuit.{IsCircuit};
ghost use Rattle.flat_circuit.specs.Readers.{IsLive, Reads};
ghost use Rattle.flat_circuit.specs.Flat.{AreLive, IsLiveAt};

use bench_net::{Circuit, Sink};
use std::alloc::{AllocError, Global};

/// Returns for each signal whether it is live.
pub fn live_signals(alloc: Global, circuit: &Circuit) -> Result<Vec<bool>, AllocError>
    requires circuit { IsCircuit circuit.now }
    ensures count { IfOk result (λ live. length live.items ≡ length (names circuit.now)) }
    ensures live { IfOk result (λ live. AreLive circuit.now live.items) }
{
    let mut live = vec![in alloc; false; circuit.signals() as usize]?;
    find_live(circuit, &mut live);
    Ok(live)
}

/// Computes for each signal whether it is live, from the last in level order on: a gate comes after
/// the signals that it reads.
fn find_live(circuit: &Circuit, live: &mut [bool])
    requires circuit { IsCircuit circuit.now }
    requires room { length live.old ≡ length (names circuit.now) }
    ensures room { length live.new ≡ length live.old }
    ensures live { AreLive circuit.now live.new }
{
    let order = circuit.in_level_order();
    for place in (0..order.len()).rev() {
        let signal = order[place];
        let is_live = leads_on(circuit, signal, live);
        live[signal as usize] = is_live;
    }
}

/// Returns whether a signal is live, if this is known for the gates that read it.
fn leads_on(circuit: &Circuit, signal: u32, live: &[bool]) -> bool
    requires circuit { IsCircuit circuit.now }
    requires room { length live.now ≡ length (names circuit.now) }
    requires signal { signal < length (names circuit.now) }
    requires readers { (gate : ℕ) → Reads circuit.now gate signal
        → IsLiveAt circuit.now live.now gate }
    ensures { IsTrue result ↔ IsLive circuit.now signal }
{
    for sink in circuit.sinks_of(signal) {
        let is_live = match *sink {
            Sink::Pin { gate, pin: _ } => live[gate as usize],
            Sink::Data { .. } | Sink::Out { .. } => true,
        };
        if is_live {
            return true;
        }
    }
    false
}
