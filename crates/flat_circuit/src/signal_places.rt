//! The places of signals, which are their numbers in the circuit that is simulated.

ghost use Rattle.std.specs.Prelude.{◌≡◌, IfOk, length};
ghost use Rattle.bench_net.specs.Scan.{names};
ghost use Rattle.bench_net.specs.Circuit.{IsCircuit};
ghost use Rattle.fault_model.specs.Reordered.{in_order};
ghost use Rattle.flat_circuit.specs.Arranged.{ArePlaces, IsFlowOrder};

use bench_net::Circuit;
use std::alloc::{AllocError, Global};

/// Returns the place of each signal in a topological order, at the signal's number.
pub(crate) fn places_of(
    alloc: Global,
    circuit: &Circuit,
    order: &[u32],
) -> Result<Vec<u32>, AllocError>
    requires circuit { IsCircuit circuit.now }
    requires order { IsFlowOrder circuit.now order.now }
    ensures count { IfOk result (λ places. length places.items ≡ length (names circuit.now)) }
    ensures places { IfOk result (λ places.
        ArePlaces circuit.now (in_order circuit.now order.now) places.items) }
{
    let _signals = circuit.signals();
    let mut places = vec![in alloc; 0u32; order.len()]?;
    for place in 0..order.len() {
        places[order[place] as usize] = place as u32;
    }
    Ok(places)
}
