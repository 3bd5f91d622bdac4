//! Circuits of bench files: the names, levels and sinks of their signals.

use crate::checks::check_ok;
use bench_net::{BenchFault, Circuit, Sink, read_bench};
use std::alloc::Global;

/// A bench file, and the results of its circuit's calls: the signals by level, each signal's name
/// and level, and the sinks, each with its signal. All numbers count from 0. A sink that is a pin
/// is the number of the gate's signal and the place among its pins.
struct Case {
    name: &'static str,
    text: &'static [u8],
    order: &'static [u32],
    names: &'static str,
    levels: &'static [u32],
    sinks: &'static [(u32, Sink)],
}

static CASES: [Case; 3] = [
    Case {
        name: "gates_before_what_they_read",
        text: b"\
            z = AND(y, a)\n\
            OUTPUT(z)\n\
            y = NOT(x)\n\
            OUTPUT(a)\n\
            OUTPUT(z)\n\
            x = BUFF(a)\n\
            INPUT(a)\n\
            ",
        order: &[3, 2, 1, 0],
        names: "z y x a",
        levels: &[3, 2, 1, 0],
        sinks: &[
            (0, Sink::Out { output: 0 }),
            (0, Sink::Out { output: 2 }),
            (1, Sink::Pin { gate: 0, pin: 0 }),
            (2, Sink::Pin { gate: 1, pin: 0 }),
            (3, Sink::Pin { gate: 0, pin: 1 }),
            (3, Sink::Pin { gate: 2, pin: 0 }),
            (3, Sink::Out { output: 1 }),
        ],
    },
    Case {
        name: "names_that_are_all_keywords",
        text: b"DFF = dff(AND)\nAND = and(NOT,NOT , DFF)\nNOT = Xnor(DFF)\n",
        order: &[0, 2, 1],
        names: "DFF AND NOT",
        levels: &[0, 2, 1],
        sinks: &[
            (0, Sink::Pin { gate: 1, pin: 2 }),
            (0, Sink::Pin { gate: 2, pin: 0 }),
            (1, Sink::Data { cell: 0 }),
            (2, Sink::Pin { gate: 1, pin: 0 }),
            (2, Sink::Pin { gate: 1, pin: 1 }),
        ],
    },
    Case {
        name: "every_byte_of_a_name",
        text: b"!\"$%&'*+-./:;<>?@[]^_`{|}~ = OR(a1)\nINPUT(a1)",
        order: &[1, 0],
        names: "!\"$%&'*+-./:;<>?@[]^_`{|}~ a1",
        levels: &[1, 0],
        sinks: &[(1, Sink::Pin { gate: 0, pin: 0 })],
    },
];

/// Returns whether `found` is the list of the sinks of a signal.
fn are_of(found: &[Sink], signal: u32, sinks: &[(u32, Sink)]) -> bool {
    let mut place: usize = 0;
    for (at, want) in sinks {
        if *at == signal {
            if found.get(place) != Some(want) {
                return false;
            }
            place = place.wrapping_add(1);
        }
    }
    place == found.len()
}

/// Returns whether the calls for a signal have the results of the case.
fn has_signal(circuit: &Circuit, signal: u32, name: &str, case: &Case) -> bool {
    signal < circuit.signals()
        && circuit.name_of(signal) == name
        && case.levels.get(signal as usize) == Some(&circuit.level_of(signal))
        && are_of(circuit.sinks_of(signal), signal, case.sinks)
}

/// Returns whether the calls for all signals have the results of the case.
fn has_signals(circuit: &Circuit, case: &Case) -> bool {
    let mut signal: u32 = 0;
    for name in case.names.split(' ') {
        if !has_signal(circuit, signal, name, case) {
            return false;
        }
        signal = signal.wrapping_add(1);
    }
    circuit.signals() == signal && circuit.in_level_order() == case.order
}

/// Returns whether the calls of the circuit of the case's file have the results of the case.
fn is_answered(alloc: Global, case: &Case) -> Result<bool, BenchFault> {
    let circuit = read_bench(alloc, case.text)?;
    Ok(has_signals(&circuit, case))
}

#[test]
fn calls_of_circuits(rt: HostRuntime) {
    for case in &CASES {
        check_ok(&rt, is_answered(rt.alloc(), case), case.name);
    }
}
