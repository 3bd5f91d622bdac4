//! The start of the simulation of a class. A job computes the representatives class by class, so it
//! reads the fault list and the classes in their order. A run on 100,000 gates that read them in
//! the order of its regions took three times as long for this step.

ghost use Rattle.std.specs.Prelude.{◌≡◌, ◌<◌, IfOk, length};
ghost use Rattle.fault_model.specs.Collapse.{AreClassesOf};
ghost use Rattle.fault_model.specs.Fault.{Fault, fault_list};
ghost use Rattle.flat_circuit.specs.Origins.{HaveRepresentatives, IsRepresentativeIn, IsStuckOf};
ghost use Rattle.flat_circuit.specs.Origins.{Starts};

use crate::flat::FlatCircuit;
use crate::line_signals::carried;
use crate::words::Stuck;
use bench_net::Circuit;
use fault_model::{Classes, Faults};
use std::alloc::{AllocError, Global};

/// The start of the simulation of a fault: the fault in the numbers of the lists of the circuit,
/// and the place of the signal that the fault's line carries.
#[derive(Clone, Copy)]
pub struct Origin {
    pub fault: Stuck,
    pub carried: u32,
}

/// A class of a list: its number, its representative and its stem, from `block_sim::Job::listed`.
/// The stem is the number, from 0, of the signal that is the stem of its fanout-free region. A run
/// over a list of classes keeps an entry for each of them, in the order of the list. It reads no
/// other data of a class.
#[derive(Clone, Copy)]
pub struct ListedClass {
    pub class: u32,
    pub stem: u32,
    pub representative: Stuck,
}

/// Returns the start of the simulation of a fault.
pub fn origin_of(circuit: &FlatCircuit, stuck: Stuck) -> Origin
    requires { (f : Fault) × IsStuckOf circuit.now.statements f stuck }
    ensures { (f : Fault) → IsStuckOf circuit.now.statements f stuck
        → Starts circuit.now.statements circuit.now.arranged f result }
{
    let _signals = circuit.signals();
    let fault = stuck.moved(circuit);
    Origin {
        fault,
        carried: carried(circuit, fault.line),
    }
}

/// Returns the representative of each class, by the class's number.
pub fn representatives_of(
    alloc: Global,
    circuit: &Circuit,
    list: &Faults,
    classes: &Classes,
) -> Result<Vec<Stuck>, AllocError>
    requires list { list.now ≡ fault_list list.now.model circuit.now }
    requires classes { AreClassesOf list.now.model circuit.now classes.now }
    ensures count { IfOk result (λ stucks.
        length stucks.items ≡ length classes.now.representative) }
    ensures representatives { IfOk result (λ stucks.
        HaveRepresentatives list.now.model circuit.now stucks.items) }
{
    let mut stucks = Vec::with_capacity(alloc, classes.count() as usize)?;
    for class in 0..classes.count() {
        stucks.push(representative(circuit, list, classes, class))?;
    }
    Ok(stucks)
}

/// Returns the representative of a class.
fn representative(circuit: &Circuit, list: &Faults, classes: &Classes, class: u32) -> Stuck
    requires list { list.now ≡ fault_list list.now.model circuit.now }
    requires classes { AreClassesOf list.now.model circuit.now classes.now }
    requires class { class < length classes.now.representative }
    ensures { IsRepresentativeIn list.now.model circuit.now class result }
{
    let _circuit = circuit;
    let fault = classes.representative(class);
    Stuck {
        model: list.model(),
        line: list.line_of(fault),
        at_one: list.stuck_of(fault),
    }
}
