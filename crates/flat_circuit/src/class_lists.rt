//! The faults of a circuit, their classes, and the lists that a job has of the classes.

ghost use Rattle.std.specs.Prelude.{◌≡◌, ◌<◌, All, IfOk, length};
ghost use Rattle.fault_model.specs.Collapse.{AreClassesOf};
ghost use Rattle.fault_model.specs.Fault.{fault_list};
ghost use Rattle.flat_circuit.specs.Classes.{AreClassLists};
ghost use Rattle.flat_circuit.specs.Regions.{HaveStems};

use crate::origin::representatives_of;
use crate::region_classes::{class_stems, next_with_stem};
use crate::words::Stuck;
use bench_net::Circuit;
use fault_model::{Classes, Faults, Model, collapse, list_faults_in};
use std::alloc::{AllocError, Global};
use std::sync::Wait;
use std::thread;
use std::thread::Threads;

/// The faults and the classes of a circuit, and three lists with an entry for each class.
#[derive(Drop)]
pub struct ClassLists {
    pub faults: Faults,
    pub classes: Classes,
    /// The stem of the class's region.
    pub stems: Vec<u32>,
    /// The next class in the circle of the region.
    pub next_in_region: Vec<u32>,
    pub representatives: Vec<Stuck>,
}

/// Makes the lists of the classes of a circuit.
pub fn class_lists(
    alloc: Global,
    circuit: &Circuit,
    faults: Faults,
    classes: Classes,
) -> Result<ClassLists, AllocError>
    requires list { faults ≡ fault_list faults.model circuit.now }
    requires classes { AreClassesOf faults.model circuit.now classes }
    ensures lists { IfOk result (λ lists. AreClassLists circuit.now lists) }
    ensures faults { IfOk result (λ lists. lists.faults ≡ faults) }
    ensures classes { IfOk result (λ lists. lists.classes ≡ classes) }
{
    let (stems, next_in_region) = stems_and_circles(alloc, circuit, &faults, &classes)?;
    let representatives = representatives_of(alloc, circuit, &faults, &classes)?;
    Ok(ClassLists {
        faults,
        classes,
        stems,
        next_in_region,
        representatives,
    })
}

/// Returns the stem of each class, and the next class in the circle of its region.
fn stems_and_circles(
    alloc: Global,
    circuit: &Circuit,
    faults: &Faults,
    classes: &Classes,
) -> Result<(Vec<u32>, Vec<u32>), AllocError>
    requires list { faults.now ≡ fault_list faults.now.model circuit.now }
    requires classes { AreClassesOf faults.now.model circuit.now classes.now }
    ensures count { IfOk result (λ r. length r.0.items ≡ length classes.now.representative) }
    ensures stems { IfOk result (λ r. HaveStems faults.now.model circuit.now r.0.items) }
    ensures nexts { IfOk result (λ r. length r.1.items ≡ length classes.now.representative) }
    ensures within { IfOk result (λ r.
        All (λ class. class < length classes.now.representative) r.1.items) }
{
    let signals = circuit.signals();
    let _count = classes.count();
    let stems = class_stems(alloc, circuit, faults, classes)?;
    let next_in_region = next_with_stem(alloc, stems.as_slice(), signals)?;
    Ok((stems, next_in_region))
}

/// Makes the lists of [`class_lists`]. Another thread finds the stems and links the regions while
/// the caller's thread lists the representatives.
fn class_lists_in_threads<R: Threads + Wait>(
    rt: &R,
    alloc: Global,
    circuit: &Circuit,
    faults: Faults,
    classes: Classes,
) -> Result<ClassLists, AllocError>
    requires list { faults ≡ fault_list faults.model circuit.now }
    requires classes { AreClassesOf faults.model circuit.now classes }
    ensures lists { IfOk result (λ lists. AreClassLists circuit.now lists) }
    ensures faults { IfOk result (λ lists. lists.faults ≡ faults) }
    ensures classes { IfOk result (λ lists. lists.classes ≡ classes) }
{
    let (list, all) = (&faults, &classes);
    let (regions, representatives) = thread::join(
        rt,
        move || stems_and_circles(alloc, circuit, list, all),
        move || representatives_of(alloc, circuit, list, all),
    );
    let (stems, next_in_region) = regions?;
    let representatives = representatives?;
    Ok(ClassLists {
        faults,
        classes,
        stems,
        next_in_region,
        representatives,
    })
}

/// Lists the faults of a circuit under a model, and collapses them.
fn faults_and_classes(
    alloc: Global,
    circuit: &Circuit,
    model: Model,
) -> Result<(Faults, Classes), AllocError>
    ensures model { IfOk result (λ r. r.0.model ≡ model) }
    ensures list { IfOk result (λ r. r.0 ≡ fault_list r.0.model circuit.now) }
    ensures classes { IfOk result (λ r. AreClassesOf r.0.model circuit.now r.1) }
{
    let faults = list_faults_in(alloc, circuit, model)?;
    let classes = collapse(alloc, circuit, &faults)?;
    Ok((faults, classes))
}

/// Lists the faults of a circuit under a model, collapses them, and makes the lists of the classes,
/// the last of them in two threads if there are two.
pub fn class_lists_under<R: Threads + Wait>(
    rt: &R,
    alloc: Global,
    circuit: &Circuit,
    model: Model,
    threads: u32,
) -> Result<ClassLists, AllocError>
    ensures lists { IfOk result (λ lists. AreClassLists circuit.now lists) }
    ensures model { IfOk result (λ lists. lists.faults.model ≡ model) }
{
    let (faults, classes) = faults_and_classes(alloc, circuit, model)?;
    if threads < 2 {
        return class_lists(alloc, circuit, faults, classes);
    }
    class_lists_in_threads(rt, alloc, circuit, faults, classes)
}
