//! Inputs that have the same bit in each test.

ghost use Rattle.std.specs.Prelude.{◌≡◌, ℕ, Bool, IfErr, IfNone, IfOk, IfSome, OnOk, Some, length};
ghost use Rattle.std.specs.Prelude.{slice_get};
ghost use Rattle.std.specs.Bool.{Decides};
ghost use Rattle.bench_net.specs.Circuit.{IsCircuit};
ghost use Rattle.bench_net.specs.Scan.{names, sources};
ghost use Rattle.generator.specs.Generated.{IsFaultOfHeld};
ghost use Rattle.generator.specs.Held.{AreHeldBits, IsColumn, IsHeldAt, IsHeldFault, IsInputColumn};
ghost use Rattle.generator.specs.Held.{IsNoInput, IsUnfit, Stands};

use crate::GeneratorFault;
use bench_net::Circuit;
use std::alloc::Global;
use test_columns::source_at;

/// An input that has the same bit in each test.
#[derive(Clone, Copy, Debug)]
pub struct Held<'a> {
    /// The name of the input.
    pub name: &'a [u8],
    /// Its bit in each test.
    pub bit: bool,
}

/// Why an input can't be held.
#[derive(Clone, Copy, Debug, PartialEq, Eq)]
pub enum HeldReason {
    /// No line of the bench file defines the name.
    Undefined,
    /// A gate has the name.
    Gate,
    /// A flip-flop has the name.
    FlipFlop,
    /// An earlier held input has the same name.
    Twice,
}

/// The error of the first held input that has one.
#[derive(Clone, Copy, Debug, PartialEq, Eq)]
pub struct HeldFault {
    /// The place of the held input in the list, from 0.
    pub place: usize,
    /// Why it can't be held.
    pub reason: HeldReason,
}

/// Returns, for each source of a circuit, the bit that it has in each test, or `None` if it isn't
/// held.
pub(crate) fn held_bits(
    alloc: Global,
    circuit: &Circuit,
    held: &[Held<'_>],
) -> Result<Vec<Option<bool>>, GeneratorFault>
    ensures bits { IfOk result (λ bits. AreHeldBits circuit.now held.now bits.items) }
    ensures refused { IfErr result (IsFaultOfHeld circuit.now held.now) }
{
    let _signals = circuit.signals();
    let mut bits = vec![in alloc; None; circuit.sources() as usize]?;
    match hold_all(circuit, held, &mut bits) {
        Ok(()) => Ok(bits),
        Err(fault) => Err(GeneratorFault::Held(fault)),
    }
}

/// Sets the bits of held inputs, if there is none before.
fn hold_all(
    circuit: &Circuit,
    held: &[Held<'_>],
    bits: &mut [Option<bool>],
) -> Result<(), HeldFault>
    requires circuit { IsCircuit circuit.now }
    requires count { length bits.old ≡ length (sources circuit.now) }
    requires none { (place : ℕ) (b : Bool) → ¬ (slice_get bits.old place ≡ Some (Some b)) }
    ensures bits { OnOk result (AreHeldBits circuit.now held.now bits.new) }
    ensures refused { IfErr result (IsHeldFault circuit.now held.now) }
{
    for place in 0..held.len() {
        match hold_one(circuit, &held[place], bits) {
            Ok(()) => {}
            Err(reason) => return Err(HeldFault { place, reason }),
        }
    }
    Ok(())
}

/// Sets the bit of a held input at its column.
fn hold_one(
    circuit: &Circuit,
    input: &Held<'_>,
    bits: &mut [Option<bool>],
) -> Result<(), HeldReason>
    requires circuit { IsCircuit circuit.now }
    requires count { length bits.old ≡ length (sources circuit.now) }
    ensures set { OnOk result (IsHeldAt circuit.now input.now bits.old bits.new) }
    ensures refused { IfErr result (IsUnfit circuit.now input.now.name.now bits.old) }
{
    let column = input_column(circuit, input.name)?;
    match bits[column] {
        Some(_) => Err(HeldReason::Twice),
        None => {
            bits[column] = Some(input.bit);
            Ok(())
        }
    }
}

/// Returns the column of the input with this name.
fn input_column(circuit: &Circuit, name: &[u8]) -> Result<usize, HeldReason>
    requires { IsCircuit circuit.now }
    ensures column { IfOk result (IsInputColumn circuit.now name.now) }
    ensures refused { IfErr result (IsNoInput circuit.now name.now) }
{
    let Some(column) = column_of(circuit, name) else {
        return Err(without_column(circuit, name));
    };
    if column < circuit.inputs().len() {
        Ok(column)
    } else {
        Err(HeldReason::FlipFlop)
    }
}

/// Returns the reason why a name that is none of a source isn't that of an input.
fn without_column(circuit: &Circuit, name: &[u8]) -> HeldReason
    requires circuit { IsCircuit circuit.now }
    requires none { ¬ Stands name.now (sources circuit.now) }
    ensures { IsNoInput circuit.now name.now result }
{
    if is_defined(circuit, name) {
        HeldReason::Gate
    } else {
        HeldReason::Undefined
    }
}

/// Returns the column of the source with this name.
fn column_of(circuit: &Circuit, name: &[u8]) -> Option<usize>
    requires { IsCircuit circuit.now }
    ensures some { IfSome result (IsColumn circuit.now name.now) }
    ensures none { IfNone result (¬ Stands name.now (sources circuit.now)) }
{
    for place in 0..circuit.sources() as usize {
        if has_name(circuit, place, name) {
            return Some(place);
        }
    }
    None
}

/// Returns whether the source at a place has this name.
fn has_name(circuit: &Circuit, place: usize, name: &[u8]) -> bool
    requires { IsCircuit circuit.now }
    ensures { Decides result (slice_get (sources circuit.now) place ≡ Some name.now) }
{
    match source_at(circuit, place) {
        Some(found) => found == name,
        None => false,
    }
}

/// Returns whether a signal has this name.
fn is_defined(circuit: &Circuit, name: &[u8]) -> bool
    requires { IsCircuit circuit.now }
    ensures { Decides result (Stands name.now (names circuit.now)) }
{
    for signal in 0..circuit.signals() {
        if circuit.name_of(signal).as_bytes() == name {
            return true;
        }
    }
    false
}
