//! The common data of part files, and their verdicts joined.

ghost use Rattle.std.specs.Prelude.{◌≡◌, ◌≢◌, ◌+◌, ◌<◌, [], ◌∷◌, ◌++◌, ℕ, true, false, length};
ghost use Rattle.std.specs.Prelude.{Contains, IfErr, OnOk};
ghost use Rattle.part_files.specs.PartReading.{head_in, texts_in};
ghost use Rattle.part_files.specs.Merging.{AreJoined, AreOfOneRun, DifferAt, HaveBoth, IsOtherRun};

use crate::part_reader::{PartFault, PartHeader};
use region_runs::PartVerdict;
use std::alloc::AllocError;
use thiserror::Error;

/// An error of merging part files.
#[derive(Clone, Copy, Debug, PartialEq, Eq, Error)]
pub enum MergeFault {
    /// It is not a part file.
    #[error("{0}")]
    Part(PartFault),
    /// Its run has another model.
    #[error("of another model")]
    OtherModel,
    /// Its run has another rule of parts.
    #[error("of another rule")]
    OtherRule,
    /// Its run has another bench file or another test file.
    #[error("of other inputs")]
    OtherInputs,
    /// Its run has another number of parts.
    #[error("of another number of parts")]
    OtherCount,
    /// Its part, counted from 1, is there already.
    #[error("part {0} again")]
    Again(u64),
    /// At this line, counted from 1, its fault differs from the files before it, or one of them
    /// already has the fault.
    #[error("line {0}: another fault")]
    Differs(u64),
    /// This part, counted from 1, is missing.
    #[error("part {0} is missing")]
    Missing(u64),
    /// No part contains the fault at this line of the files, counted from 1.
    #[error("line {0}: a fault of no part")]
    NoPart(u64),
    /// The files have no fault. Each circuit has one.
    #[error("no fault")]
    NoFault,
    /// The files have more faults than 32 bits count.
    #[error("more than 4294967295 faults")]
    TooManyFaults,
    /// Memory ran out.
    #[error("out of memory")]
    Memory,
}

/// Checks that a first line is from the same run as another.
pub(crate) fn check_run(header: &PartHeader<'_>, other: &PartHeader<'_>) -> Result<(), MergeFault>
    ensures run { OnOk result (AreOfOneRun (head_in header.now) (head_in other.now)) }
    ensures refused { IfErr result (IsOtherRun (head_in header.now) (head_in other.now)) }
{
    if !is_same(header.model, other.model) {
        return Err(MergeFault::OtherModel);
    }
    if !is_same(header.rule, other.rule) {
        return Err(MergeFault::OtherRule);
    }
    if !is_same(header.bench, other.bench) || !is_same(header.tests, other.tests) {
        return Err(MergeFault::OtherInputs);
    }
    if header.parts != other.parts {
        return Err(MergeFault::OtherCount);
    }
    Ok(())
}

/// Checks that a part isn't there already.
pub(crate) fn check_new(seen: &[u32], part: u32) -> Result<(), MergeFault>
    ensures fresh { OnOk result (Contains seen.now part → ⊥) }
    ensures refused { IfErr result (λ fault. (fault ≡ MergeFault.Again (part + 1))
        × Contains seen.now part) }
{
    if seen.contains(&part) {
        return Err(MergeFault::Again(u64::from(part) + 1));
    }
    Ok(())
}

/// Returns whether two texts are the same.
pub(crate) fn is_same(text: &[u8], other: &[u8]) -> bool
    ensures yes { result ≡ true → text.now ≡ other.now }
    ensures no { result ≡ false → text.now ≢ other.now }
{
    text == other
}

/// Joins the verdicts of another part. It fails with the line of the first fault that both have.
pub(crate) fn join(verdicts: &mut [PartVerdict], others: &[PartVerdict]) -> Result<(), MergeFault>
    requires { length verdicts.old ≡ length others.now }
    ensures joined { OnOk result (AreJoined verdicts.old others.now verdicts.new) }
    ensures refused { IfErr result (λ fault. (k : ℕ) × (fault ≡ MergeFault.Differs (k + 2))
        × HaveBoth verdicts.old others.now k) }
{
    for place in 0..others.len() {
        match (verdicts[place], others[place]) {
            (PartVerdict::OtherPart, verdict) => verdicts[place] = verdict,
            (_, PartVerdict::OtherPart) => {}
            _ => return Err(MergeFault::Differs(place as u64 + 2)),
        }
    }
    Ok(())
}

/// Checks that the faults of another part have the same names. It fails with the line of the first
/// other name, or of the first fault that only one of both has.
pub(crate) fn check_names(faults: &[&[u8]], others: &[&[u8]]) -> Result<(), MergeFault>
    ensures same { OnOk result (texts_in faults.now ≡ texts_in others.now) }
    ensures refused { IfErr result (λ fault. (k : ℕ) × (fault ≡ MergeFault.Differs (k + 2))
        × DifferAt (texts_in faults.now) (texts_in others.now) k) }
{
    let both = faults.len().min(others.len());
    for place in 0..both {
        if !is_same(faults[place], others[place]) {
            return Err(MergeFault::Differs(place as u64 + 2));
        }
    }
    if faults.len() == others.len() {
        Ok(())
    } else {
        Err(MergeFault::Differs(both as u64 + 2))
    }
}

impl From<PartFault> for MergeFault {
    ghost use Rattle.std.specs.Prelude.{◌≡◌};
    ghost use Rattle.part_files.specs.declared.joining.MergeFault.TheVariants as fault;

    ghost from_gives = { λ f m. m ≡ fault.Part f };

    fn from(fault: PartFault) -> MergeFault {
        MergeFault::Part(fault)
    }
}

impl From<AllocError> for MergeFault {
    ghost use Rattle.std.specs.Prelude.{◌≡◌};
    ghost use Rattle.part_files.specs.declared.joining.MergeFault.TheVariants as fault;

    ghost from_gives = { λ _ m. m ≡ fault.Memory };

    fn from(_: AllocError) -> MergeFault {
        MergeFault::Memory
    }
}

/// Adds a part to the list of parts.
pub(crate) fn add_part(seen: &mut Vec<u32>, part: u32) -> Result<(), AllocError>
    ensures { OnOk result (seen.new.items ≡ seen.old.items ++ part ∷ []) }
{
    Ok(seen.push(part)?)
}
