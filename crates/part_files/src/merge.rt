//! The report of a whole run from its part files.

ghost use Rattle.std.specs.Prelude.{◌≡◌, length};

use crate::ending::{firsts_of, missing_part};
use crate::joining::{MergeFault, add_part, check_names, check_new, check_run, join};
use crate::merged::Merged;
use crate::part_reader::{PartHeader, PartText, read_part};
use region_runs::PartVerdict;
use std::alloc::Global;

/// The joined content of some part files of a run.
#[derive(Drop)]
pub struct Merge<'a> {
    header: PartHeader<'a>,
    faults: Vec<&'a [u8]>,
    verdicts: Vec<PartVerdict>,
    seen: Vec<u32>,
    ghost same: { length verdicts.items ≡ length faults.items },
}

impl<'a> Merge<'a> {
    ghost use Rattle.std.specs.Prelude.{IfErr, IfOk};
    ghost use Rattle.part_files.specs.Merging.{IsEndRefusal, IsFirstMerged, IsFirstRefusal};
    ghost use Rattle.part_files.specs.Merging.{IsMerged};
    ghost use Rattle.part_files.specs.Merging.{IsMergeRefusal, IsWholeRun, run_of, state_of};

    /// Begins with the file of one part. The file stays in use for the names of the faults.
    pub fn of(alloc: Global, text: &'a [u8]) -> Result<Merge<'a>, MergeFault>
        ensures merged { IfOk result (λ merge. IsFirstMerged text.now (state_of merge)) }
        ensures refused { IfErr result (IsFirstRefusal text.now) }
    {
        let part = read_part(alloc, text)?;
        let PartText {
            header,
            faults,
            verdicts,
        } = part;
        let seen = vec![in alloc; header.part; 1]?;
        Ok(Merge {
            header,
            faults,
            verdicts,
            seen,
        })
    }

    /// Adds the file of one more part.
    ///
    /// # Errors
    ///
    /// [`MergeFault::Part`] if it is not a part file. Then the difference of its run:
    /// [`MergeFault::OtherModel`], [`MergeFault::OtherRule`], [`MergeFault::OtherInputs`] or
    /// [`MergeFault::OtherCount`]. Then [`MergeFault::Again`] if its part is there already, and
    /// [`MergeFault::Differs`] if its faults differ, or one of them is in a part that is there.
    /// [`MergeFault::Memory`] may come instead of any of them.
    pub fn add(self, alloc: Global, text: &[u8]) -> Result<Merge<'a>, MergeFault>
        ensures merged { IfOk result (λ merge.
            IsMerged (state_of self.entry) text.now (state_of merge)) }
        ensures refused { IfErr result (IsMergeRefusal (state_of self.entry) text.now) }
    {
        let Merge {
            header,
            faults,
            mut verdicts,
            mut seen,
        } = self;
        let part = read_part(alloc, text)?;
        check_run(&header, &part.header)?;
        check_new(&seen, part.header.part)?;
        check_names(faults.as_slice(), part.faults.as_slice())?;
        join(&mut verdicts, part.verdicts.as_slice())?;
        add_part(&mut seen, part.header.part)?;
        Ok(Merge {
            header,
            faults,
            verdicts,
            seen,
        })
    }

    /// Ends the merge: returns each fault of the run with its first test. It fails for the lowest
    /// missing part, then for the first fault that no part contains. Last it fails for a number of
    /// faults that no circuit has.
    pub fn end(self, alloc: Global) -> Result<Merged<'a>, MergeFault>
        ensures merged { IfOk result (λ merged.
            IsWholeRun (state_of self.entry) (run_of merged)) }
        ensures refused { IfErr result (IsEndRefusal (state_of self.entry)) }
    {
        let Merge {
            header,
            faults,
            verdicts,
            seen,
        } = self;
        if let Some(part) = missing_part(seen.as_slice(), header.parts) {
            return Err(MergeFault::Missing(u64::from(part) + 1));
        }
        let firsts = firsts_of(alloc, verdicts.as_slice())?;
        if firsts.is_empty() {
            return Err(MergeFault::NoFault);
        }
        if firsts.len() > u32::MAX as usize {
            return Err(MergeFault::TooManyFaults);
        }
        Ok(Merged::of(faults, firsts))
    }
}
