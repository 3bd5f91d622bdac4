//! The joined content of all part files of a run.

ghost use Rattle.std.specs.Prelude.{◌≡◌, ◌<◌, ◌^◌, Some, length, slice_get};

/// The faults of a whole run by their names, and the first test that detects each, or none.
#[derive(Drop)]
pub struct Merged<'a> {
    faults: Vec<&'a [u8]>,
    firsts: Vec<Option<u32>>,
    ghost same: { length firsts.items ≡ length faults.items },
    ghost some: { 0 < length firsts.items },
    ghost few: { length firsts.items < 2 ^ 32 },
}

impl<'a> Merged<'a> {
    ghost use Rattle.part_files.specs.Merging.{run_of};
    ghost use Rattle.workers.specs.Verdict.{detected_count};

    /// Makes the list of faults with their first tests.
    pub(crate) fn of(faults: Vec<&'a [u8]>, firsts: Vec<Option<u32>>) -> Merged<'a>
        requires same { length firsts.items ≡ length faults.items }
        requires some { 0 < length firsts.items }
        requires few { length firsts.items < 2 ^ 32 }
        ensures faults { result.faults ≡ faults.entry }
        ensures firsts { result.firsts ≡ firsts }
    {
        Merged { faults, firsts }
    }

    /// Returns the number of faults that a test detects.
    pub fn detected(&self) -> u32
        ensures { result ≡ detected_count (run_of self.now).firsts }
    {
        self.firsts.iter().filter(|first| first.is_some()).count() as u32
    }

    /// Returns the number of uncollapsed faults.
    pub fn total(&self) -> u32
        ensures { result ≡ length (run_of self.now).firsts }
    {
        self.firsts.len() as u32
    }

    /// Returns the first test that detects a fault, or none if no test does. Faults are numbered
    /// from 0 in the order of their list, and tests from 0.
    pub fn first(&self, fault: u32) -> Option<u32>
        requires { fault < length (run_of self.now).firsts }
        ensures { slice_get (run_of self.now).firsts fault ≡ Some result }
    {
        self.firsts[fault as usize]
    }

    /// Returns the names of the faults.
    pub(crate) fn faults(&self) -> &[&'a [u8]]
        ensures { result.now ≡ self.now.faults.items }
    {
        self.faults.as_slice()
    }

    /// Returns the first tests.
    pub(crate) fn firsts(&self) -> &[Option<u32>]
        ensures { result.now ≡ self.now.firsts.items }
    {
        self.firsts.as_slice()
    }
}
