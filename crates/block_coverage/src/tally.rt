//! The blocks of names and the numbers of their faults, in the order of the names.

ghost use Rattle.std.specs.Prelude.{◌≡◌, ◌<◌, ◌-◌, ◌^◌, ◌++◌, ◌∷◌, [], List, Bool, OnOk, length, ℕ};
ghost use Rattle.std.specs.Prelude.{if◌then◌else◌};
ghost use Rattle.bench_net.specs.Statement.{Name};
ghost use Rattle.block_coverage.specs.Tallies.{IsTally};

use crate::rows::BlockRow;
use indexmap::IndexSet;
use std::alloc::{AllocError, Global};

/// Returns 1 for a detected fault, else 0.
fn bit_of(detected: bool) -> u32
    ensures { result ≡ (if detected then 1 else 0) }
{
    u32::from(detected)
}

/// The blocks of some names in the order in which they come.
#[derive(Drop)]
pub(crate) struct Tally<'a> {
    /// The blocks. The number of a block is its place.
    names: IndexSet<&'a str>,
    /// The row of each block.
    rows: Vec<BlockRow<'a>>,
}

impl<'a> Tally<'a> {
    /// Makes a tally of no names.
    pub(crate) fn new(alloc: Global) -> Tally<'a>
        ensures { (separator : ℕ) → IsTally separator [] [] result }
    {
        Tally {
            names: IndexSet::new(alloc),
            rows: Vec::new(alloc),
        }
    }

    /// Returns the rows.
    pub(crate) fn into_rows(self) -> Vec<BlockRow<'a>>
        ensures { result ≡ self.entry.rows }
    {
        self.rows
    }

    /// Counts a fault, by its name, in all blocks of the name.
    pub(crate) fn add_name(
        &mut self,
        name: &'a str,
        detected: bool,
        separator: u8,
    ) -> Result<(), AllocError>
        requires ascii { separator < 128 }
        requires tally { (names : List Name) × (flags : List Bool)
            × (length names < 2 ^ 32 - 1) × (length flags ≡ length names)
            × IsTally separator names flags self.old }
        ensures { (names : List Name) (flags : List Bool) → length flags ≡ length names
            → IsTally separator names flags self.old
            → OnOk result (IsTally separator (names ++ name.now ∷ []) (flags ++ detected ∷ [])
            self.new) }
    {
        for (place, byte) in name.as_bytes().iter().enumerate() {
            if *byte == separator {
                self.add_block(&name[..place], detected)?;
            }
        }
        Ok(())
    }

    /// Counts a fault in one more block, whose name is that of the fault up to a separator.
    fn add_block(&mut self, block: &'a str, detected: bool) -> Result<(), AllocError>
        requires { (separator : ℕ) × (names : List Name) × (flags : List Bool)
            × (length names < 2 ^ 32 - 1) × (length flags ≡ length names)
            × IsTally separator (names ++ block.now ∷ []) (flags ++ detected ∷ []) self.old }
        ensures { (separator : ℕ) (names : List Name) (flags : List Bool)
            → length flags ≡ length names
            → IsTally separator (names ++ block.now ∷ []) (flags ++ detected ∷ []) self.old
            → OnOk result (IsTally separator (names ++ (block.now ++ separator ∷ []) ∷ [])
            (flags ++ detected ∷ []) self.new) }
    {
        let (place, added) = self.names.insert_full(block)?;
        if added {
            self.rows.push(BlockRow {
                name: block,
                detected: bit_of(detected),
                faults: 1,
            })?;
        } else {
            let row = &mut self.rows[place];
            row.faults += 1;
            row.detected += bit_of(detected);
        }
        Ok(())
    }
}
