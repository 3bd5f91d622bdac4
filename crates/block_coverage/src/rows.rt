//! The rows of all blocks of a fault list.

ghost use Rattle.std.specs.Prelude.{◌≡◌, ◌<◌, ◌≤◌, ◌-◌, ◌^◌, All, IfOk, length, map};
ghost use Rattle.fault_model.specs.Fault.{faults};
ghost use Rattle.block_coverage.specs.Blocks.{AreBlockRows, byte_of, cells_in, fault_names};
ghost use Rattle.block_coverage.specs.Tallies.{AreListedRows};

use crate::owner::name_of;
use crate::separator::Separator;
use crate::sorted::sorted;
use crate::tally::Tally;
use bench_net::Circuit;
use fault_model::Faults;
use std::alloc::{AllocError, Global};

/// A block, and how many of its faults are detected.
#[derive(Clone, Copy, Debug, PartialEq, Eq)]
pub struct BlockRow<'a> {
    /// The name of the block. It is empty if it is a block of names that begin with the separator.
    pub name: &'a str,
    /// The number of its detected faults.
    pub detected: u32,
    /// The number of its faults.
    pub faults: u32,
}

/// Returns the rows of all blocks of a fault list.
///
/// A pin has the name of its gate, a data pin that of its flip-flop, and an OUTPUT line that of the
/// signal that it observes. Each place of the separator in the name ends a block: with `.` a fault
/// at `u.v.z` is in the blocks `u` and `u.v`. `detected` has a flag for each fault of the list:
/// whether a test detects it.
///
/// The blocks with most undetected faults come first, and blocks with equally many in the order of
/// their first faults. Of two with the same first fault the shorter one comes first.
///
/// # Errors
///
/// `AllocError` if there is no memory for the rows, or if there are 2^32 blocks or more.
pub fn block_rows<'a>(
    alloc: Global,
    circuit: &'a Circuit,
    list: &Faults,
    detected: &[bool],
    separator: Separator,
) -> Result<Vec<BlockRow<'a>>, AllocError>
    requires list { list.now.list ≡ faults list.now.model circuit.now }
    requires count { length detected.now ≡ length list.now.list }
    ensures rows { IfOk result (λ rows. AreBlockRows (byte_of separator)
        (fault_names circuit.now list.now.list) detected.now (map cells_in rows.items)) }
    ensures some { IfOk result (λ rows. All (λ row. 0 < row.faults) rows.items) }
{
    let rows = listed_rows(alloc, circuit, list, detected, separator.byte())?;
    sorted(alloc, &rows, list.count())
}

/// Returns the rows of all blocks of a fault list, in the order in which they come.
fn listed_rows<'a>(
    alloc: Global,
    circuit: &'a Circuit,
    list: &Faults,
    detected: &[bool],
    separator: u8,
) -> Result<Vec<BlockRow<'a>>, AllocError>
    requires list { list.now.list ≡ faults list.now.model circuit.now }
    requires count { length detected.now ≡ length list.now.list }
    requires ascii { separator < 128 }
    ensures few { length list.now.list < 2 ^ 32 - 1 }
    ensures rows { IfOk result (λ rows. AreListedRows separator
        (fault_names circuit.now list.now.list) detected.now (map cells_in rows.items)) }
{
    let _signals = circuit.signals();
    let mut tally = Tally::new(alloc);
    for fault in 0..list.count() {
        let name = name_of(circuit, list, fault);
        tally.add_name(name, detected[fault as usize], separator)?;
    }
    Ok(tally.into_rows())
}
