//! A group of tests in the form that the simulation of a fault reads.

ghost use Rattle.std.specs.Prelude.{◌≡◌, ◌<◌, Some, length, map, slice_get};

use crate::flat::FlatCircuit;

/// The circuit, the fault-free word of each signal, and the requested lanes.
#[derive(Clone, Copy)]
pub struct BlockView<'a> {
    pub circuit: &'a FlatCircuit,
    pub good: &'a [u128],
    pub lanes: u128,
}

/// The circuit, and for each group of two blocks the fault-free word of each signal, at the
/// signal's place.
#[derive(Clone, Copy)]
pub struct GroupWords<'a> {
    pub circuit: &'a FlatCircuit,
    pub rows: &'a [Vec<u128>],
}

impl<'a> GroupWords<'a> {
    /// Returns the words of a group.
    #[inline(always)]
    pub fn of(self, group: u32) -> &'a [u128]
        requires { group < length self.rows.now }
        ensures { slice_get (map (λ row. row.items) self.entry.rows.now) group ≡ Some result.now }
    {
        self.rows[group as usize].as_slice()
    }
}
