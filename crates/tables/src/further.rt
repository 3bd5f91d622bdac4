//! Columns that a table of faults has only if they are requested.

ghost use Rattle.std.specs.Prelude.{◌≡◌, ◌<◌, length};
ghost use Rattle.table_rows.specs.Cells.{cell_in};
ghost use Rattle.tables.specs.FurtherColumns.{cell_at, further_in, reason_cell};

use analysis_reports::{Reason, words_of};
use fault_model::Classes;
use table_rows::Cell;

/// The columns that a table of faults is to have beside those that each has, in this order.
#[derive(Clone, Copy, Debug, PartialEq, Eq)]
pub struct FurtherColumns {
    /// Whether it has the reason of each fault that no test detects.
    pub reasons: bool,
    /// The number up to which the tests that detect each fault are counted, if it has the counts.
    pub detections: Option<u32>,
    /// Whether it has the class of each fault.
    pub classes: bool,
}

/// A further column.
#[derive(Clone, Copy)]
pub(crate) enum Further<'a> {
    /// The reason why no test detects the fault.
    Reasons(&'a [Option<Reason>]),
    /// The number of tests that detect the fault.
    Detections(&'a [u32]),
    /// The class of the fault.
    Classes(&'a Classes),
}

impl Further<'_> {
    /// Returns the name of the column.
    pub(crate) fn name(&self) -> &'static str
        ensures { result.now ≡ (further_in self.now).name }
    {
        match self {
            Further::Reasons(_) => "reason",
            Further::Detections(_) => "detections",
            Further::Classes(_) => "class",
        }
    }

    /// Returns the cell of a fault.
    pub(crate) fn cell(&self, fault: u32) -> Cell<'static>
        requires { fault < length (further_in self.now).cells }
        ensures { cell_in result ≡ cell_at (further_in self.now) fault }
    {
        match *self {
            Further::Reasons(reasons) => reason_cell(reasons[fault as usize]),
            Further::Detections(counts) => Cell::Number(u64::from(counts[fault as usize])),
            Further::Classes(classes) => Cell::Number(u64::from(classes.class_of(fault))),
        }
    }
}

/// Returns the cell of a reason, which is empty for a detected fault.
fn reason_cell(reason: Option<Reason>) -> Cell<'static>
    ensures { cell_in result ≡ reason_cell reason }
{
    match reason {
        Some(reason) => Cell::Words(words_of(reason)),
        None => Cell::Empty,
    }
}
