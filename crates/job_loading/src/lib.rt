//! From the files of a run to a job, and from a job to its verdicts.
//!
//! [`job_of`] reads a circuit and tests for it, lists the faults of a model and collapses them.
//! [`read_run`] reads them for a run by workers in threads ([`RunJob`]).
//! [`SimFault`] is the error of these calls, and of calls that go on to write.
#![tactic(auto)]

mod fault;
mod pieces;
mod runs;
mod sums;
mod texts;

pub use fault::{ReportFault, SimFault};
pub use pieces::{LONG_TESTS, piece_bytes};
pub use region_runs::{ReasonCounts, RunJob, Watch};
pub use runs::{Limit, read_run, read_run_in_pieces};
pub use sums::{FileSums, sum_of};
pub use texts::{job_for, job_of, read_inputs};
