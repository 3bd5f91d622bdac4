//! Why threads have not read a file.

use bench_net::BenchFault;
use std::alloc::{AllocError, AllocFailed};

/// Why threads have not read a file.
#[derive(Clone, Copy)]
pub(crate) enum Setback {
    /// There is no memory.
    Memory,
    /// A line has an error, or a thread did not start: one thread reads the file again, and finds
    /// the first error.
    Again,
}

impl From<AllocError> for Setback {
    fn from(_error: AllocError) -> Setback {
        Setback::Memory
    }
}

impl<T: Drop> From<AllocFailed<T>> for Setback {
    fn from(_error: AllocFailed<T>) -> Setback {
        Setback::Memory
    }
}

impl From<BenchFault> for Setback {
    fn from(fault: BenchFault) -> Setback {
        match fault {
            BenchFault::Memory => Setback::Memory,
            _ => Setback::Again,
        }
    }
}
