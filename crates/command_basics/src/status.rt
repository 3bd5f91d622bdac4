//! The exit statuses of the programs.

ghost use Rattle.std.specs.Prelude.{◌<◌, ◌≤◌};

use bench_net::BenchFault;
use block_sim::JobFault;
use patterns::{OrderFault, TestFault};
use report::{ReportFault, RunFault, SimFault};

/// The status of a command that is done.
pub const DONE: u8 = 0;

/// The status of a file with an error.
pub const REFUSED: u8 = 1;

/// The status of a command line with an error.
pub const MISUSED: u8 = 2;

/// The status of a file that cannot be read or written, an output that fails, or missing memory or
/// threads.
pub const FAILED: u8 = 3;

/// Returns the status of an error: 1 for an error of a file, and 2 for a wrong number of workers.
/// It is 3 if the output fails, if memory or a thread is missing, and if the run did not end.
pub fn status_of(fault: &SimFault) -> u8
    ensures failed { 0 < result }
    ensures few { result ≤ 3 }
{
    match fault {
        SimFault::Bench(fault) => match fault {
            BenchFault::TooLarge(_) | BenchFault::Syntax(_) | BenchFault::Redefined(_) => REFUSED,
            BenchFault::Undefined(_) | BenchFault::Cycle(_) | BenchFault::Empty => REFUSED,
            BenchFault::Memory => FAILED,
        },
        SimFault::Tests(fault) => match fault {
            TestFault::BadByte(_) | TestFault::BadWidth(_) | TestFault::TooMany => REFUSED,
            TestFault::Memory => FAILED,
        },
        SimFault::Order(fault) => match fault {
            OrderFault::BadNumber(_) | OrderFault::NoSuchWorker(_) | OrderFault::TooMany => REFUSED,
            OrderFault::Memory => FAILED,
        },
        SimFault::Job(JobFault::TooManyPieces) => REFUSED,
        SimFault::Job(JobFault::Memory) => FAILED,
        SimFault::Run(fault) => match fault {
            RunFault::NoWorkers | RunFault::TooManyWorkers => MISUSED,
            RunFault::NoSuchMove(_) | RunFault::TooManyPieces => REFUSED,
            RunFault::Memory | RunFault::Threads | RunFault::Unfinished { .. } => FAILED,
        },
        SimFault::Report(ReportFault::Write) | SimFault::Memory => FAILED,
    }
}
