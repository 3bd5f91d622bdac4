//! Errors of calls over files.

use bench_net::BenchFault;
use block_sim::JobFault;
use byte_output::OutFailed;
use orders::OrderFault;
use patterns::TestFault;
use std::alloc::AllocError;
use thiserror::Error;
use workers::RunFault;

/// An error of writing a report or a list.
#[derive(Clone, Copy, Debug, PartialEq, Eq, Error)]
pub enum ReportFault {
    /// The output took nothing more, after a beginning of the text.
    #[error("cannot write")]
    Write,
}

impl From<OutFailed> for ReportFault {
    fn from(_: OutFailed) -> ReportFault {
        ReportFault::Write
    }
}

/// An error of a call over files: the error of the part that failed.
#[derive(Clone, Copy, Debug, PartialEq, Eq, Error)]
pub enum SimFault {
    /// The bench file has an error.
    #[error("{0}")]
    Bench(BenchFault),
    /// The test file has an error.
    #[error("{0}")]
    Tests(TestFault),
    /// The order file has an error.
    #[error("{0}")]
    Order(OrderFault),
    /// The circuit and the tests make too many pieces, or memory ran out.
    #[error("{0}")]
    Job(JobFault),
    /// The run failed.
    #[error("{0}")]
    Run(RunFault),
    /// The text was not written in full.
    #[error("{0}")]
    Report(ReportFault),
    /// Memory ran out.
    #[error("out of memory")]
    Memory,
}

impl From<BenchFault> for SimFault {
    ghost use Rattle.std.specs.Prelude.{◌≡◌};
    ghost use Rattle.job_loading.specs.declared.fault.SimFault.TheVariants as fault;

    ghost from_gives = { λ f s. s ≡ fault.Bench f };

    fn from(fault: BenchFault) -> SimFault {
        SimFault::Bench(fault)
    }
}

impl From<TestFault> for SimFault {
    ghost use Rattle.std.specs.Prelude.{◌≡◌};
    ghost use Rattle.job_loading.specs.declared.fault.SimFault.TheVariants as fault;

    ghost from_gives = { λ f s. s ≡ fault.Tests f };

    fn from(fault: TestFault) -> SimFault {
        SimFault::Tests(fault)
    }
}

impl From<OrderFault> for SimFault {
    ghost use Rattle.std.specs.Prelude.{◌≡◌};
    ghost use Rattle.job_loading.specs.declared.fault.SimFault.TheVariants as fault;

    ghost from_gives = { λ f s. s ≡ fault.Order f };

    fn from(fault: OrderFault) -> SimFault {
        SimFault::Order(fault)
    }
}

impl From<JobFault> for SimFault {
    ghost use Rattle.std.specs.Prelude.{◌≡◌};
    ghost use Rattle.job_loading.specs.declared.fault.SimFault.TheVariants as fault;

    ghost from_gives = { λ f s. s ≡ fault.Job f };

    fn from(fault: JobFault) -> SimFault {
        SimFault::Job(fault)
    }
}

impl From<RunFault> for SimFault {
    ghost use Rattle.std.specs.Prelude.{◌≡◌};
    ghost use Rattle.job_loading.specs.declared.fault.SimFault.TheVariants as fault;

    ghost from_gives = { λ f s. s ≡ fault.Run f };

    fn from(fault: RunFault) -> SimFault {
        SimFault::Run(fault)
    }
}

impl From<ReportFault> for SimFault {
    ghost use Rattle.std.specs.Prelude.{◌≡◌};
    ghost use Rattle.job_loading.specs.declared.fault.SimFault.TheVariants as fault;

    ghost from_gives = { λ f s. s ≡ fault.Report f };

    fn from(fault: ReportFault) -> SimFault {
        SimFault::Report(fault)
    }
}

impl From<AllocError> for SimFault {
    ghost use Rattle.std.specs.Prelude.{◌≡◌};
    ghost use Rattle.job_loading.specs.declared.fault.SimFault.TheVariants as fault;

    ghost from_gives = { λ _ s. s ≡ fault.Memory };

    fn from(_: AllocError) -> SimFault {
        SimFault::Memory
    }
}
