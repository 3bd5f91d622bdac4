//! The report of a call to C: a status, and the error of a file or of words.

ghost use Rattle.std.specs.Prelude.{◌≡◌, ◌≢◌};
ghost use Rattle.faultsim_c.specs.Statuses.{error_numbers, status_number};

use bench_net::{BenchFault, Limit};
use patterns::{TestFault, WordsFault};
use std::alloc::{AllocError, AllocFailed};

/// The number that stands for no first test.
pub(crate) const NONE: u32 = u32::MAX;

/// The call is done.
pub(crate) const DONE: u32 = 0;
/// The handle has no job.
pub(crate) const NO_JOB: u32 = 1;
/// Memory ran out.
pub(crate) const MEMORY: u32 = 2;
/// A file or words are wrong: the error is in [`FsFault`].
pub(crate) const REFUSED: u32 = 3;
/// A number is out of range, or an array has a wrong length.
pub(crate) const RANGE: u32 = 4;
/// Another handle shares the job.
pub(crate) const SHARED: u32 = 5;

/// The error of a file or of words: a kind, and a place that depends on it.
#[repr(C)]
#[derive(Clone, Copy)]
pub struct FsFault {
    /// One of the kinds of `faultsim.h`, from 1.
    pub kind: u32,
    /// A line from 1, a source from 0, or 0 if the kind has no place.
    pub place: u64,
}

/// The reason why a call isn't done.
#[derive(Clone, Copy)]
pub(crate) enum Refusal {
    Bench(BenchFault),
    Tests(TestFault),
    Words(WordsFault),
    /// Another handle shares the job.
    Shared,
    Memory,
}

impl From<BenchFault> for Refusal {
    ghost use Rattle.std.specs.Prelude.{◌≡◌};
    ghost use Rattle.faultsim_c.specs.declared.status.Refusal.TheVariants as refusal;

    ghost from_gives = { λ f s. s ≡ refusal.Bench f };

    fn from(fault: BenchFault) -> Refusal {
        Refusal::Bench(fault)
    }
}

impl From<TestFault> for Refusal {
    ghost use Rattle.std.specs.Prelude.{◌≡◌};
    ghost use Rattle.faultsim_c.specs.declared.status.Refusal.TheVariants as refusal;

    ghost from_gives = { λ f s. s ≡ refusal.Tests f };

    fn from(fault: TestFault) -> Refusal {
        Refusal::Tests(fault)
    }
}

impl From<WordsFault> for Refusal {
    ghost use Rattle.std.specs.Prelude.{◌≡◌};
    ghost use Rattle.faultsim_c.specs.declared.status.Refusal.TheVariants as refusal;

    ghost from_gives = { λ f s. s ≡ refusal.Words f };

    fn from(fault: WordsFault) -> Refusal {
        Refusal::Words(fault)
    }
}

impl From<AllocError> for Refusal {
    ghost use Rattle.std.specs.Prelude.{◌≡◌};
    ghost use Rattle.faultsim_c.specs.declared.status.Refusal.TheVariants as refusal;

    ghost from_gives = { λ _ s. s ≡ refusal.Memory };

    fn from(_: AllocError) -> Refusal {
        Refusal::Memory
    }
}

/// Returns the kind and the place of an error.
fn fault_of(refusal: Refusal) -> FsFault
    ensures { result ≡ error_numbers refusal }
{
    let (kind, place) = match refusal {
        Refusal::Bench(BenchFault::TooLarge(Limit::Bytes)) => (1, 0),
        Refusal::Bench(BenchFault::TooLarge(Limit::Signals)) => (2, 0),
        Refusal::Bench(BenchFault::TooLarge(Limit::Sinks)) => (3, 0),
        Refusal::Bench(BenchFault::Syntax(line)) => (4, line),
        Refusal::Bench(BenchFault::Redefined(line)) => (5, line),
        Refusal::Bench(BenchFault::Undefined(line)) => (6, line),
        Refusal::Bench(BenchFault::Cycle(line)) => (7, line),
        Refusal::Bench(BenchFault::Empty) => (8, 0),
        Refusal::Tests(TestFault::BadByte(line)) => (9, line),
        Refusal::Tests(TestFault::BadWidth(line)) => (10, line),
        Refusal::Tests(TestFault::TooMany) => (11, 0),
        Refusal::Words(WordsFault::TooMany) => (12, 0),
        Refusal::Words(WordsFault::BadCount) => (13, 0),
        Refusal::Words(WordsFault::IdleBits(source)) => (14, u64::from(source)),
        Refusal::Bench(BenchFault::Memory)
        | Refusal::Tests(TestFault::Memory)
        | Refusal::Words(WordsFault::Memory)
        | Refusal::Shared
        | Refusal::Memory => (0, 0),
    };
    FsFault { kind, place }
}

/// Returns the status of a call that isn't done.
fn status_of_refusal(refusal: Refusal) -> u32
    ensures { result ≡ status_number refusal }
{
    match refusal {
        Refusal::Memory
        | Refusal::Bench(BenchFault::Memory)
        | Refusal::Tests(TestFault::Memory)
        | Refusal::Words(WordsFault::Memory) => MEMORY,
        Refusal::Shared => SHARED,
        _ => REFUSED,
    }
}

/// Returns the status of an error: `fault` is written only if the status is [`REFUSED`].
pub(crate) fn tell(refusal: Refusal, fault: &mut FsFault) -> u32
    ensures status { result ≡ status_number refusal }
    ensures fault { result ≡ 3 → fault.new ≡ error_numbers refusal }
    ensures kept { result ≢ 3 → fault.new ≡ fault.old }
{
    let status = status_of_refusal(refusal);
    if status == REFUSED {
        *fault = fault_of(refusal);
    }
    status
}
