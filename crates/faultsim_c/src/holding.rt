//! The contents of a handle: a session, and whether no other handle shares its job.

ghost use Rattle.std.specs.Prelude.{◌≡◌, IfErr, IfOk, length};
ghost use Rattle.bench_net.specs.Scan.{sources};
ghost use Rattle.patterns.specs.Making.{IsMadeOf};
ghost use Rattle.patterns.specs.Tests.{HasTests, TestList};
ghost use Rattle.block_sim.specs.Parts.{with_tests};
ghost use Rattle.faultsim_c.specs.Calls.{alone_with, shared_with};
ghost use Rattle.faultsim_c.specs.Following.{following};
ghost use Rattle.faultsim_c.specs.Statuses.{IsNextReply, IsTestsReply, IsWordsReply};

use crate::session::Session;
use crate::status::Refusal;
use std::alloc::{AllocError, Global};

/// The contents of a handle.
#[derive(Drop)]
pub(crate) struct Holding {
    pub(crate) session: Session,
    /// True if no other handle was given the job since it was read, or since it last took tests.
    pub(crate) alone: bool,
}

impl Holding {
    /// Makes the contents of another handle of the same job. Both handles then share the job.
    pub(crate) fn share(&mut self, alloc: Global) -> Result<Box<Holding>, AllocError>
        ensures other { IfOk result (λ other. other.value ≡ shared_with self.old.session) }
        ensures shared { IfOk result (λ _. self.new ≡ shared_with self.old.session) }
        ensures kept { IfErr result (λ _. self.new ≡ self.old) }
    {
        let session = self.session.share(alloc)?;
        let alone = false;
        let other = Box::new(alloc, Holding { session, alone })?;
        self.alone = false;
        Ok(other)
    }

    /// Replaces the job's tests with tests in words.
    pub(crate) fn set_words(
        &mut self,
        alloc: Global,
        count: u32,
        words: &[u64],
    ) -> Result<(), Refusal>
        ensures done { IfOk result (λ _. (tests : TestList)
            × IsMadeOf (length (sources self.old.session.circuit)) count words.now tests
            × (self.new ≡ alone_with (with_tests self.old.session tests))) }
        ensures refused { IfErr result (IsWordsReply self.old.alone
            (length (sources self.old.session.circuit)) count words.now) }
        ensures kept { IfErr result (λ _. self.new ≡ self.old) }
    {
        self.session.set_words(alloc, self.alone, count, words)?;
        self.alone = true;
        Ok(())
    }

    /// Replaces the job's tests with their last one and then tests in words.
    pub(crate) fn next_words(
        &mut self,
        alloc: Global,
        count: u32,
        words: &[u64],
    ) -> Result<(), Refusal>
        ensures done { IfOk result (λ _. (tests : TestList)
            × IsMadeOf (length (sources self.old.session.circuit)) count words.now tests
            × (self.new ≡ alone_with (with_tests self.old.session
            (following self.old.session.tests tests)))) }
        ensures refused { IfErr result (IsNextReply self.old.alone self.old.session.tests.tests
            (length (sources self.old.session.circuit)) count words.now) }
        ensures kept { IfErr result (λ _. self.new ≡ self.old) }
    {
        self.session.next_words(alloc, self.alone, count, words)?;
        self.alone = true;
        Ok(())
    }

    /// Replaces the job's tests with the tests of a test file.
    pub(crate) fn set_text(&mut self, alloc: Global, text: &[u8]) -> Result<(), Refusal>
        ensures done { IfOk result (λ _. (tests : TestList)
            × HasTests text.now (length (sources self.old.session.circuit)) tests
            × (self.new ≡ alone_with (with_tests self.old.session tests))) }
        ensures refused { IfErr result (IsTestsReply self.old.alone
            (length (sources self.old.session.circuit)) text.now) }
        ensures kept { IfErr result (λ _. self.new ≡ self.old) }
    {
        self.session.set_text(alloc, self.alone, text)?;
        self.alone = true;
        Ok(())
    }
}

/// States that the contents of a handle may go to another thread: each has room of its own, and all
/// share one job.
pub(crate) fn may_cross(holding: &Holding) {
    is_send(holding)
}

/// Takes a value that may go to another thread.
pub(crate) fn is_send<T: Send>(_value: &T) {}
