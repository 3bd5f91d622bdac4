//! What a simulation keeps of each class, by its goal.

ghost use Rattle.std.specs.Prelude.{◌≡◌, ◌≤◌, ◌^◌, ◌<◌, ℕ, Bool, IfOk, Option, false};
ghost use Rattle.region_sim.specs.Goals.{HasTaken, IsFirstHit, is_unknown};
ghost use Rattle.region_sim.specs.GoalLaws.{first_agrees, first_stays, first_unchanged};

use std::alloc::{AllocError, Global};

/// How a run takes its first 512 tests.
#[derive(Clone, Copy)]
pub enum FirstUnit {
    /// Block after block: the first blocks settle most classes of a list.
    InBlocks,
    /// As one unit: most classes stay open.
    AtOnce,
}

/// What is kept of each class, of the tests that detect it: the first one, say.
pub trait Goal {
    ghost use Rattle.std.specs.Prelude.{◌≡◌, ◌≤◌, ◌^◌, ◌<◌, ℕ, Bool, IfOk, false};
    ghost use Rattle.region_sim.specs.Goals.{HasTaken};

    /// What is kept of one class.
    type Kept: Drop;

    ghost ALL_LANES: { Bool };

    /// Whether each test that detects a class counts. If not, tests of a block behind the first one
    /// of a class there may be left out.
    const ALL_LANES: bool;

    /// Whether more tests can change what is kept.
    ghost wants: { Self → Self.Kept → Bool };

    /// What is kept of a class of the tests from one up to another, which aren't all of them, by
    /// which of them detect it.
    ghost means: { Self → (ℕ → Bool) → ℕ → ℕ → Self.Kept → Type 0 };

    /// What no test can change any more is kept of all later tests, too.
    ghost stays: { (goal : Self) (kept : Self.Kept) (hits : ℕ → Bool) (low high more : ℕ)
        → wants goal kept ≡ false → high ≤ more → means goal hits low high kept
        → means goal hits low more kept };

    /// What is kept of some tests decides whether more of them can change it.
    ghost agrees: { (goal : Self) (one other : Self.Kept) (hits : ℕ → Bool) (low high : ℕ)
        → means goal hits low high one → means goal hits low high other
        → wants goal one ≡ wants goal other };

    /// Tests that don't detect a class change nothing.
    ghost unchanged: { (goal : Self) (kept : Self.Kept) (hits : ℕ → Bool) (low high more : ℕ)
        → high ≤ more → ((t : ℕ) → high ≤ t → t < more → hits t ≡ false)
        → means goal hits low high kept → means goal hits low more kept };

    /// Returns how a run of a list of all kinds of classes takes its first 512 tests. It changes
    /// the time that the run needs, and nothing else.
    fn first_unit(&self) -> FirstUnit;

    /// Returns what is kept of no test.
    fn start(&self, alloc: Global) -> Result<Self::Kept, AllocError>
        ensures { IfOk result (λ kept. (hits : ℕ → Bool) (at : ℕ)
            → means self.now hits at at kept) };

    /// Returns whether more tests can change what is kept of a class.
    fn is_open(&self, kept: &Self::Kept) -> bool
        ensures { result ≡ wants self.now kept.now };

    /// Takes tests of a group of 128 more. The lanes of a word tell which of them detect the class:
    /// lane k stands for test `128 * group + k`, counted from 0.
    fn take(&self, kept: &mut Self::Kept, group: u32, lanes: u128)
        requires { group < 2 ^ 24 }
        ensures { HasTaken ALL_LANES (means self.now) group lanes kept.old kept.new };
}

/// The first test that detects a class, counted from 0, or none.
#[derive(Clone, Copy)]
pub struct FirstTest;

impl Goal for FirstTest {
    ghost use Rattle.std.specs.Prelude.{Option, false};
    ghost use Rattle.region_sim.specs.Goals.{IsFirstHit, is_unknown};
    ghost use Rattle.region_sim.specs.GoalLaws.{first_agrees, first_stays, first_unchanged};

    type Kept = Option<u32>;

    ghost ALL_LANES = { false };

    const ALL_LANES: bool = false;

    ghost wants = { λ _ kept. is_unknown kept };

    ghost means = { λ _ hits low high kept. IsFirstHit hits low high kept };

    ghost stays = { λ _ kept hits low high more. first_stays kept hits low high more };

    ghost agrees = { λ _ one other hits low high. first_agrees one other hits low high };

    ghost unchanged = { λ _ kept hits low high more. first_unchanged kept hits low high more };

    fn first_unit(&self) -> FirstUnit {
        FirstUnit::InBlocks
    }

    fn start(&self, _alloc: Global) -> Result<Option<u32>, AllocError> {
        Ok(None)
    }

    #[inline(always)]
    fn is_open(&self, kept: &Option<u32>) -> bool {
        kept.is_none()
    }

    #[inline(always)]
    fn take(&self, kept: &mut Option<u32>, group: u32, lanes: u128) {
        if kept.is_some() {
            return;
        }
        if lanes == 0 {
            return;
        }
        *kept = Some(128 * group + lanes.trailing_zeros());
    }
}
