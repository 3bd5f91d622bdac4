//! The number of tests that detect a class, as the goal of a simulation.

ghost use Rattle.std.specs.Prelude.{◌≡◌, ◌^◌, ◌<◌, IfOk, map, min, nat_lt, true};
ghost use Rattle.n_detect.specs.CountLaws.{count_agrees, count_stays, count_unchanged};
ghost use Rattle.n_detect.specs.HitCounts.{IsHitCount, one_of};

use region_runs::WindowGoal;
use region_sim::{FirstUnit, Goal};
use std::alloc::{AllocError, Global};

/// Most classes of a list stay open behind their first 512 tests if each needs more than this
/// number of detections.
const MANY: u32 = 16;

/// The number of tests that detect a class, counted up to a number. A class is open until its count
/// is this number.
#[derive(Clone, Copy)]
pub struct Count {
    /// The number at which a count ends.
    pub most: u32,
}

impl Goal for Count {
    ghost use Rattle.std.specs.Prelude.{nat_lt, true};
    ghost use Rattle.n_detect.specs.CountLaws.{count_agrees, count_stays, count_unchanged};
    ghost use Rattle.n_detect.specs.HitCounts.{IsHitCount};

    type Kept = u32;

    ghost ALL_LANES = { true };

    const ALL_LANES: bool = true;

    ghost wants = { λ goal kept. nat_lt kept goal.most };

    ghost means = { λ goal hits low high kept. IsHitCount goal.most hits low high kept };

    ghost stays = { λ goal kept hits low high more. count_stays goal.most kept hits low high more };

    ghost agrees = { λ goal one other hits low high.
        count_agrees goal.most one other hits low high };

    ghost unchanged = { λ goal kept hits low high more.
        count_unchanged goal.most kept hits low high more };

    fn first_unit(&self) -> FirstUnit {
        if self.most > MANY {
            FirstUnit::AtOnce
        } else {
            FirstUnit::InBlocks
        }
    }

    fn start(&self, _alloc: Global) -> Result<u32, AllocError> {
        Ok(0)
    }

    #[inline(always)]
    fn is_open(&self, kept: &u32) -> bool {
        *kept < self.most
    }

    #[inline(always)]
    fn take(&self, kept: &mut u32, _group: u32, lanes: u128) {
        let more = kept.saturating_add(lanes.count_ones());
        *kept = least(self.most, more);
    }
}

impl WindowGoal for Count {
    fn join(&self, kept: &mut u32, later: &u32, _start: u32) {
        let more = kept.saturating_add(*later);
        *kept = least(self.most, more);
    }
}

/// Returns the lesser of two numbers.
#[inline(always)]
fn least(one: u32, other: u32) -> u32
    ensures least { result ≡ min one other }
    ensures fits { one < 2 ^ 32 }
{
    one.min(other)
}

/// Returns for each first test the count of the tests, up to `most`, which is 0 or 1.
pub fn ones_of(alloc: Global, firsts: &[Option<u32>], most: u32) -> Result<Vec<u32>, AllocError>
    ensures { IfOk result (λ ones. ones.items ≡ map (λ first. min most (one_of first)) firsts.now) }
{
    firsts
        .iter()
        .map(|first| one_of(*first, most))
        .collect(alloc)
}

/// Returns 1, or `most` if that is less, if there is a first test, and 0 if not.
fn one_of(first: Option<u32>, most: u32) -> u32
    ensures { result ≡ min most (one_of first) }
{
    match first {
        Some(_test) => most.min(1),
        None => 0,
    }
}
