//! The places of a list whose classes may be open: for each place the next one.

ghost use Rattle.std.specs.Prelude.{◌≡◌, ◌+◌, ◌^◌, ◌<◌, IfOk, Some, length, slice_get};
ghost use Rattle.std.specs.Prelude.{slice_set};
ghost use Rattle.region_sim.specs.OpenPlaces.{AreSuccessors};

use std::alloc::{AllocError, Global};

/// Returns for each of some places the one after it, which is the next one of a list in which all
/// classes may be open.
pub fn all_open(alloc: Global, places: usize) -> Result<Vec<usize>, AllocError>
    requires { places < 2 ^ 63 }
    ensures count { IfOk result (λ next. length next.items ≡ places) }
    ensures next { IfOk result (λ next. AreSuccessors next.items) }
{
    let mut next = Vec::with_capacity(alloc, places)?;
    for place in 0..places {
        next.push(place + 1)?;
    }
    Ok(next)
}

/// Lets the place after it be the next one of each place.
pub(crate) fn follow_all(next: &mut [usize])
    requires { length next.old < 2 ^ 63 }
    ensures count { length next.new ≡ length next.old }
    ensures next { AreSuccessors next.new }
{
    for place in 0..next.len() {
        next[place] = place + 1;
    }
}

/// Returns the next place whose class may be open.
#[inline(always)]
pub(crate) fn next_open(next: &[usize], place: usize) -> usize
    requires { place < length next.now }
    ensures { slice_get next.now place ≡ Some result }
{
    next[place]
}

/// Takes out a place, the next one of a place before it. Returns the place after it.
#[inline(always)]
pub(crate) fn leave_out(next: &mut [usize], before: usize, place: usize) -> usize
    requires before { before < length next.old }
    requires place { place < length next.old }
    ensures following { slice_get next.old place ≡ Some result }
    ensures left_out { next.new ≡ slice_set next.old before result }
{
    let following = next[place];
    next[before] = following;
    following
}
