//! Goals of runs window by window.

ghost use Rattle.std.specs.Prelude.{◌≡◌, ◌≢◌, ◌<◌, ◌≤◌, ℕ, IfOk, count_by, length, slice_get};
ghost use Rattle.region_runs.specs.Joins.{AreJoined, HasJoinedAt, Joins};
ghost use Rattle.region_runs.specs.WindowLedgers.{open_classes};

use region_sim::{FirstTest, Goal};
use std::alloc::{AllocError, Global};

/// A goal that a run window by window may have: what it keeps of the tests of a window is joined
/// with what it keeps of those before.
pub trait WindowGoal: Goal {
    ghost use Rattle.std.specs.Prelude.{◌≤◌};
    ghost use Rattle.region_runs.specs.Joins.{Joins};

    /// Joins what is kept of a class of some tests with what is kept of those of a window, which
    /// follow. The window's test 0 has this number, counted from 0, among all tests.
    fn join(&self, kept: &mut Self::Kept, later: &Self::Kept, start: u32)
        requires { start ≤ 65536 }
        ensures { Joins (Self.means self.now) start kept.old later.now kept.new };
}

impl WindowGoal for FirstTest {
    fn join(&self, kept: &mut Option<u32>, later: &Option<u32>, start: u32) {
        if kept.is_some() {
            return;
        }
        *kept = match later {
            Some(test) => Some(test.saturating_add(start)),
            None => None,
        };
    }
}

/// Returns the classes of a list of which more tests can change what is kept.
pub(crate) fn open_classes<A: Goal>(
    alloc: Global,
    goal: &A,
    classes: &[u32],
    kept: &[A::Kept],
) -> Result<Vec<u32>, AllocError>
    requires { length kept.now ≡ length classes.now }
    ensures { IfOk result (λ left.
        left.items ≡ open_classes (A.wants goal.now) classes.now kept.now) }
{
    classes
        .iter()
        .zip(kept)
        .filter(|(_class, one)| goal.is_open(one))
        .map(|(class, _one)| *class)
        .collect(alloc)
}

/// Joins what is kept of classes with what was found of those of them that more tests can change,
/// on a window whose test 0 has this number among all tests.
pub(crate) fn join_window<A: WindowGoal>(
    goal: &A,
    kept: &mut [A::Kept],
    found: &[A::Kept],
    start: u32,
)
    requires start { start ≤ 65536 }
    requires found { length found.now ≡ count_by (A.wants goal.now) kept.old }
    ensures { AreJoined (A.wants goal.now) (A.means goal.now) start kept.old found.now kept.new }
{
    let mut next = 0;
    for place in 0..kept.len() {
        if !goal.is_open(&kept[place]) {
            continue;
        }
        join_at(goal, kept, place, &found[next], start);
        next += 1;
    }
}

/// Joins what is kept at a place of a list with what was found of a window.
fn join_at<A: WindowGoal>(goal: &A, kept: &mut [A::Kept], place: usize, later: &A::Kept, start: u32)
    requires start { start ≤ 65536 }
    requires place { place < length kept.old }
    ensures places { length kept.new ≡ length kept.old }
    ensures others { (other : ℕ) → other ≢ place
        → slice_get kept.new other ≡ slice_get kept.old other }
    ensures joined { HasJoinedAt (A.means goal.now) start later.now kept.old kept.new place }
{
    goal.join(&mut kept[place], later, start);
}
