//! A call that is tried with no memory left, and then with more and more.

use crate::checks::check;
use crate::memory::ballast::{Ballast, ROOM};
use std::alloc::{AllocError, Global};
use std::process::Abort;

/// The outcome of a call.
#[derive(Clone, Copy, PartialEq, Eq)]
pub(crate) enum Outcome {
    /// The result that it has with memory.
    Right,
    /// It ran out of memory or threads, and reports so.
    Refused,
    /// Anything else.
    Wrong,
}

/// Returns the outcome of a call that did not fail.
pub(crate) fn answered(is_right: bool) -> Outcome {
    if is_right {
        Outcome::Right
    } else {
        Outcome::Wrong
    }
}

/// Returns the outcome of a call that failed.
pub(crate) fn refused(is_memory: bool) -> Outcome {
    if is_memory {
        Outcome::Refused
    } else {
        Outcome::Wrong
    }
}

/// A call that can be tried again.
pub(crate) trait Trial {
    /// Returns the name of the call.
    fn name(&self) -> &str;

    /// Makes the call.
    fn attempt(&self, alloc: Global) -> Outcome;
}

/// Returns whether a call succeeds, at the second try if the first failed.
fn succeeds<T: Trial>(alloc: Global, trial: &T) -> bool {
    match trial.attempt(alloc) {
        Outcome::Right => true,
        Outcome::Refused => trial.attempt(alloc) == Outcome::Right,
        Outcome::Wrong => false,
    }
}

/// Returns whether a call fails with one block of memory more each time, until it succeeds.
fn recovers<T: Trial>(alloc: Global, trial: &T, ballast: &mut Ballast) -> bool {
    for _step in 0..ROOM {
        ballast.release();
        match trial.attempt(alloc) {
            Outcome::Right => return true,
            Outcome::Refused => {}
            Outcome::Wrong => return false,
        }
    }
    false
}

/// Returns whether a call fails with no memory, and then until it succeeds.
fn is_refused_until<T: Trial>(alloc: Global, trial: &T) -> Result<bool, AllocError> {
    let mut ballast = Ballast::all(alloc)?;
    Ok(trial.attempt(alloc) == Outcome::Refused && recovers(alloc, trial, &mut ballast))
}

/// How a call is tried.
#[derive(Clone, Copy)]
pub(crate) enum Way {
    /// Once, and once more if it failed. It must then succeed, because only one allocation or the
    /// start of one thread fails here.
    Once,
    /// With ample memory, then with none, and then with one block more each time until it succeeds.
    /// It must fail at first, and never be wrong.
    Sweep,
}

/// Returns whether a call passes if it is tried in this way.
fn passes<T: Trial>(alloc: Global, trial: &T, way: Way) -> bool {
    match way {
        Way::Once => succeeds(alloc, trial),
        Way::Sweep => {
            trial.attempt(alloc) == Outcome::Right && is_refused_until(alloc, trial) == Ok(true)
        }
    }
}

/// Tries a call in this way, and stops the test if it doesn't pass.
pub(crate) fn try_call<T: Trial, R: Abort>(rt: &R, alloc: Global, trial: &T, way: Way) {
    check(rt, passes(alloc, trial, way), trial.name());
}
