//! The check of a case, for all tests of this crate.

use std::alloc::{AllocError, Global};
use std::fmt::Display;
use std::process::Abort;

/// Stops the test if the case of this name does not hold.
pub(crate) fn check(rt: &impl Abort, holds: bool, name: &str) {
    assert!(rt; holds, "{name}");
}

/// Stops the test if the case of this name fails or does not hold.
///
/// It lets the error go, so that no test has to.
pub(crate) fn check_ok<E: Drop>(rt: &impl Abort, holds: Result<bool, E>, name: &str) {
    assert!(rt; matches!(holds, Ok(true)), "{name}");
}

/// Returns whether an error is written in these words.
pub(crate) fn is_said<F: Display>(
    alloc: Global,
    fault: &F,
    words: &str,
) -> Result<bool, AllocError> {
    let said = format!(in alloc; "{fault}")?;
    Ok(said.as_str() == words)
}
