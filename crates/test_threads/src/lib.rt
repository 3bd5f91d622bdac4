//! Test files read in several threads, or piece by piece.
//!
//! [`read_tests_in_threads`] returns the tests or the error that [`patterns::read_tests`] returns.
//! [`read_tests_in_pieces`] returns the same tests for the files that it can read, and `None` for
//! all others. [`read_tests_beside`] does so while the caller's thread does other work.
#![tactic(auto)]

mod in_pieces;
mod in_threads;
mod shared_file;

pub use in_pieces::{LARGE_PIECE, read_tests_beside, read_tests_in_pieces};
pub use in_threads::read_tests_in_threads;
