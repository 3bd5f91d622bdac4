//! Tests of the command line that the built program can't show, of the text calls and of refused
//! memory, and the worked examples of the library. All other tests are cases that the program runs.
//!
//! They are in one crate, because each crate of tests loads and links all crates below it.
#![tactic(auto)]

#[cfg(test)]
mod checks;
#[cfg(test)]
mod examples;
#[cfg(test)]
mod memory;
#[cfg(test)]
mod outputs;
#[cfg(test)]
mod process;
#[cfg(test)]
mod screen;
#[cfg(test)]
mod text_calls;
#[cfg(test)]
mod watched;
