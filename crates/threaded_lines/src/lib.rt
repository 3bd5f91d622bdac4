//! The lines of a fault list, which threads put together.
//!
//! [`FaultLines`] has the line of each fault. [`put_in_threads`] writes the lines in the order of
//! the list, for the reports of the crates above: threads put the lines of stretches of the list
//! together.
#![tactic(auto)]

mod fault_lines;
mod in_threads;

pub use fault_lines::FaultLines;
pub use in_threads::put_in_threads;
