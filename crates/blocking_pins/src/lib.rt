//! The pins at which the effects of undetected faults stop.
//!
//! A fault that a test activates isn't detected if its effect stops at gates on the way to the
//! observers: another pin of such a gate has the controlling value. Bushnell and Agrawal
//! (Essentials of Electronic Testing) call these pins the side inputs of the path.
//! [`blocking_pins`] returns all of them, with the number of faults that each blocks.
#![tactic(auto)]

mod blocked;
mod counting;
mod effect;
mod gate_pins;
mod pins;
mod readers;
mod sorted;
mod tally;

pub use pins::{BlockingPin, blocking_pins};
