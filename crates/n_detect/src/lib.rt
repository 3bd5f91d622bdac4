//! Counts the tests of a list that detect each fault.
//!
//! A test set that detects each fault several times also detects more of the defects that no fault
//! model has (n-detect test sets: Ma, Franco and McCluskey, An Experimental Chip to Evaluate Test
//! Techniques). [`detections`] counts for all faults, in threads, and [`Count`] is the goal of
//! other runs that count. [`class_tests`] returns the tests themselves, for all classes, and
//! [`list_lanes`] those of a group, for a list of classes.
#![tactic(auto)]

mod count;
mod detecting;
mod faults;
mod lanes;

pub use count::{Count, ones_of};
pub use detecting::{ClassTests, class_tests};
pub use faults::detections;
pub use lanes::list_lanes;
