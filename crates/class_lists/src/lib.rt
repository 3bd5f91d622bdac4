//! Lists of classes, simulated in the thread of the caller, in a time that goes with the list.
//!
//! A [`ListSimulation`] of a job keeps room for the simulation of regions, and a rank for each
//! class. A list of many classes is put in the order of its ranks, so that classes of one region
//! are adjacent, and simulated block after block. What is found of a class comes back at its place
//! in the list.
//!
//! [`ListSimulation::first_tests`] finds the first test that detects each class of a list, and
//! [`ListSimulation::fault_firsts`] that of each fault of the job. [`ListSimulation::detections`]
//! counts the tests that detect a class, and [`ListSimulation::lanes`] returns those of a group.
#![tactic(auto)]

mod count;
mod fault_firsts;
mod list_order;
mod list_simulation;

pub use list_simulation::ListSimulation;
