//! Fault simulation by fanout-free regions: the classes of a region share the circuit after its
//! stem.
//!
//! A signal is a stem unless its fanout is one pin of one gate. A class is followed to the stem of
//! its region. There all classes of the region are the same fault, the complemented stem, which is
//! simulated once for all of them. A [`RegionSimulation`] takes lists of classes and puts the stems
//! of several regions into one pack of 512 lanes, or one stem with 512 tests, and a [`Goal`] says
//! what it keeps of each class: the first test that detects it, say. It simulates a
//! [`block_sim::Job`].
#![tactic(auto)]

pub mod class_order;
mod goal;
mod known_wide;
mod known_words;
mod pack;
mod region;
mod region_simulation;
mod sensitized;
mod unit_approach;
mod unit_gate;
mod unit_region;
mod unit_simulation;
mod unit_start;

pub use goal::{FirstTest, FirstUnit, Goal};
pub use region_simulation::{RegionSimulation, sweep_from};
