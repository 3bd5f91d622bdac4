//! A circuit in flat arrays, in the order of its signals, and its fault-free words.
//!
//! A [`flat::FlatCircuit`] has a row for each signal, at the signal's place in a topological order.
//! [`words`] evaluates its signals on the 128 tests of a group of two blocks at once, and
//! [`fault_free`] keeps these words for all groups. [`class_lists`] has the stem and the
//! representative of each class of faults. The crate `block_sim` simulates faults on these.
#![tactic(auto)]

pub mod block_lanes;
pub mod block_span;
pub mod block_view;
pub mod class_lists;
pub mod fault_free;
pub mod flat;
mod four_words;
pub mod gate_form;
pub mod line_signals;
mod live;
mod order_walk;
pub mod origin;
mod region_classes;
mod signal_order;
mod signal_places;
pub mod wide_lanes;
pub mod words;

pub use live::live_signals;
