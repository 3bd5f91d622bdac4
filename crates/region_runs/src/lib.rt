//! Runs of a job region by region, and their verdicts.
//!
//! The classes of a job are listed region by region and cut into stretches. One worker simulates a
//! stretch by itself, block after block, and skips a class that an earlier block detects. Workers
//! claim the stretches at a ledger of the crate `fault_ledger`. The verdicts are the first tests,
//! as in a run by pieces ([`workers::run`]). They depend neither on the stretches nor on the order
//! of the workers.
//!
//! A [`RunJob`] runs all classes for a [`WindowGoal`], all blocks at once or window by window, as
//! its tests want it, under a gate that may observe the run ([`Watch`]). [`RunJob::run`] returns
//! the verdicts. [`run_goal`] runs a job that has its tests for any [`region_sim::Goal`], and
//! [`run_list`] only the classes of a list. [`run_part`] runs the classes of one part of a run that
//! several machines share, and [`RunJob::read_words`] reads the fault-free words. [`run_alone`]
//! runs a list of classes in the thread of its caller.
#![tactic(auto)]

mod alone;
mod class_order;
mod fault_firsts;
mod goal_run;
mod list_run;
mod open_classes;
mod part_run;
mod parts;
mod run_job;
mod stretch_run;
mod stretch_workers;
mod stretches;
mod watch;
mod window_goal;
mod windows;
mod word_reader;

pub use alone::run_alone;
pub use goal_run::{GoalRun, run_goal};
pub use list_run::run_list;
pub use open_classes::all_open;
pub use part_run::run_part;
pub use parts::{PartVerdict, in_one_part, part_of};
pub use run_job::RunJob;
pub use stretches::stretches_for;
pub use watch::{ReasonCounts, Watch};
pub use window_goal::WindowGoal;
pub use windows::window_blocks;
pub use word_reader::WordReader;
