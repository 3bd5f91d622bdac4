//! The tests that detect each class of a job.

ghost use Rattle.std.specs.Prelude.{◌<◌, ◌≤◌, IfErr, IfOk, OnOk, true};
ghost use Rattle.region_runs.specs.Refused.{IsOpenFault};
ghost use Rattle.n_detect.specs.ClassTests.{AreClassTests, AreGroupsIn};
ghost use Rattle.n_detect.specs.CountLaws.{always_wanted, groups_unchanged};

use block_sim::Job;
use region_runs::{GoalRun, Watch, run_goal};
use region_sim::{FirstUnit, Goal};
use std::alloc::{AllocError, Global};
use std::sync::Wait;
use std::thread::Threads;
use workers::RunFault;

/// The tests of a job that detect each class.
#[derive(Drop)]
pub struct ClassTests {
    /// For each class, by its number, its position.
    pub positions: Vec<u32>,
    /// At each position a word for each group of 128 tests: bit k, from the least, is 1 exactly if
    /// test `128 * group + k` detects the class.
    pub words: Vec<Vec<u128>>,
}

/// Returns the tests that detect each class of a job. The run is one in this number of stretches
/// ([`run_goal`]), under a gate that lets each piece pass. Beside the rooms of the workers it takes
/// 16 bytes for each class and group of 128 tests.
///
/// # Errors
///
/// [`RunFault::NoWorkers`]; [`RunFault::TooManyWorkers`] above 64 workers; [`RunFault::Memory`] or
/// [`RunFault::Threads`] if memory runs out or a thread doesn't start.
pub fn class_tests<G: Watch + Sync, R: Threads + Wait>(
    rt: &R,
    alloc: Global,
    job: &Job,
    stretches: u32,
    workers: u32,
    gate: &G,
) -> Result<ClassTests, RunFault>
    requires passing { G.passing gate.now }
    requires stretches { 0 < stretches }
    ensures tests { IfOk result (λ tests.
        AreClassTests job.now tests.positions.items tests.words.items) }
    ensures workers { OnOk result ((0 < workers) × (workers ≤ 64)) }
    ensures refused { IfErr result (IsOpenFault workers) }
{
    let goal = GroupTests {
        groups: job.tests().blocks().div_ceil(2),
    };
    gate.starts(job.classes().count(), job.tests().blocks());
    let done = run_goal(rt, alloc, job, stretches, workers, &goal, gate)?;
    gate.ends();
    let GoalRun {
        classes: _classes,
        positions,
        kept,
    } = done;
    Ok(ClassTests {
        positions,
        words: kept,
    })
}

/// The tests that detect a class, as the goal of a simulation: a word for each group of 128 tests.
#[derive(Clone, Copy)]
struct GroupTests {
    groups: u32,
}

impl Goal for GroupTests {
    ghost use Rattle.std.specs.Prelude.{refl, true};
    ghost use Rattle.n_detect.specs.ClassTests.{AreGroupsIn};
    ghost use Rattle.n_detect.specs.CountLaws.{always_wanted, groups_unchanged};

    type Kept = Vec<u128>;

    ghost ALL_LANES = { true };

    const ALL_LANES: bool = true;

    ghost wants = { λ _ _. true };

    ghost means = { λ goal hits low high kept. AreGroupsIn goal.groups hits low high kept.items };

    ghost stays = { λ goal kept hits low high more wanted le was. always_wanted wanted };

    ghost agrees = { λ _ one other hits low high a b. refl };

    ghost unchanged = { λ goal kept hits low high more.
        groups_unchanged goal.groups kept.items hits low high more };

    fn first_unit(&self) -> FirstUnit {
        FirstUnit::AtOnce
    }

    fn start(&self, alloc: Global) -> Result<Vec<u128>, AllocError> {
        vec![in alloc; 0; self.groups as usize]
    }

    #[inline(always)]
    fn is_open(&self, _kept: &Vec<u128>) -> bool {
        true
    }

    #[inline(always)]
    fn take(&self, kept: &mut Vec<u128>, group: u32, lanes: u128) {
        if let Some(word) = kept.get_mut(group as usize) {
            *word |= lanes;
        }
    }
}
