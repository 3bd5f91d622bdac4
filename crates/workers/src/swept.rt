//! The outcomes of a job's pieces, found by a run of one thread that goes on block by block.

ghost use Rattle.std.specs.Prelude.{◌≡◌, ◌<◌, ◌≤◌, ◌^◌, IfOk};
ghost use Rattle.std.specs.Prelude.{length};
ghost use Rattle.patterns.specs.Tests.{blocks};
ghost use Rattle.block_sim.specs.First.{IsTrueOutcome};
ghost use Rattle.region_sim.specs.OpenPlaces.{AreSuccessors};
ghost use Rattle.workers.specs.Swept.{IsSweptOf};

use block_sim::{Job, ListedClass, Workspace, first_hit};
use patterns::Outcome;
use region_sim::class_order::{ClassOrder, class_order, rows_of};
use region_sim::{FirstTest, FirstUnit, RegionSimulation, sweep_from};
use std::alloc::{AllocError, Global};

/// A run of all classes, as far as some piece asked for it. It sweeps over the blocks in their
/// order, and knows the first test of each class on the blocks behind it.
#[derive(Drop)]
pub(crate) struct Swept {
    simulation: RegionSimulation,
    workspace: Workspace,
    /// The classes, region by region.
    rows: Vec<ListedClass>,
    /// The place after each place of these.
    next: Vec<usize>,
    /// The first test of the class at each place, among the blocks that are swept.
    firsts: Vec<Option<u32>>,
    /// The place of each class, by its number.
    places: Vec<u32>,
    /// The number of first blocks that are swept.
    blocks: u32,
}

/// Returns for each of some places the one after it.
fn successors(alloc: Global, places: usize) -> Result<Vec<usize>, AllocError>
    requires { places < 2 ^ 63 }
    ensures count { IfOk result (λ next. length next.items ≡ places) }
    ensures next { IfOk result (λ next. AreSuccessors next.items) }
{
    let mut next = Vec::with_capacity(alloc, places)?;
    for place in 0..places {
        next.push(place + 1)?;
    }
    Ok(next)
}

impl Swept {
    /// Makes room for a job, of which no block is swept. It takes what a [`RegionSimulation`] and a
    /// [`Workspace`] take, and a few numbers for each class.
    pub(crate) fn new(alloc: Global, job: &Job) -> Result<Swept, AllocError>
        ensures { IfOk result (λ swept. IsSweptOf job.now swept) }
    {
        let _parts = job.classes();
        let order = class_order(alloc, job)?;
        let ClassOrder { classes, positions } = order;
        let rows = rows_of(alloc, job, &classes)?;
        let count = rows.len();
        let next = successors(alloc, count)?;
        let firsts = vec![in alloc; None; count]?;
        let mut simulation = RegionSimulation::new(alloc, job)?;
        simulation.make_room(count)?;
        let workspace = Workspace::new(alloc, job)?;
        Ok(Swept {
            simulation,
            workspace,
            rows,
            next,
            firsts,
            places: positions,
            blocks: 0,
        })
    }

    /// Returns the outcome of a class on a block. It sweeps over the blocks up to this one first.
    /// If an earlier block detects the class, it simulates the class by itself.
    pub(crate) fn outcome(&mut self, job: &Job, class: u32, block: u32) -> Outcome
        requires serves { IsSweptOf job.now self.old }
        requires class { class < length job.now.classes.representative }
        requires block { block < blocks (length job.now.tests.tests) }
        ensures outcome { IsTrueOutcome job.now.list.model job.now.circuit job.now.tests.tests
            class block result }
        ensures serves { IsSweptOf job.now self.new }
    {
        while self.blocks <= block {
            self.sweep(job);
        }
        let place = self.places[class as usize] as usize;
        let Some(test) = self.firsts[place] else {
            return Outcome::Clear;
        };
        if test / 64 < block {
            return first_hit(job, &mut self.workspace, class, block);
        }
        if test / 64 == block {
            return Outcome::Hit(test % 64);
        }
        Outcome::Clear
    }

    /// Sweeps over the next blocks: those that are simulated together with the next one.
    fn sweep(&mut self, job: &Job)
        requires serves { IsSweptOf job.now self.old }
        requires more { self.old.blocks < blocks (length job.now.tests.tests) }
        ensures serves { IsSweptOf job.now self.new }
        ensures further { self.old.blocks < self.new.blocks }
    {
        let _tests = job.tests();
        let span = sweep_from(job, self.blocks, FirstUnit::InBlocks);
        let rows = self.rows.as_slice();
        let next = self.next.as_slice();
        let firsts = self.firsts.as_mut_slice();
        self.simulation
            .simulate(job, span, rows, next, &FirstTest, firsts);
        self.blocks = span.last + 1;
    }
}
