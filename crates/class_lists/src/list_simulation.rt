//! The simulation of lists of classes of a job, one list after another.

ghost use Rattle.std.specs.Prelude.{◌^◌, ◌<◌, All, IfOk, length};
ghost use Rattle.flat_circuit.specs.BlockSpans.{groups};
ghost use Rattle.workers.specs.Verdict.{AreClassFirsts, AreFirsts};
ghost use Rattle.n_detect.specs.ListLanes.{AreListLanes};
ghost use Rattle.class_lists.specs.Lists.{AreClassCounts, ServesClasses};

use crate::count::counts_of;
use crate::fault_firsts::{all_classes, firsts_of};
use crate::list_order::order_of;
use block_sim::Job;
use n_detect::list_lanes;
use region_runs::run_alone;
use region_sim::class_order::{ClassOrder, class_order};
use region_sim::{FirstTest, FirstUnit, RegionSimulation};
use std::alloc::{AllocError, Global};
use std::marker::Model;

/// A simulation of lists of classes of a job in the thread of its caller, one list after another.
/// Each of several threads has its own.
///
/// It keeps room for the simulation of regions, and the rank of each class, by which classes of one
/// region are adjacent. Both depend only on the circuit and the classes of the job, and not on its
/// tests.
#[derive(Drop)]
pub struct ListSimulation {
    regions: RegionSimulation,
    ranks: Vec<u32>,
    /// How the next list takes its first 512 tests: at once if the last tests detected few classes
    /// of a list.
    first_unit: FirstUnit,
}

impl Model for ListSimulation {
    ghost use Rattle.class_lists.specs.Lists.{ListsSimulated};

    ghost Value = { ListsSimulated };

    ghost view = { λ s. record { regions = s.regions; ranks = s.ranks.items } };
}

impl ListSimulation {
    /// Makes room for the lists of a job. It takes a few words and numbers for each signal, and a
    /// number for each class.
    pub fn new(alloc: Global, job: &Job) -> Result<ListSimulation, AllocError>
        ensures { IfOk result (λ lists. ServesClasses lists job.now) }
    {
        let regions = RegionSimulation::new(alloc, job)?;
        let order = class_order(alloc, job)?;
        let ClassOrder {
            classes: _classes,
            positions,
        } = order;
        Ok(ListSimulation {
            regions,
            ranks: positions,
            first_unit: FirstUnit::InBlocks,
        })
    }

    /// Returns for each class of a list the first test that detects its faults, or none if no test
    /// does. The list may have any order, and name a class more than once. Adjacent classes of a
    /// region are simulated together; a list of more than 256 classes is put in the order of
    /// regions first.
    ///
    /// Beside the simulation it takes a few numbers for each class of the list. Only for a list of
    /// a sixteenth of all classes and more does it take some time for each class of the job.
    pub fn first_tests(
        &mut self,
        alloc: Global,
        job: &Job,
        classes: &[u32],
    ) -> Result<Vec<Option<u32>>, AllocError>
        requires serves { ServesClasses self.old job.now }
        requires classes { All (λ class. class < length job.now.classes.representative)
            classes.now }
        ensures firsts { IfOk result (λ firsts. AreClassFirsts job.now.list.model
            job.now.circuit job.now.tests.tests classes.now firsts.items) }
        ensures serves { ServesClasses self.new job.now }
    {
        let count = job.classes().count();
        let order = order_of(alloc, self.ranks.as_slice(), count, classes)?;
        let listed = order.listed(classes);
        let first_unit = self.first_unit;
        let found = run_alone(
            alloc,
            job,
            listed,
            first_unit,
            &mut self.regions,
            &FirstTest,
        )?;
        self.first_unit = unit_after(found.as_slice());
        let firsts = order.put_back(alloc, found, None)?;
        Ok(firsts)
    }

    /// Returns for each fault of a job, by its number, the first test that detects it, or none if
    /// no test does. Each class is simulated once. It takes the time and memory of
    /// [`ListSimulation::first_tests`] for all classes, and a number for each fault.
    pub fn fault_firsts(&mut self, alloc: Global, job: &Job) -> Result<Vec<Option<u32>>, AllocError>
        requires { ServesClasses self.old job.now }
        ensures firsts { IfOk result (λ firsts. AreFirsts job.now.list.model job.now.circuit
            job.now.tests.tests firsts.items) }
        ensures few { IfOk result (λ firsts. length firsts.items < 2 ^ 32) }
        ensures serves { ServesClasses self.new job.now }
    {
        let _classes = job.classes();
        let all = all_classes(alloc, job)?;
        let found = self.first_tests(alloc, job, all.as_slice())?;
        let firsts = firsts_of(alloc, job, found.as_slice())?;
        Ok(firsts)
    }

    /// Counts the tests that detect the faults of each class of a list. A count ends at `most`, so
    /// more tests may detect a class with `most`. The list may have any order, and name a class
    /// more than once. It takes the time and memory of [`ListSimulation::first_tests`], but goes on
    /// with a class behind its first test.
    pub fn detections(
        &mut self,
        alloc: Global,
        job: &Job,
        classes: &[u32],
        most: u32,
    ) -> Result<Vec<u32>, AllocError>
        requires serves { ServesClasses self.old job.now }
        requires classes { All (λ class. class < length job.now.classes.representative)
            classes.now }
        ensures counts { IfOk result (λ counts.
            AreClassCounts job.now classes.now most counts.items) }
        ensures serves { ServesClasses self.new job.now }
    {
        let count = job.classes().count();
        let order = order_of(alloc, self.ranks.as_slice(), count, classes)?;
        let listed = order.listed(classes);
        let found = counts_of(alloc, job, listed, &mut self.regions, most)?;
        let counts = order.put_back(alloc, found, 0)?;
        Ok(counts)
    }

    /// Returns for each class of a list the tests of a group that detect it, as [`list_lanes`]
    /// does. The list may have any order, and name a class more than once. It takes the memory of
    /// [`ListSimulation::first_tests`], and the time for the tests of a group.
    pub fn lanes(
        &mut self,
        alloc: Global,
        job: &Job,
        classes: &[u32],
        group: u32,
    ) -> Result<Vec<u128>, AllocError>
        requires serves { ServesClasses self.old job.now }
        requires group { group < groups (length job.now.tests.tests) }
        requires classes { All (λ class. class < length job.now.classes.representative)
            classes.now }
        ensures lanes { IfOk result (λ lanes.
            AreListLanes job.now group classes.now lanes.items) }
        ensures serves { ServesClasses self.new job.now }
    {
        let count = job.classes().count();
        let order = order_of(alloc, self.ranks.as_slice(), count, classes)?;
        let listed = order.listed(classes);
        let found = list_lanes(alloc, job, listed, group, &mut self.regions)?;
        let lanes = order.put_back(alloc, found, 0)?;
        Ok(lanes)
    }
}

/// Returns how the list that comes after one with these first tests takes its first 512 tests. If
/// less than half of the classes were detected, those that are left are hard.
fn unit_after(firsts: &[Option<u32>]) -> FirstUnit {
    let detected = firsts.iter().filter(|first| first.is_some()).count();
    if detected < firsts.len() / 2 {
        FirstUnit::AtOnce
    } else {
        FirstUnit::InBlocks
    }
}
