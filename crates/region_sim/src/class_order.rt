//! The classes of a job, region by region.

ghost use Rattle.std.specs.Prelude.{◌≡◌, ◌<◌, ◌^◌, All, IfOk, length};
ghost use Rattle.counting_sort.specs.SortedPlaces.{ArePositions};
ghost use Rattle.region_sim.specs.ClassOrder.{AreAllByRegion, AreRowsOf, AreVisits};

use block_sim::{Job, ListedClass};
use counting_sort::{SortedPlaces, sorted_places};
use std::alloc::{AllocError, Global};

/// All classes of a job in an order.
#[derive(Drop)]
pub struct ClassOrder {
    /// The classes, in order.
    pub classes: Vec<u32>,
    /// For each class, by its number, its position in the order.
    pub positions: Vec<u32>,
}

/// Returns all classes of a job, region by region, in the order of the visits: by the visit to the
/// region, and in a region by number. The visit is the place of the region's stem in the lists of
/// the simulation, and a stem's simulation reads the gates that lie ahead of it. The gates of near
/// stems are near, so they are still in the caches.
pub fn class_order(alloc: Global, job: &Job) -> Result<ClassOrder, AllocError>
    ensures classes { IfOk result (λ order. AreAllByRegion job.now order.classes.items) }
    ensures positions { IfOk result (λ order.
        ArePositions order.classes.items order.positions.items) }
    ensures count { IfOk result (λ order.
        length order.positions.items ≡ length job.now.classes.representative) }
{
    let visits = visits_of(alloc, job)?;
    let sorted = sorted_places(alloc, &visits, job.circuit().signals())?;
    let SortedPlaces { places, positions } = sorted;
    Ok(ClassOrder {
        classes: places,
        positions,
    })
}

/// Returns the visit to the region of each class, by the class's number.
pub fn visits_of(alloc: Global, job: &Job) -> Result<Vec<u32>, AllocError>
    ensures visits { IfOk result (λ visits. AreVisits job.now visits.items) }
    ensures few { IfOk result (λ visits. length visits.items < 2 ^ 32) }
{
    let count = job.classes().count();
    let places = job.places();
    let mut visits = Vec::with_capacity(alloc, count as usize)?;
    for class in 0..count {
        visits.push(places[job.stem_of_class(class) as usize])?;
    }
    Ok(visits)
}

/// Returns the classes of a list, each with the start of its simulation.
pub fn rows_of(alloc: Global, job: &Job, classes: &[u32]) -> Result<Vec<ListedClass>, AllocError>
    requires { All (λ class. class < length job.now.classes.representative) classes.now }
    ensures { IfOk result (λ rows. AreRowsOf job.now classes.now rows.items) }
{
    let mut rows = Vec::with_capacity(alloc, classes.len())?;
    for class in classes {
        rows.push(job.listed(*class))?;
    }
    Ok(rows)
}
