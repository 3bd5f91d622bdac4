//! Runs for the first tests of classes and of faults, as numbers.

ghost use Rattle.std.specs.Prelude.{◌≡◌, ◌<◌, All, IfErr, IfOk, length, None, slice_index_or};
ghost use Rattle.faultsim_c.specs.Calls.{AreFaultFirsts, AreFirsts, AreFirstNumbers, first_number};

use crate::session::Session;
use crate::status::NONE;
use std::alloc::{AllocError, Global};

/// Finds the first test that detects each class of a list.
pub(crate) fn simulate(
    alloc: Global,
    session: &mut Session,
    classes: &[u32],
    firsts: &mut [u32],
) -> Result<(), AllocError>
    requires classes { All (λ class. class < length session.old.classes.representative)
        classes.now }
    requires lengths { length firsts.old ≡ length classes.now }
    ensures done { IfOk result (λ _. AreFirsts session.old classes.now firsts.new) }
    ensures untouched { IfErr result (λ _. firsts.new ≡ firsts.old) }
    ensures kept { session.new ≡ session.old }
{
    let _tests = session.job().tests();
    let found = session.first_tests(alloc, classes)?;
    write_firsts(found.as_slice(), firsts);
    Ok(())
}

/// Finds the first test that detects each fault.
pub(crate) fn fault_firsts(
    alloc: Global,
    session: &mut Session,
    firsts: &mut [u32],
) -> Result<(), AllocError>
    requires { length firsts.old ≡ length session.old.list.list }
    ensures done { IfOk result (λ _. AreFaultFirsts session.old firsts.new) }
    ensures untouched { IfErr result (λ _. firsts.new ≡ firsts.old) }
    ensures kept { session.new ≡ session.old }
{
    let _tests = session.job().tests();
    let found = session.fault_firsts(alloc)?;
    write_firsts(found.as_slice(), firsts);
    Ok(())
}

/// Writes first tests as their numbers, as far as there is room.
fn write_firsts(found: &[Option<u32>], firsts: &mut [u32])
    requires { length firsts.old ≡ length found.now }
    ensures { AreFirstNumbers found.now firsts.new }
{
    for place in 0..firsts.len() {
        firsts[place] = first_number(first_at(found, place));
    }
}

/// Returns the first test at a place.
fn first_at(found: &[Option<u32>], place: usize) -> Option<u32>
    ensures { result ≡ slice_index_or found.now place None }
{
    match found.get(place) {
        Some(first) => *first,
        None => None,
    }
}

/// Returns the number that stands for a first test, or for none.
fn first_number(first: Option<u32>) -> u32
    ensures { result ≡ first_number first }
{
    match first {
        Some(test) => test,
        None => NONE,
    }
}
