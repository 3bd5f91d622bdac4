//! Pairs of tests that launch a transition and capture the result.
//!
//! Under launch-on-capture the launch test of a pair is shifted into the scan cells. One clock
//! later the flip-flops have captured their data pins, and the primary inputs are held: that is the
//! capture test. [`launch_pairs`] makes such pairs of tests.
#![tactic(auto)]

ghost use Rattle.std.specs.Prelude.{◌≡◌, ◌+◌, ◌*◌, ◌-◌, ◌<◌, ◌≤◌, ◌++◌, ◌∷◌, [], drop, take};
ghost use Rattle.std.specs.Prelude.{IfErr, IfOk, OnOk, length, slice_index_or};
ghost use Rattle.bench_net.specs.Scan.{sources};
ghost use Rattle.patterns.specs.Tests.{max_tests};
ghost use Rattle.pairs.specs.Pairs.{AreLaunchPairs, ArePairRows, IsPairingFault};

use bench_net::Circuit;
use block_sim::responses;
use patterns::{MAX_TESTS, PushFault, TestFault, Tests};
use std::alloc::{AllocError, Global};

/// Returns the launch-on-capture pairs of tests for a circuit, two tests for each: the test itself,
/// and its capture test. The capture test has the same bits at the primary inputs, which are held.
/// In the scan cells it has the bits that the flip-flops capture under the test. (Bushnell and
/// Agrawal, Essentials of Electronic Testing, chapter 12, on delay test.) The result is a list of
/// pairs for [`fault_model::Model::TransitionPairs`].
///
/// # Errors
///
/// [`TestFault::TooMany`] if the pairs are more than [`MAX_TESTS`] tests, and else
/// [`TestFault::Memory`] if memory ran out.
pub fn launch_pairs(alloc: Global, circuit: Circuit, tests: &Tests) -> Result<Tests, TestFault>
    requires { tests.now.width ≡ length (sources circuit) }
    ensures pairs { IfOk result (λ pairs. AreLaunchPairs circuit tests.now.tests pairs.tests) }
    ensures width { IfOk result (λ pairs. pairs.width ≡ length (sources circuit)) }
    ensures some { 1 ≤ length (sources circuit) }
    ensures refused { IfErr result (IsPairingFault (length tests.now.tests)) }
{
    let width = circuit.sources();
    let held = circuit.inputs().len() as u32;
    if tests.count() > MAX_TESTS / 2 {
        return Err(TestFault::TooMany);
    }
    let shown = responses(alloc, circuit, tests)?;
    let from = shown.width() - (width - held);
    Ok(pair_rows(alloc, tests, &shown, held, from)?)
}

/// Returns two rows for each test: its own, and a row of its first `held` bits and then the bits of
/// its response from a place on.
fn pair_rows(
    alloc: Global,
    tests: &Tests,
    shown: &Tests,
    held: u32,
    from: u32,
) -> Result<Tests, AllocError>
    requires count { length shown.now.tests ≡ length tests.now.tests }
    requires few { 2 * length tests.now.tests ≤ max_tests }
    requires held { held ≤ tests.now.width }
    requires width { from + (tests.now.width - held) ≡ shown.now.width }
    ensures rows { IfOk result (λ pairs. ArePairRows tests.now.tests shown.now.tests held from
        (length tests.now.tests) pairs.tests) }
    ensures width { IfOk result (λ pairs. pairs.width ≡ tests.now.width) }
{
    let mut row = vec![in alloc; false; tests.width() as usize]?;
    let mut pairs = Tests::new(alloc, tests.width());
    add_pairs(alloc, tests, shown, held, from, &mut row, &mut pairs)?;
    Ok(pairs)
}

/// Adds the rows of all tests to pairs that were empty.
fn add_pairs(
    alloc: Global,
    tests: &Tests,
    shown: &Tests,
    held: u32,
    from: u32,
    row: &mut [bool],
    pairs: &mut Tests,
) -> Result<(), AllocError>
    requires count { length shown.now.tests ≡ length tests.now.tests }
    requires few { 2 * length tests.now.tests ≤ max_tests }
    requires held { held ≤ tests.now.width }
    requires width { from + (tests.now.width - held) ≡ shown.now.width }
    requires row { length row.old ≡ tests.now.width }
    requires pairs { pairs.old.width ≡ tests.now.width }
    requires empty { pairs.old.tests ≡ [] }
    ensures rows { OnOk result (ArePairRows tests.now.tests shown.now.tests held from
        (length tests.now.tests) pairs.new.tests) }
    ensures width { OnOk result (pairs.new.width ≡ tests.now.width) }
{
    for test in 0..tests.count() {
        add_pair(alloc, tests, shown, test, held, from, row, pairs)?;
    }
    Ok(())
}

/// Adds the two rows of a test.
fn add_pair(
    alloc: Global,
    tests: &Tests,
    shown: &Tests,
    test: u32,
    held: u32,
    from: u32,
    row: &mut [bool],
    pairs: &mut Tests,
) -> Result<(), AllocError>
    requires test { test < length tests.now.tests }
    requires shown { test < length shown.now.tests }
    requires held { held ≤ tests.now.width }
    requires width { from + (tests.now.width - held) ≡ shown.now.width }
    requires row { length row.old ≡ tests.now.width }
    requires pairs { pairs.old.width ≡ tests.now.width }
    requires room { length pairs.old.tests + 2 ≤ max_tests }
    ensures rows { OnOk result (pairs.new.tests ≡ (pairs.old.tests
        ++ slice_index_or tests.now.tests test [] ∷ [])
        ++ (take held (slice_index_or tests.now.tests test [])
        ++ drop from (slice_index_or shown.now.tests test [])) ∷ []) }
    ensures width { pairs.new.width ≡ pairs.old.width }
{
    copy_bits(tests, test, 0, 0, row);
    add_row(alloc, row, pairs)?;
    copy_bits(shown, test, from, held as usize, row);
    add_row(alloc, row, pairs)
}

/// Copies the bits of a test, from a source on, to a row, from a place on, as many as there are.
fn copy_bits(tests: &Tests, test: u32, from: u32, at: usize, row: &mut [bool])
    requires test { test < length tests.now.tests }
    requires source { from ≤ tests.now.width }
    requires width { at + tests.now.width ≡ from + length row.old }
    ensures { row.new ≡ take at row.old ++ drop from (slice_index_or tests.now.tests test []) }
{
    for source in from..tests.width() {
        row[at + (source - from) as usize] = tests.bit(test, source);
    }
}

/// Adds a row of the right width to tests with room for it.
fn add_row(alloc: Global, row: &[bool], tests: &mut Tests) -> Result<(), AllocError>
    requires room { length tests.old.tests < max_tests }
    requires width { length row.now ≡ tests.old.width }
    ensures rows { OnOk result (tests.new.tests ≡ tests.old.tests ++ row.now ∷ []) }
    ensures width { tests.new.width ≡ tests.old.width }
{
    match tests.push(alloc, row) {
        Ok(()) => Ok(()),
        Err(PushFault::Memory) => Err(AllocError),
        Err(PushFault::TooMany | PushFault::BadWidth) => unreachable!(),
    }
}
