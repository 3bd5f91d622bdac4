//! Lists of tests that are made of the tests of a list, and their numbers.

ghost use Rattle.std.specs.Prelude.{◌≡◌, ◌<◌, ◌≤◌, ◌++◌, ◌∷◌, [], IfOk, OnOk, length};
ghost use Rattle.std.specs.Prelude.{slice_index_or};
ghost use Rattle.std.specs.List.{ReversedBelow};
ghost use Rattle.compaction.specs.Compaction.{at_marks};
ghost use Rattle.patterns.specs.Least.{below};
ghost use Rattle.patterns.specs.Tests.{IsTestList, max_tests};
ghost use Rattle.region_runs.specs.Windows.{IsWindowOf};

use crate::Kept;
use patterns::{PushFault, Tests};
use std::alloc::{AllocError, Global};

/// Returns the numbers of the tests, from 0.
pub(crate) fn all_numbers(alloc: Global, tests: u32) -> Result<Vec<u32>, AllocError>
    ensures { IfOk result (λ numbers. numbers.items ≡ below tests) }
{
    let mut numbers = Vec::with_capacity(alloc, tests as usize)?;
    for test in 0..tests {
        numbers.push(test)?;
    }
    Ok(numbers)
}

/// Returns the marked tests of a list, in order, each with the number that the list has for it.
pub(crate) fn kept_tests(
    alloc: Global,
    tests: &Tests,
    numbers: &[u32],
    marks: &[bool],
) -> Result<Kept, AllocError>
    requires marks { length marks.now ≡ length tests.now.tests }
    requires numbers { length numbers.now ≡ length tests.now.tests }
    ensures rows { IfOk result (λ kept. kept.tests.tests ≡ at_marks marks.now tests.now.tests) }
    ensures numbers { IfOk result (λ kept. kept.numbers.items ≡ at_marks marks.now numbers.now) }
    ensures list { IfOk result (λ kept. IsTestList kept.tests) }
    ensures width { IfOk result (λ kept. kept.tests.width ≡ tests.now.width) }
{
    let numbers = marked_numbers(alloc, numbers, marks)?;
    let tests = marked_tests(alloc, tests, marks)?;
    Ok(Kept { tests, numbers })
}

/// Returns the marked numbers, in order.
fn marked_numbers(alloc: Global, numbers: &[u32], marks: &[bool]) -> Result<Vec<u32>, AllocError>
    requires { length marks.now ≡ length numbers.now }
    ensures { IfOk result (λ kept. kept.items ≡ at_marks marks.now numbers.now) }
{
    let mut kept = Vec::new(alloc);
    for place in 0..marks.len() {
        if marks[place] {
            kept.push(numbers[place])?;
        }
    }
    Ok(kept)
}

/// Returns the marked tests of a list, in order.
fn marked_tests(alloc: Global, tests: &Tests, marks: &[bool]) -> Result<Tests, AllocError>
    requires { length marks.now ≡ length tests.now.tests }
    ensures rows { IfOk result (λ kept. kept.tests ≡ at_marks marks.now tests.now.tests) }
    ensures list { IfOk result (λ kept. IsTestList kept) }
    ensures width { IfOk result (λ kept. kept.width ≡ tests.now.width) }
{
    let mut kept = Tests::new(alloc, tests.width());
    for test in 0..tests.count() {
        if marks[test as usize] {
            push_test(alloc, tests, test, &mut kept)?;
        }
    }
    Ok(kept)
}

/// Returns the tests of a list from the last to the first.
pub(crate) fn reversed_tests(alloc: Global, tests: &Tests) -> Result<Tests, AllocError>
    ensures count { IfOk result (λ reversed. length reversed.tests ≡ length tests.now.tests) }
    ensures rows { IfOk result (λ reversed.
        ReversedBelow tests.now.tests reversed.tests (length tests.now.tests)) }
    ensures list { IfOk result (λ reversed. IsTestList reversed) }
    ensures width { IfOk result (λ reversed. reversed.width ≡ tests.now.width) }
{
    let mut reversed = Tests::new(alloc, tests.width());
    let count = tests.count();
    for place in 0..count {
        push_test(alloc, tests, count - 1 - place, &mut reversed)?;
    }
    Ok(reversed)
}

/// Returns the tests of a list from one up to another, which is not included.
pub(crate) fn tests_between(
    alloc: Global,
    tests: &Tests,
    start: u32,
    end: u32,
) -> Result<Tests, AllocError>
    requires order { start ≤ end }
    requires within { end ≤ length tests.now.tests }
    ensures rows { IfOk result (λ some. IsWindowOf tests.now.tests start end some.tests) }
    ensures list { IfOk result (λ some. IsTestList some) }
    ensures width { IfOk result (λ some. some.width ≡ tests.now.width) }
{
    let mut some = Tests::new(alloc, tests.width());
    for test in start..end {
        push_test(alloc, tests, test, &mut some)?;
    }
    Ok(some)
}

/// Adds a test of a list to another list of the same width, if there is room for it.
pub(crate) fn push_test(
    alloc: Global,
    tests: &Tests,
    test: u32,
    list: &mut Tests,
) -> Result<(), AllocError>
    requires test { test < length tests.now.tests }
    requires width { list.old.width ≡ tests.now.width }
    requires room { length list.old.tests < max_tests }
    ensures rows { OnOk result (list.new.tests
        ≡ list.old.tests ++ slice_index_or tests.now.tests test [] ∷ []) }
    ensures width { list.new.width ≡ list.old.width }
    ensures list { OnOk result (IsTestList list.new) }
{
    let mut row = vec![in alloc; false; tests.width() as usize]?;
    read_test(tests, test, &mut row);
    push_row(alloc, &row, list)
}

/// Adds a row of the right width, if there is room for one.
fn push_row(alloc: Global, row: &[bool], list: &mut Tests) -> Result<(), AllocError>
    requires room { length list.old.tests < max_tests }
    requires width { length row.now ≡ list.old.width }
    ensures rows { OnOk result (list.new.tests ≡ list.old.tests ++ row.now ∷ []) }
    ensures width { list.new.width ≡ list.old.width }
    ensures list { OnOk result (IsTestList list.new) }
{
    match list.push(alloc, row) {
        Ok(()) => Ok(()),
        Err(PushFault::Memory) => Err(AllocError),
        Err(PushFault::TooMany | PushFault::BadWidth) => unreachable!(),
    }
}

/// Reads the bits of a test.
fn read_test(tests: &Tests, test: u32, row: &mut [bool])
    requires test { test < length tests.now.tests }
    requires row { length row.old ≡ tests.now.width }
    ensures { row.new ≡ slice_index_or tests.now.tests test [] }
{
    for source in 0..tests.width() {
        row[source as usize] = tests.bit(test, source);
    }
}
