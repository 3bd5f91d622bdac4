//! The choice of the tests of a round that are kept.

ghost use Rattle.std.specs.Prelude.{◌≡◌, ◌⊎◌, ◌+◌, ◌++◌, ◌∷◌, [], ◌<◌, ◌≤◌, ℕ, All, Bool, IfOk};
ghost use Rattle.std.specs.Prelude.{List, OnOk, Some, length, slice_get, slice_index_or};
ghost use Rattle.std.specs.Bool.{Decides};
ghost use Rattle.patterns.specs.Tests.{blocks};
ghost use Rattle.block_sim.specs.Parts.{HasRoom};
ghost use Rattle.workers.specs.Verdict.{AreClassFirsts};
ghost use Rattle.generator.specs.Generated.{DetectsEarly};
ghost use Rattle.generator.specs.Keeping.{AreAmong, AreKept, AreNeeded, AreNoted, HasFirst};
ghost use Rattle.generator.specs.Keeping.{HasMark, IsMarked, IsWanted, in_pairs};

use block_sim::{Job, Workspace, detecting};
use fault_model::Model;
use patterns::{BLOCK_SIZE, Tests};
use std::alloc::{AllocError, Global};

/// Adds tests of a job to the kept tests, while they are fewer than `room`. It adds the tests that
/// some class needs, among classes that no kept test detects. The classes are given with the first
/// test that detects each, or none. Under transition faults it also adds the test before each such
/// test.
pub(crate) fn keep_tests(
    alloc: Global,
    job: &Job,
    classes: &[u32],
    firsts: &[Option<u32>],
    room: u32,
    kept: &mut Tests,
) -> Result<(), AllocError>
    requires classes { All (λ class. class < length job.now.classes.representative) classes.now }
    requires firsts { AreClassFirsts job.now.list.model job.now.circuit job.now.tests.tests
        classes.now firsts.now }
    requires few { length kept.old.tests ≤ room }
    ensures width { kept.new.width ≡ kept.old.width }
    ensures few { length kept.new.tests ≤ room }
    ensures stay { OnOk result ((k : ℕ) (test : List Bool) → slice_get kept.old.tests k ≡ Some test
        → slice_get kept.new.tests k ≡ Some test) }
    ensures among { OnOk result
        (AreAmong kept.new.tests (kept.old.tests ++ job.now.tests.tests)) }
    ensures none { OnOk result (((t : ℕ) → ¬ HasFirst firsts.now t)
        → kept.new.tests ≡ kept.old.tests) }
    ensures early { OnOk result (length kept.old.tests ≡ 0 → 2 ≤ room → (t : ℕ)
        → HasFirst firsts.now t
        → DetectsEarly job.now.list.model job.now.circuit kept.new.tests) }
{
    let marks = needed_tests(alloc, job, classes, firsts)?;
    let pairs = in_pairs(job.faults().model());
    add_wanted(alloc, job.tests(), &marks, pairs, room, kept)
}

/// Returns whether a test counts with the test before it.
pub(crate) fn in_pairs(model: Model) -> bool
    ensures { result ≡ in_pairs model }
{
    match model {
        Model::StuckAt => false,
        Model::Transition | Model::TransitionPairs => true,
    }
}

/// Adds the wanted tests of a list to the kept tests, while they are fewer than `room`.
fn add_wanted(
    alloc: Global,
    tests: &Tests,
    marks: &[bool],
    pairs: bool,
    room: u32,
    kept: &mut Tests,
) -> Result<(), AllocError>
    requires few { length kept.old.tests ≤ room }
    ensures width { kept.new.width ≡ kept.old.width }
    ensures few { length kept.new.tests ≤ room }
    ensures kept { OnOk result (AreKept tests.now.tests marks.now pairs room kept.old.tests
        kept.new.tests) }
    ensures among { OnOk result (AreAmong kept.new.tests (kept.old.tests ++ tests.now.tests)) }
{
    for test in 0..tests.count() {
        if !is_wanted(marks, pairs, test) {
            continue;
        }
        if kept.count() >= room {
            continue;
        }
        add_test(alloc, tests, test, kept)?;
    }
    Ok(())
}

/// Returns whether a test is wanted: it is marked, or tests count in pairs and the next one is.
fn is_wanted(marks: &[bool], pairs: bool, test: u32) -> bool
    ensures { Decides result (IsWanted marks.now pairs test) }
{
    let place = test as usize;
    is_marked(marks, place) || (pairs && is_marked(marks, place + 1))
}

/// Returns whether the test at a place is marked.
fn is_marked(marks: &[bool], place: usize) -> bool
    ensures { Decides result (IsMarked marks.now place) }
{
    match marks.get(place) {
        Some(mark) => *mark,
        None => false,
    }
}

/// Returns a mark for each test of a job, true if the test is needed: for each class that no needed
/// test of the same block detects, the first test that does.
fn needed_tests(
    alloc: Global,
    job: &Job,
    classes: &[u32],
    firsts: &[Option<u32>],
) -> Result<Vec<bool>, AllocError>
    requires classes { All (λ class. class < length job.now.classes.representative) classes.now }
    requires firsts { AreClassFirsts job.now.list.model job.now.circuit job.now.tests.tests
        classes.now firsts.now }
    ensures { IfOk result (λ marks. AreNeeded firsts.now marks.items) }
{
    let mut workspace = Workspace::new(alloc, job)?;
    let mut words = vec![in alloc; 0u64; job.tests().blocks() as usize]?;
    let mut marks = vec![in alloc; false; job.tests().count() as usize]?;
    mark_needed(job, classes, firsts, &mut workspace, &mut words, &mut marks);
    Ok(marks)
}

/// Marks the needed tests, if none is marked yet, and notes them in the word of their block. All
/// words are 0 at first.
fn mark_needed(
    job: &Job,
    classes: &[u32],
    firsts: &[Option<u32>],
    workspace: &mut Workspace,
    words: &mut [u64],
    marks: &mut [bool],
)
    requires classes { All (λ class. class < length job.now.classes.representative) classes.now }
    requires count { length firsts.now ≡ length classes.now }
    requires within { (t : ℕ) → HasFirst firsts.now t → t < length job.now.tests.tests }
    requires fits { HasRoom workspace.old job.now }
    requires words { length words.old ≡ blocks (length job.now.tests.tests) }
    requires marks { length marks.old ≡ length job.now.tests.tests }
    requires noted { AreNoted words.old marks.old }
    requires none { ¬ HasMark marks.old }
    ensures { AreNeeded firsts.now marks.new }
{
    for place in 0..classes.len() {
        match first_at(firsts, place) {
            Some(test) => need_one(job, workspace, class_at(classes, place), test, words, marks),
            None => {}
        }
    }
}

/// Returns the class at a place of a list.
fn class_at(classes: &[u32], place: usize) -> u32
    requires { place < length classes.now }
    ensures { slice_get classes.now place ≡ Some result }
{
    classes[place]
}

/// Returns the first test of the class at a place.
fn first_at(firsts: &[Option<u32>], place: usize) -> Option<u32>
    requires { place < length firsts.now }
    ensures { slice_get firsts.now place ≡ Some result }
{
    firsts[place]
}

/// Marks a test for a class, and notes it, unless a noted test of its block already detects the
/// class.
fn need_one(
    job: &Job,
    workspace: &mut Workspace,
    class: u32,
    test: u32,
    words: &mut [u64],
    marks: &mut [bool],
)
    requires class { class < length job.now.classes.representative }
    requires test { test < length job.now.tests.tests }
    requires fits { HasRoom workspace.old job.now }
    requires words { length words.old ≡ blocks (length job.now.tests.tests) }
    requires marks { length marks.old ≡ length job.now.tests.tests }
    requires noted { AreNoted words.old marks.old }
    ensures fits { HasRoom workspace.new job.now }
    ensures noted { AreNoted words.new marks.new }
    ensures some { HasMark marks.new }
    ensures only { (t : ℕ) → IsMarked marks.new t → IsMarked marks.old t ⊎ (t ≡ test) }
{
    let block = test / BLOCK_SIZE;
    let lanes = detecting(job, workspace, class, block);
    let word = words[block as usize];
    if word != 0 && lanes & word != 0 {
        return;
    }
    words[block as usize] = word | 1 << (test % BLOCK_SIZE);
    marks[test as usize] = true;
}

/// Adds a test of a list to others of the same width, if there is room for one.
pub(crate) fn add_test(
    alloc: Global,
    tests: &Tests,
    test: u32,
    kept: &mut Tests,
) -> Result<(), AllocError>
    requires { test < length tests.now.tests }
    ensures width { kept.new.width ≡ kept.old.width }
    ensures one { length kept.new.tests ≤ length kept.old.tests + 1 }
    ensures added { OnOk result (kept.new.tests
        ≡ kept.old.tests ++ slice_index_or tests.now.tests test [] ∷ []) }
{
    let row = row_of(alloc, tests, test)?;
    let Ok(()) = kept.push(alloc, &row) else {
        return Err(AllocError);
    };
    Ok(())
}

/// Returns the bits of a test.
fn row_of(alloc: Global, tests: &Tests, test: u32) -> Result<Vec<bool>, AllocError>
    requires { test < length tests.now.tests }
    ensures { IfOk result (λ row. row.items ≡ slice_index_or tests.now.tests test []) }
{
    let mut row = vec![in alloc; false; tests.width() as usize]?;
    read_row(tests, test, &mut row);
    Ok(row)
}

/// Reads the bits of a test into a row.
fn read_row(tests: &Tests, test: u32, row: &mut [bool])
    requires test { test < length tests.now.tests }
    requires row { length row.old ≡ tests.now.width }
    ensures { row.new ≡ slice_index_or tests.now.tests test [] }
{
    for source in 0..tests.width() {
        row[source as usize] = tests.bit(test, source);
    }
}
