//! Tests in the order in which each detects the most classes that none before it detects.

ghost use Rattle.std.specs.Prelude.{◌≡◌, ◌==◌, ◌+◌, ◌<◌, ◌≤◌, ◌^◌, [], ℕ, All, IfNone, IfOk};
ghost use Rattle.std.specs.Prelude.{IfSome, count_by, filter, length, not, slice_index_or};
ghost use Rattle.std.specs.List.{list_any};
ghost use Rattle.patterns.specs.Least.{below};
ghost use Rattle.compaction.specs.Detections.{detects_by, is_detected};
ghost use Rattle.compaction.specs.News.{IsBest};
ghost use Rattle.compaction.specs.Steepest.{IsSteepest};

use crate::detections::Detections;
use crate::tallies::{add_words, digits_of, numbers_of, zeros};
use std::alloc::{AllocError, Global};

/// Some classes, by whether a test detects them.
#[derive(Drop)]
struct Split {
    detected: Vec<usize>,
    others: Vec<usize>,
}

/// Returns the numbers of tests in steepest order: each is the test that detects the most classes
/// that none before it detects, the first of such tests. It leaves out a test that would detect
/// none. It counts each class once at all tests, and takes it off once. Beside that each test takes
/// time for the classes that some test detects, and none so far.
pub(crate) fn steepest_order(alloc: Global, detections: &Detections) -> Result<Vec<u32>, AllocError>
    ensures { IfOk result (λ order. IsSteepest (detects_by detections.now)
        (length detections.now.words) detections.now.tests order.items) }
{
    let mut left = detected_classes(alloc, detections)?;
    let mut news = counts_of(alloc, detections, &left)?;
    let mut order = Vec::new(alloc);
    while let Some(best) = best_of(&news) {
        order.push(best)?;
        let Split { detected, others } = split_by(alloc, detections, &left, best)?;
        let covered = counts_of(alloc, detections, &detected)?;
        take_off(&mut news, &covered);
        left = others;
    }
    Ok(order)
}

/// Returns the classes that some test detects.
fn detected_classes(alloc: Global, detections: &Detections) -> Result<Vec<usize>, AllocError>
    ensures { IfOk result (λ left. left.items
        ≡ filter (is_detected detections.now) (below (length detections.now.words))) }
{
    let mut left = Vec::new(alloc);
    for class in 0..detections.classes() {
        if has_test(detections, class) {
            left.push(class)?;
        }
    }
    Ok(left)
}

/// Returns whether some test detects a class.
fn has_test(detections: &Detections, class: usize) -> bool
    ensures { result ≡ is_detected detections.now class }
{
    detections.row(class).iter().any(|word| *word != 0)
}

/// Returns how many of some classes each test detects.
fn counts_of(
    alloc: Global,
    detections: &Detections,
    classes: &[usize],
) -> Result<Vec<usize>, AllocError>
    requires classes { All (λ class. class < length detections.now.words) classes.now }
    ensures count { IfOk result (λ counts. length counts.items ≡ detections.now.tests) }
    ensures few { IfOk result (λ counts. length counts.items < 2 ^ 32) }
    ensures each { IfOk result (λ counts. (t : ℕ) → t < detections.now.tests
        → slice_index_or counts.items t 0
        ≡ count_by (λ class. detects_by detections.now class t) classes.now) }
{
    let digits = digits_of(classes.len());
    let mut groups = zeros(alloc, detections.groups(), digits)?;
    for class in classes {
        add_words(&mut groups, detections.row(*class));
    }
    numbers_of(alloc, &groups, detections.tests())
}

/// Splits some classes by whether a test detects them.
fn split_by(
    alloc: Global,
    detections: &Detections,
    classes: &[usize],
    test: u32,
) -> Result<Split, AllocError>
    ensures detected { IfOk result (λ split. split.detected.items
        ≡ filter (λ class. detects_by detections.now class test) classes.now) }
    ensures others { IfOk result (λ split. split.others.items
        ≡ filter (λ class. not (detects_by detections.now class test)) classes.now) }
{
    let mut detected = Vec::new(alloc);
    let mut others = Vec::new(alloc);
    for class in classes {
        if detections.detects(*class, test) {
            detected.push(*class)?;
        } else {
            others.push(*class)?;
        }
    }
    Ok(Split { detected, others })
}

/// Takes numbers off others, each from the one at its place.
fn take_off(numbers: &mut [usize], others: &[usize])
    requires count { length others.now ≡ length numbers.old }
    requires less { (t : ℕ) → t < length numbers.old
        → slice_index_or others.now t 0 ≤ slice_index_or numbers.old t 0 }
    ensures count { length numbers.new ≡ length numbers.old }
    ensures each { (t : ℕ) → t < length numbers.old → slice_index_or numbers.new t 0
        + slice_index_or others.now t 0 ≡ slice_index_or numbers.old t 0 }
{
    for place in 0..numbers.len() {
        numbers[place] -= others[place];
    }
}

/// Returns the first place of the greatest of some numbers, and none if all are 0.
fn best_of(news: &[usize]) -> Option<u32>
    requires { length news.now < 2 ^ 32 }
    ensures none { IfNone result ((t : ℕ) → t < length news.now → slice_index_or news.now t 0 ≡ 0) }
    ensures best { IfSome result (λ best. IsBest news.now best) }
{
    let mut best = 0;
    let mut most = 0;
    for test in 0..news.len() {
        if news[test] > most {
            best = test;
            most = news[test];
        }
    }
    if most == 0 { None } else { Some(best as u32) }
}
