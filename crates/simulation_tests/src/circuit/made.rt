//! Tests made from words and from bits, and their errors.

use crate::checks::check_ok;
use patterns::{MAX_TESTS, PushFault, Tests, WordsFault, write_tests};
use std::alloc::{AllocError, Global};

/// Words, with the number of sources and the number of tests, and the test file.
struct Case {
    name: &'static str,
    width: u32,
    count: u32,
    words: &'static [u64],
    text: &'static str,
}

static CASES: [Case; 2] = [
    Case {
        name: "three_tests_of_two_sources",
        width: 2,
        count: 3,
        words: &[0b101, 0b110],
        text: "10\n01\n11\n",
    },
    // The last two of 65 tests are the first ones with a 1.
    Case {
        name: "words_across_blocks",
        width: 1,
        count: 65,
        words: &[1 << 63, 1],
        text: "\
            0\n0\n0\n0\n0\n0\n0\n0\n0\n0\n0\n0\n0\n0\n0\n0\n\
            0\n0\n0\n0\n0\n0\n0\n0\n0\n0\n0\n0\n0\n0\n0\n0\n\
            0\n0\n0\n0\n0\n0\n0\n0\n0\n0\n0\n0\n0\n0\n0\n0\n\
            0\n0\n0\n0\n0\n0\n0\n0\n0\n0\n0\n0\n0\n0\n0\n\
            1\n\
            1\n\
            ",
    },
];

/// The number of sources and the number of tests, words, and their error.
static REFUSED: [(u32, u32, &[u64], WordsFault); 6] = [
    (1, 65_537, &[], WordsFault::TooMany),
    (2, 3, &[0b101], WordsFault::BadCount),
    (2, 3, &[0b101, 0b110, 0], WordsFault::BadCount),
    (1, 65, &[0], WordsFault::BadCount),
    (2, 3, &[0b111, 0b1000], WordsFault::IdleBits(1)),
    (3, 2, &[0, 0b100, 0b1100], WordsFault::IdleBits(1)),
];

/// Returns whether tests are written as this file.
fn are_written(alloc: Global, tests: &Tests, text: &str) -> Result<bool, AllocError> {
    let written = write_tests(alloc, tests)?;
    Ok(written.as_slice() == text.as_bytes())
}

/// Returns whether tests have this word at the last source of their last block.
fn has_last_word(tests: &Tests, word: Option<&u64>) -> bool {
    if tests.blocks() == 0 || tests.width() == 0 {
        return false;
    }
    word == Some(&tests.word(tests.blocks() - 1, tests.width() - 1))
}

/// Returns whether the words of a case make tests that are written as its file.
fn is_made(alloc: Global, case: &Case) -> Result<bool, WordsFault> {
    let tests = Tests::from_words(alloc, case.width, case.count, case.words)?;
    Ok(has_last_word(&tests, case.words.last()) && are_written(alloc, &tests, case.text)?)
}

#[test]
fn tests_of_words(rt: HostRuntime) {
    for case in &CASES {
        check_ok(&rt, is_made(rt.alloc(), case), case.name);
    }
    for (width, count, words, fault) in &REFUSED {
        let refused = Tests::from_words(rt.alloc(), *width, *count, words).err();
        assert!(rt; refused == Some(*fault));
    }
}

/// Adds two tests of two sources and then one of one source, and returns the error of the last.
fn push_bits(alloc: Global, tests: &mut Tests) -> Result<Option<PushFault>, PushFault> {
    tests.push(alloc, &[true, false])?;
    tests.push(alloc, &[false, false])?;
    Ok(tests.push(alloc, &[true]).err())
}

/// Returns whether only the test of one source has an error, and the two others are written.
fn are_bits(alloc: Global) -> Result<bool, PushFault> {
    let mut tests = Tests::new(alloc, 2);
    let refused = push_bits(alloc, &mut tests)?;
    Ok(refused == Some(PushFault::BadWidth) && are_written(alloc, &tests, "10\n00\n")?)
}

/// Adds a test of no sources and one of one source, and returns the error of the last.
fn push_two(alloc: Global, tests: &mut Tests) -> Result<Option<PushFault>, PushFault> {
    tests.push(alloc, &[])?;
    Ok(tests.push(alloc, &[true]).err())
}

/// Returns whether the last test within the limit is added, and no more.
fn is_full(alloc: Global) -> Result<bool, WordsFault> {
    let mut tests = Tests::from_words(alloc, 0, MAX_TESTS - 1, &[])?;
    let refused = push_two(alloc, &mut tests);
    Ok(refused == Ok(Some(PushFault::TooMany)) && tests.count() == MAX_TESTS)
}

#[test]
fn tests_of_bits(rt: HostRuntime) {
    check_ok(&rt, are_bits(rt.alloc()), "tests_of_bits");
    check_ok(&rt, is_full(rt.alloc()), "a_test_past_the_limit");
}
