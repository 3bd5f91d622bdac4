//! New tests after the last test of a job, so that the pair of both isn't lost.

ghost use Rattle.std.specs.Prelude.{◌≡◌, ◌+◌, ◌*◌, ◌<◌, ◌≤◌, IfErr, IfOk, OnOk, length};
ghost use Rattle.patterns.specs.Tests.{IsTestList, IsWord, bit, blocks, max_tests};
ghost use Rattle.faultsim_c.specs.Following.{AreFirstWords, after_last};
ghost use Rattle.faultsim_c.specs.Statuses.{IsNextRefusal};

use crate::status::Refusal;
use patterns::{BLOCK_SIZE, MAX_TESTS, Tests, WordsFault};
use std::alloc::{AllocError, Global};

/// The lowest number that has the bit of the last test of a block.
const LAST: u64 = 9223372036854775808;

/// Returns the last test of `old`, if there is one, and the tests of `new` after it.
pub(crate) fn after_last(alloc: Global, old: &Tests, new: Tests) -> Result<Tests, Refusal>
    requires width { old.now.width ≡ new.width }
    requires list { IsTestList new }
    ensures tests { IfOk result (λ tests. tests.tests ≡ after_last old.now.tests new.tests) }
    ensures list { IfOk result (λ tests. IsTestList tests) }
    ensures width { IfOk result (λ tests. tests.width ≡ new.width) }
    ensures refused { IfErr result (IsNextRefusal old.now.tests (length new.tests)) }
{
    if old.count() == 0 {
        return Ok(new);
    }
    if new.count() >= MAX_TESTS {
        return Err(Refusal::Words(WordsFault::TooMany));
    }
    let tests = moved(alloc, old, &new)?;
    Ok(tests)
}

/// Returns the last test of `old` and the tests of `new` after it: the bits of each source in `new`
/// move by one test.
fn moved(alloc: Global, old: &Tests, new: &Tests) -> Result<Tests, AllocError>
    requires some { 0 < length old.now.tests }
    requires room { length new.now.tests < max_tests }
    requires width { old.now.width ≡ new.now.width }
    ensures tests { IfOk result (λ tests. tests.tests ≡ after_last old.now.tests new.now.tests) }
    ensures list { IfOk result (λ tests. IsTestList tests) }
    ensures width { IfOk result (λ tests. tests.width ≡ new.now.width) }
{
    let _width = old.width();
    let words = moved_words(alloc, old, new)?;
    match Tests::from_words(alloc, new.width(), new.count() + 1, words.as_slice()) {
        Ok(tests) => Ok(tests),
        Err(fault) => Err(memory_of(fault)),
    }
}

/// Returns the error of words that are right: memory ran out.
fn memory_of(fault: WordsFault) -> AllocError
    requires { fault ≡ WordsFault.Memory }
{
    let _fault = fault;
    AllocError
}

/// Returns the words of the last test of `old` and the tests of `new` after it: for each block,
/// from the first on, one for each source.
fn moved_words(alloc: Global, old: &Tests, new: &Tests) -> Result<Vec<u64>, AllocError>
    requires some { 0 < length old.now.tests }
    requires room { length new.now.tests < max_tests }
    requires width { old.now.width ≡ new.now.width }
    ensures count { IfOk result (λ words. length words.items
        ≡ new.now.width * blocks (length new.now.tests + 1)) }
    ensures words { IfOk result (λ words.
        AreFirstWords (after_last old.now.tests new.now.tests) new.now.width words.items) }
{
    let blocks = new.count() / BLOCK_SIZE + 1;
    let mut words = Vec::with_capacity(alloc, new.width() as usize * blocks as usize)?;
    for block in 0..blocks {
        push_block(old, new, block, &mut words)?;
    }
    Ok(words)
}

/// Adds the words of a block at the end of those of the blocks before it.
fn push_block(old: &Tests, new: &Tests, block: u32, words: &mut Vec<u64>) -> Result<(), AllocError>
    requires some { 0 < length old.now.tests }
    requires width { old.now.width ≡ new.now.width }
    requires block { 64 * block ≤ length new.now.tests }
    requires count { length words.old.items ≡ new.now.width * block }
    requires words { AreFirstWords (after_last old.now.tests new.now.tests) new.now.width
        words.old.items }
    ensures count { OnOk result (length words.new.items ≡ new.now.width * (block + 1)) }
    ensures words { OnOk result (AreFirstWords (after_last old.now.tests new.now.tests)
        new.now.width words.new.items) }
{
    for source in 0..new.width() {
        words.push(moved_word(old, new, block, source))?;
    }
    Ok(())
}

/// Returns the word of a block at a source: of the last test of `old` and the tests of `new` after
/// it.
fn moved_word(old: &Tests, new: &Tests, block: u32, source: u32) -> u64
    requires some { 0 < length old.now.tests }
    requires width { old.now.width ≡ new.now.width }
    requires block { 64 * block ≤ length new.now.tests }
    requires source { source < new.now.width }
    ensures { IsWord (after_last old.now.tests new.now.tests) block source result }
{
    let first = u64::from(bit_before(old, new, block, source));
    let word = word_of(new, block, source);
    (word % LAST) * 2 + first
}

/// Returns the bit of the test before a block of `new`, which for block 0 is the last test of
/// `old`.
fn bit_before(old: &Tests, new: &Tests, block: u32, source: u32) -> bool
    requires some { 0 < length old.now.tests }
    requires width { old.now.width ≡ new.now.width }
    requires block { 64 * block ≤ length new.now.tests }
    requires source { source < new.now.width }
    ensures { result ≡ bit (after_last old.now.tests new.now.tests) (64 * block) source }
{
    let _width = new.width();
    if block == 0 {
        return old.bit(old.count() - 1, source);
    }
    new.bit(BLOCK_SIZE * block - 1, source)
}

/// Returns the word of a block at a source, or 0 for the block after the last.
fn word_of(tests: &Tests, block: u32, source: u32) -> u64
    requires { source < tests.now.width }
    ensures { IsWord tests.now.tests block source result }
{
    if block < tests.blocks() {
        return tests.word(block, source);
    }
    0
}
