//! Tests, laid out in words of 64, and their reader.
ghost use Rattle.std.specs.Prelude.{◌≡◌, ◌≢◌, ℕ, ◌+◌, ◌%◌, ◌<◌, ◌≤◌, ◌==◌, ◌⊎◌, [], ◌++◌};
ghost use Rattle.std.specs.Prelude.{◌↔◌, IsTrue, false, map};
ghost use Rattle.std.specs.Prelude.{length, slice_index, slice_index_or, IfOk, IfErr, OnOk, OnErr};
ghost use Rattle.std.specs.Int.{bit_at};
ghost use Rattle.patterns.specs.Making.{IsMadeOf, IsPushRefusal, IsWordsRefusal, digit, row_text};
ghost use Rattle.patterns.specs.Making.{test_text, with_test};
ghost use Rattle.patterns.specs.LaterRows.{HasTestsAfter, IsRefusalAfter, with_tests};
ghost use Rattle.patterns.specs.Tests.{HasTests, IsTestList, IsTestRefusal, IsWord, as_number, bit};
ghost use Rattle.patterns.specs.Tests.{blocks, max_tests, size_of, test_fault};
ghost use Rattle.text_lines.specs.Reading.{row_of, rows_left};

use crate::octet::{Octet, merge_bytes};
use crate::word_rows::{check_idle_bits, make_room, rows_of};
use crate::{BLOCK_SIZE, MAX_TESTS, PushFault, TestFault, WordsFault};
use std::alloc::{AllocError, Global};
use std::marker::Model;
use text_lines::{Row, Rows, are_bits};

/// The tests of a list. Tests, sources and blocks are numbered from 0. Block b has the tests
/// `64 * b` to `64 * b + 63`; the last block may have fewer.
#[derive(Debug, Drop)]
pub struct Tests {
    width: u32,
    count: u32,
    /// For each block the words of its sources. Bit k of a word is the bit of the block's test k,
    /// and 0 past the last test.
    words: Vec<Vec<u64>>,
}

impl Model for Tests {
    ghost use Rattle.std.specs.Prelude.{map};
    ghost use Rattle.patterns.specs.Tests.{TestList};

    ghost Value = { TestList };

    ghost use Rattle.patterns.specs.Words.{tests_of, AreWords};

    ghost view = { λ t. record {
      width = t.width;
      tests = tests_of t.width t.count (map (λ block. block.items) t.words.items);
    } };

    ghost invariant = { λ t. AreWords t.width t.count (map (λ block. block.items) t.words.items) };
}

/// Reads a test file: a row for each test, with a `0` or a `1` for each of `width` sources.
///
/// # Errors
///
/// The first row with an error decides. A row past [`MAX_TESTS`] is [`TestFault::TooMany`] whatever
/// its bytes. A row with any other byte, also a blank inside, is [`TestFault::BadByte`]. A row with
/// another number of bytes is [`TestFault::BadWidth`]. [`TestFault::Memory`] may come instead of
/// any result, if memory ran out.
pub fn read_tests(alloc: Global, text: &[u8], width: u32) -> Result<Tests, TestFault>
    requires { 1 ≤ width }
    ensures tests { IfOk result (λ t. HasTests text.now width t) }
    ensures list { IfOk result (λ t. IsTestList t) }
    ensures refused { IfErr result (λ fault.
        (fault ≡ TestFault.Memory) ⊎ IsTestRefusal text.now width fault) }
{
    let none = Tests::new(alloc, width);
    let rows = Rows::new(text, width as usize);
    read_rows(alloc, none, rows)
}

/// Reads rows as tests, and appends them to `before`. If the rows before them in a file have those
/// tests, the result is the tests of the file.
pub fn read_rows(alloc: Global, before: Tests, rows: Rows<'_>) -> Result<Tests, TestFault>
    ensures tests { IfOk result (λ t. HasTestsAfter before (rows_left rows.entry) t) }
    ensures refused { IfErr result (λ fault. (fault ≡ TestFault.Memory)
        ⊎ IsRefusalAfter before (rows_left rows.entry) fault) }
{
    let width = before.width();
    let mut tests = before;
    let mut octet = Octet::new(alloc, width)?;
    for row in rows {
        check_row(tests.count() + octet.count(), row, width)?;
        octet.push(row.bytes);
        if (tests.count() + octet.count()) % 8 == 0 {
            tests.take(alloc, &mut octet)?;
        }
    }
    tests.take(alloc, &mut octet)?;
    Ok(tests)
}

/// Checks that a row, given with its place among the rows, is a test of this width.
fn check_row(place: u32, row: Row<'_>, width: u32) -> Result<(), TestFault>
    ensures accepted { OnOk result (test_fault width (place, row_of row.entry) ≡ None) }
    ensures room { OnOk result (place < max_tests) }
    ensures width { OnOk result (length row.entry.bytes.now ≡ width) }
    ensures refused { IfErr result (λ fault.
        test_fault width (place, row_of row.entry) ≡ Some fault) }
{
    if place >= MAX_TESTS {
        return Err(TestFault::TooMany);
    }
    if !are_bits(row.bytes) {
        return Err(TestFault::BadByte(row.line));
    }
    if row.bytes.len() != width as usize {
        return Err(TestFault::BadWidth(row.line));
    }
    Ok(())
}

/// Writes a test file, which [`read_tests`] reads as the same tests: for each test a row with a `0`
/// or a `1` for each source, and a line feed.
pub fn write_tests(alloc: Global, tests: &Tests) -> Result<Vec<u8>, AllocError>
    ensures text { IfOk result (λ text. text.items ≡ test_text tests.now.tests) }
    ensures read { 1 ≤ tests.now.width
        → IfOk result (λ text. HasTests text.items tests.now.width tests.now) }
{
    let row = tests.width() as usize + 1;
    let mut text = Vec::with_capacity(alloc, tests.count() as usize * row)?;
    for test in 0..tests.count() {
        tests.push_row(test, &mut text)?;
    }
    Ok(text)
}

impl Tests {
    /// Makes an empty list of tests for this number of sources.
    pub fn new(alloc: Global, width: u32) -> Self
        ensures tests { result ≡ record { width = width; tests = [] } }
        ensures list { IsTestList result }
    {
        Tests {
            width,
            count: 0,
            words: Vec::new(alloc),
        }
    }

    /// Makes tests from words: for each block, from the first on, a word for each source, as
    /// [`Tests::word`] returns it. Bit k of a word, from the least, is the bit of the block's test
    /// k, and 0 past the last test.
    ///
    /// # Errors
    ///
    /// More than [`MAX_TESTS`] tests are [`WordsFault::TooMany`]. Another number of words than the
    /// blocks times `width` is [`WordsFault::BadCount`]. A bit past the last test is
    /// [`WordsFault::IdleBits`], with the first source that has one. [`WordsFault::Memory`] may
    /// come instead of a list of tests, if memory ran out.
    pub fn from_words(
        alloc: Global,
        width: u32,
        count: u32,
        words: &[u64],
    ) -> Result<Tests, WordsFault>
        ensures tests { IfOk result (λ t. IsMadeOf width count words.now t) }
        ensures list { IfOk result (λ t. IsTestList t) }
        ensures refused { IfErr result (λ fault.
            (fault ≡ WordsFault.Memory) ⊎ IsWordsRefusal width count words.now fault) }
    {
        if count > MAX_TESTS {
            return Err(WordsFault::TooMany);
        }
        let blocks = count.div_ceil(BLOCK_SIZE);
        if words.len() != width as usize * blocks as usize {
            return Err(WordsFault::BadCount);
        }
        check_idle_bits(width, count, words)?;
        let words = rows_of(alloc, width, blocks, words)?;
        Ok(Tests {
            width,
            count,
            words,
        })
    }

    /// Adds a test, given by a bit for each source.
    ///
    /// # Errors
    ///
    /// A test past [`MAX_TESTS`] is [`PushFault::TooMany`] whatever its bits. A test with another
    /// number of bits is [`PushFault::BadWidth`]. If memory runs out, the error is
    /// [`PushFault::Memory`]. After an error the tests are as before.
    pub fn push(&mut self, alloc: Global, row: &[bool]) -> Result<(), PushFault>
        ensures pushed { OnOk result (self.new ≡ with_test self.old row.now) }
        ensures kept { OnErr result (self.new ≡ self.old) }
        ensures list { IsTestList self.new }
        ensures refused { IfErr result (λ fault.
            (fault ≡ PushFault.Memory) ⊎ IsPushRefusal self.old row.now fault) }
    {
        let width = self.width() as usize;
        if self.count() >= MAX_TESTS {
            return Err(PushFault::TooMany);
        }
        if row.len() != width {
            return Err(PushFault::BadWidth);
        }
        Ok(self.add(alloc, row)?)
    }

    /// Adds a test of the right width, if there is room for one.
    fn add(&mut self, alloc: Global, row: &[bool]) -> Result<(), AllocError>
        requires room { length self.old.tests < max_tests }
        requires width { length row.now ≡ self.old.width }
        ensures pushed { OnOk result (self.new ≡ with_test self.old row.now) }
        ensures kept { OnErr result (self.new ≡ self.old) }
    {
        make_room(alloc, &mut self.words, self.width, self.count)?;
        let block = (self.count / BLOCK_SIZE) as usize;
        set_lane(&mut self.words[block], row, self.count % BLOCK_SIZE);
        self.count += 1;
        Ok(())
    }

    /// Returns whether all blocks are full, and the tests are within the limit with `more` after
    /// them.
    pub fn takes(&self, more: &Tests) -> bool
        ensures { IsTrue result ↔ ((length self.now.tests % 64 ≡ 0)
            × (length self.now.tests + length more.now.tests ≤ max_tests)) }
    {
        let count = self.count + more.count;
        count <= MAX_TESTS && self.count % BLOCK_SIZE == 0
    }

    /// Appends other tests to blocks that are all full. It fails only for memory, and then the
    /// tests are as they were.
    pub fn append(&mut self, more: Tests) -> Result<(), AllocError>
        requires full { length self.old.tests % 64 ≡ 0 }
        requires width { more.width ≡ self.old.width }
        requires room { length self.old.tests + length more.tests ≤ max_tests }
        ensures appended { OnOk result (self.new ≡ with_tests self.old more.tests) }
        ensures kept { OnErr result (self.new ≡ self.old) }
    {
        let Tests {
            width: _,
            count,
            mut words,
        } = more;
        self.words.append(&mut words)?;
        self.count += count;
        Ok(())
    }

    /// Moves the tests of an octet to the end, into the last block or, if that is full, into the
    /// next one. The block has room for them.
    fn take(&mut self, alloc: Global, octet: &mut Octet) -> Result<(), AllocError>
        requires width { octet.old.width ≡ self.old.width }
        requires fits { length self.old.tests % 64 + length octet.old.tests ≤ 64 }
        requires room { length self.old.tests + length octet.old.tests ≤ max_tests }
        ensures taken { OnOk result (self.new ≡ with_tests self.old octet.old.tests) }
        ensures emptied { OnOk result
            (octet.new ≡ record { width = octet.old.width; tests = [] }) }
    {
        let moved = octet.count();
        if moved == 0 {
            return Ok(());
        }
        make_room(alloc, &mut self.words, self.width, self.count)?;
        let block = (self.count / BLOCK_SIZE) as usize;
        let lane = self.count % BLOCK_SIZE;
        merge_bytes(&mut self.words[block], octet.bytes(), lane);
        self.count += moved;
        octet.clear();
        Ok(())
    }

    /// Adds the row of a test to a file's bytes: a `0` or a `1` for each source, and a line feed.
    /// If memory runs out, the bytes are as before.
    pub fn push_row(&self, test: u32, text: &mut Vec<u8>) -> Result<(), AllocError>
        requires { test < length self.now.tests }
        ensures row { OnOk result (text.new.items
            ≡ text.old.items ++ row_text (slice_index_or self.now.tests test [])) }
        ensures kept { OnErr result (text.new.items ≡ text.old.items) }
    {
        let start = text.len();
        text.resize(start + self.width as usize + 1, b'\n')?;
        let words = self.words[(test / BLOCK_SIZE) as usize].as_slice();
        write_digits(text, start, words, test % BLOCK_SIZE);
        Ok(())
    }

    /// Returns the number of sources of a test.
    pub fn width(&self) -> u32
        ensures width { result ≡ self.now.width }
        ensures tests { IsTestList self.now }
    {
        self.width
    }

    /// Returns the number of tests.
    pub fn count(&self) -> u32
        ensures { result ≡ length self.now.tests }
    {
        self.count
    }

    /// Returns the number of blocks: none if there is no test.
    pub fn blocks(&self) -> u32
        ensures { result ≡ blocks (length self.now.tests) }
    {
        self.count.div_ceil(BLOCK_SIZE)
    }

    /// Returns the number of tests of a block: 64, or fewer in the last block.
    pub fn size_of(&self, block: u32) -> u32
        requires { block < blocks (length self.now.tests) }
        ensures { result ≡ size_of (length self.now.tests) block }
    {
        (self.count - BLOCK_SIZE * block).min(BLOCK_SIZE)
    }

    /// Returns the bit of a test at a source.
    pub fn bit(&self, test: u32, source: u32) -> bool
        requires test { test < length self.now.tests }
        requires source { source < self.now.width }
        ensures { result ≡ bit self.now.tests test source }
    {
        let word = self.word(test / BLOCK_SIZE, source);
        (word >> (test % BLOCK_SIZE)) & 1 == 1
    }

    /// Returns the word of a block at a source: bit k, from the least, is the bit of the block's
    /// test k, and 0 past the last test.
    pub fn word(&self, block: u32, source: u32) -> u64
        requires block { block < blocks (length self.now.tests) }
        requires source { source < self.now.width }
        ensures { IsWord self.now.tests block source result }
    {
        self.words[block as usize][source as usize]
    }
}

/// Sets the bit at `lane` of the word of each source with a 1 in the row.
fn set_lane(words: &mut [u64], row: &[bool], lane: u32)
    requires lane { lane < 64 }
    requires sources { length words.old ≡ length row.now }
    requires clear { (source : ℕ) → bit_at (slice_index words.old source) lane ≡ 0 }
    ensures set { (source : ℕ) → source < length row.now
        → bit_at (slice_index words.new source) lane
        ≡ as_number (slice_index_or row.now source false) }
    ensures others { (source k : ℕ) → k ≢ lane
        → bit_at (slice_index words.new source) k ≡ bit_at (slice_index words.old source) k }
{
    for (source, bit) in row.iter().enumerate() {
        words[source] |= u64::from(*bit) << lane;
    }
}

/// Writes the bit of each word at `lane`, as a digit, from this place of the bytes on.
fn write_digits(text: &mut [u8], start: usize, words: &[u64], lane: u32)
    requires lane { lane < 64 }
    requires place { start + length words.now ≤ length text.old }
    ensures digits { (source byte : ℕ) → source < length words.now
        → slice_index_or text.new (start + source) byte
        ≡ digit (bit_at (slice_index words.now source) lane == 1) }
    ensures others { (place byte : ℕ) → (place < start) ⊎ (start + length words.now ≤ place)
        → slice_index_or text.new place byte ≡ slice_index_or text.old place byte }
{
    for (source, word) in words.iter().enumerate() {
        text[start + source] = digit_at(*word, lane);
    }
}

/// Returns the bit of a word at `lane`, as a digit.
fn digit_at(word: u64, lane: u32) -> u8
    requires { lane < 64 }
    ensures { result ≡ digit (bit_at word lane == 1) }
{
    if (word >> lane) & 1 == 1 { b'1' } else { b'0' }
}
