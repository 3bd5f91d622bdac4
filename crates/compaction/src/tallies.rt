//! Numbers in binary, in the lanes of words: one step counts in 128 lanes.

ghost use Rattle.std.specs.Prelude.{◌≡◌, ◌+◌, ◌/◌, ◌%◌, ◌<◌, ◌≤◌, ◌^◌, ℕ, All, [], IfOk, length};
ghost use Rattle.std.specs.Prelude.{map, replicate, slice_index_or};
ghost use Rattle.patterns.specs.Tests.{as_number};
ghost use Rattle.flat_circuit.specs.Words.{lane};
ghost use Rattle.compaction.specs.Tallies.{number_in};

use crate::detections::{GROUP_SIZE, lane_bit};
use std::alloc::{AllocError, Global};

/// Returns how many binary digits the numbers up to this one have.
pub(crate) fn digits_of(number: usize) -> usize
    ensures enough { number < 2 ^ result }
    ensures few { result ≤ number }
{
    if number == 0 {
        0
    } else {
        1 + digits_of(number / 2)
    }
}

/// Returns words for this many groups of lanes, with this many digits each. All numbers are 0.
pub(crate) fn zeros(
    alloc: Global,
    groups: usize,
    digits: usize,
) -> Result<Vec<Vec<u128>>, AllocError>
    ensures count { IfOk result (λ zeros. length zeros.items ≡ groups) }
    ensures zeros { IfOk result (λ zeros.
        All (λ words. words.items ≡ replicate digits 0) zeros.items) }
{
    let mut zeros = Vec::with_capacity(alloc, groups)?;
    for _group in 0..groups {
        zeros.push(vec![in alloc; 0u128; digits]?)?;
    }
    Ok(zeros)
}

/// Adds 1 to the number in each lane in which a word has a 1.
fn add_word(digits: &mut [u128], word: u128)
    requires room { (k : ℕ) → k < 128
        → number_in digits.old k + as_number (lane word k) < 2 ^ length digits.old }
    ensures count { length digits.new ≡ length digits.old }
    ensures sum { (k : ℕ) → k < 128
        → number_in digits.new k ≡ number_in digits.old k + as_number (lane word k) }
{
    if word == 0 {
        return;
    }
    match digits.split_first_mut() {
        None => {}
        Some((digit, higher)) => {
            let carry = *digit & word;
            *digit ^= word;
            add_word(higher, carry);
        }
    }
}

/// Adds 1 to the number in each lane in which the word of its group has a 1.
pub(crate) fn add_words(groups: &mut [Vec<u128>], words: &[u128])
    requires count { length words.now ≡ length groups.old }
    requires room { (group k : ℕ) → group < length groups.old → k < 128
        → number_in (slice_index_or (map (λ words. words.items) groups.old) group []) k
        + as_number (lane (slice_index_or words.now group 0) k)
        < 2 ^ length (slice_index_or (map (λ words. words.items) groups.old) group []) }
    ensures long { map (λ words. length words.items) groups.new
        ≡ map (λ words. length words.items) groups.old }
    ensures sum { (group k : ℕ) → group < length groups.old → k < 128
        → number_in (slice_index_or (map (λ words. words.items) groups.new) group []) k
        ≡ number_in (slice_index_or (map (λ words. words.items) groups.old) group []) k
        + as_number (lane (slice_index_or words.now group 0) k) }
{
    for group in 0..words.len() {
        add_word(groups[group].as_mut_slice(), words[group]);
    }
}

/// Returns the number in a lane.
fn number_of(digits: &[u128], lane: u32) -> usize
    requires lane { lane < 128 }
    requires few { number_in digits.now lane < 2 ^ 64 }
    ensures { result ≡ number_in digits.now lane }
{
    match digits.split_first() {
        None => 0,
        Some((digit, higher)) => usize::from(lane_bit(*digit, lane)) + 2 * number_of(higher, lane),
    }
}

/// Returns the numbers of this many tests, each in the lane of its group.
pub(crate) fn numbers_of(
    alloc: Global,
    groups: &[Vec<u128>],
    tests: u32,
) -> Result<Vec<usize>, AllocError>
    requires few { (t : ℕ) → t < tests → number_in (slice_index_or
        (map (λ words. words.items) groups.now) (t / 128) []) (t % 128) < 2 ^ 64 }
    ensures count { IfOk result (λ numbers. length numbers.items ≡ tests) }
    ensures few { IfOk result (λ numbers. length numbers.items < 2 ^ 32) }
    ensures each { IfOk result (λ numbers. (t : ℕ) → t < tests
        → slice_index_or numbers.items t 0 ≡ number_in (slice_index_or
        (map (λ words. words.items) groups.now) (t / 128) []) (t % 128)) }
{
    let mut numbers = Vec::with_capacity(alloc, tests as usize)?;
    for test in 0..tests {
        numbers.push(number_at(groups, test))?;
    }
    Ok(numbers)
}

/// Returns the number of a test, or 0 if it has no group.
fn number_at(groups: &[Vec<u128>], test: u32) -> usize
    requires few { number_in (slice_index_or (map (λ words. words.items) groups.now)
        (test / 128) []) (test % 128) < 2 ^ 64 }
    ensures { result ≡ number_in (slice_index_or (map (λ words. words.items) groups.now)
        (test / 128) []) (test % 128) }
{
    match groups.get((test / GROUP_SIZE) as usize) {
        Some(digits) => number_of(digits.as_slice(), test % GROUP_SIZE),
        None => 0,
    }
}
