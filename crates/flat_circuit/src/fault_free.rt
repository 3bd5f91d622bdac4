//! The fault-free words of all signals, computed in one thread or in several.

ghost use Rattle.std.specs.Prelude.{◌≡◌, ◌+◌, ◌<◌, ◌≤◌, All, IfOk, length, map, vec_len};
ghost use Rattle.bench_net.specs.Scan.{sources};
ghost use Rattle.flat_circuit.specs.GroupRows.{AreOwnRows, AreRowsFrom, HasRows, AreFaultFree};
ghost use Rattle.flat_circuit.specs.BlockSpans.{groups};

use crate::flat::FlatCircuit;
use crate::four_words::evaluate_four;
use crate::words::evaluate;
use patterns::Tests;
use std::alloc::{AllocError, Global};
use std::snapshot::Snapshot;
use std::sync::Wait;
use std::sync::atomic::{AtomicU32, Ordering};
use std::thread;
use std::thread::{Promise, Threads};

/// The number of words that a thread computes in about a millisecond, about 20 times as long as the
/// start of a thread.
const WORDS_OF_A_THREAD: u64 = 1 << 15;

/// The number of groups of a pass ([`rows_between`]).
const GROUPS_OF_A_PASS: u32 = 4;

/// The most threads that compute words, whatever number is requested.
const MAX_THREADS: u32 = 64;

/// The words of groups that follow each other.
#[derive(Drop)]
struct GroupRows {
    /// The first of the groups.
    first: u32,
    /// For each group the word of each signal, at the signal's place.
    rows: Vec<Vec<u128>>,
}

/// Returns the fault-free words of every group of two blocks, one row for each group. The rows take
/// the memory of spare rows, as far as these are as long.
pub fn fault_free_rows(
    alloc: Global,
    circuit: &FlatCircuit,
    tests: &Tests,
    spare: Vec<Vec<u128>>,
) -> Result<Vec<Vec<u128>>, AllocError>
    requires width { tests.now.width ≡ length (sources circuit.now.statements) }
    ensures count { IfOk result (λ rows. length (map (λ row. row.items) rows.items)
        ≡ groups (length tests.now.tests)) }
    ensures rows { IfOk result (λ rows. AreFaultFree circuit.now.arranged tests.now.tests
        (map (λ row. row.items) rows.items)) }
{
    let mut spare = spare;
    rows_between(alloc, circuit, tests, &mut spare, 0, groups_of(tests))
}

/// Returns the rows of [`fault_free_rows`], computed by at most as many threads as there are
/// workers. Each thread takes some groups at a time ([`step_of`]). If a thread doesn't start, the
/// others compute its rows, or the caller's thread. Only the caller's thread computes a job of few
/// words.
pub fn fault_free_rows_in_threads<R: Threads + Wait>(
    rt: &R,
    alloc: Global,
    circuit: &FlatCircuit,
    tests: &Tests,
    spare: Vec<Vec<u128>>,
    workers: u32,
) -> Result<Vec<Vec<u128>>, AllocError>
    requires width { tests.now.width ≡ length (sources circuit.now.statements) }
    ensures count { IfOk result (λ rows. length (map (λ row. row.items) rows.items)
        ≡ groups (length tests.now.tests)) }
    ensures rows { IfOk result (λ rows. AreFaultFree circuit.now.arranged tests.now.tests
        (map (λ row. row.items) rows.items)) }
{
    let threads = threads_for(circuit.signals(), groups_of(tests), workers);
    if threads < 2 {
        return fault_free_rows(alloc, circuit, tests, spare);
    }
    let shares = shares_of(alloc, spare, threads)?;
    let parts = share_groups(rt, alloc, circuit, tests, threads, shares)?;
    let parts = in_order(alloc, circuit, tests, parts)?;
    join_rows(alloc, circuit, tests, parts)
}

/// Returns how many groups of two blocks the tests have.
fn groups_of(tests: &Tests) -> u32
    ensures { result ≡ groups (length tests.now.tests) }
{
    tests.blocks().div_ceil(2)
}

/// Returns how many threads are worth their start: each computes enough words, and at least one
/// group.
fn threads_for(signals: u32, groups: u32, workers: u32) -> u32 {
    let worth = u64::from(signals) * u64::from(groups) / WORDS_OF_A_THREAD;
    let most = workers.min(groups).min(MAX_THREADS);
    u64::from(most).min(worth) as u32
}

/// Returns how many groups a thread takes at a time: those of a pass, or its share if that is less.
fn step_of(groups: u32, threads: u32) -> u32
    ensures { 0 < result }
{
    groups.div_ceil(threads.max(1)).clamp(1, GROUPS_OF_A_PASS)
}

/// Returns a row of this many words, whatever they are. It takes the last spare row, unless that
/// has another length.
fn row_for(alloc: Global, spare: &mut Vec<Vec<u128>>, words: usize) -> Result<Vec<u128>, AllocError>
    ensures len { IfOk result (λ row. vec_len row ≡ words) }
{
    match spare.pop() {
        Some(row) if row.len() == words => Ok(row),
        _ => vec![in alloc; 0u128; words],
    }
}

/// Returns the words of the groups from one up to another, which is not included, in spare rows as
/// far as there are some. One pass computes four groups. Each of up to three groups at the end has
/// a pass of its own.
fn rows_between(
    alloc: Global,
    circuit: &FlatCircuit,
    tests: &Tests,
    spare: &mut Vec<Vec<u128>>,
    first: u32,
    end: u32,
) -> Result<Vec<Vec<u128>>, AllocError>
    requires width { tests.now.width ≡ length (sources circuit.now.statements) }
    requires order { first ≤ end }
    requires end { end ≤ groups (length tests.now.tests) }
    ensures count { IfOk result (λ rows. first + length (map (λ row. row.items) rows.items)
        ≡ end) }
    ensures rows { IfOk result (λ rows. AreRowsFrom circuit.now.arranged tests.now.tests first
        (map (λ row. row.items) rows.items)) }
{
    let fours = (end - first) / GROUPS_OF_A_PASS;
    let mut rows = Vec::with_capacity(alloc, (end - first) as usize)?;
    for four in 0..fours {
        let mut more = four_rows(alloc, circuit, tests, spare, first + 4 * four)?;
        rows.append(&mut more)?;
    }
    let mut rest = single_rows(alloc, circuit, tests, spare, first + 4 * fours, end)?;
    rows.append(&mut rest)?;
    Ok(rows)
}

/// Returns the words of four groups, the first of which is given, computed in one pass.
fn four_rows(
    alloc: Global,
    circuit: &FlatCircuit,
    tests: &Tests,
    spare: &mut Vec<Vec<u128>>,
    group: u32,
) -> Result<Vec<Vec<u128>>, AllocError>
    requires width { tests.now.width ≡ length (sources circuit.now.statements) }
    requires end { group + 4 ≤ groups (length tests.now.tests) }
    ensures count { IfOk result (λ rows. length (map (λ row. row.items) rows.items) ≡ 4) }
    ensures rows { IfOk result (λ rows. AreRowsFrom circuit.now.arranged tests.now.tests group
        (map (λ row. row.items) rows.items)) }
{
    let signals = circuit.signals() as usize;
    let mut first = row_for(alloc, spare, signals)?;
    let mut second = row_for(alloc, spare, signals)?;
    let mut third = row_for(alloc, spare, signals)?;
    let mut fourth = row_for(alloc, spare, signals)?;
    evaluate_four(
        circuit,
        tests,
        group,
        &mut first,
        &mut second,
        &mut third,
        &mut fourth,
    );
    let mut rows = Vec::with_capacity(alloc, 4)?;
    rows.push(first)?;
    rows.push(second)?;
    rows.push(third)?;
    rows.push(fourth)?;
    Ok(rows)
}

/// Returns the words of the groups from one up to another, which is not included, each computed in
/// a pass of its own.
fn single_rows(
    alloc: Global,
    circuit: &FlatCircuit,
    tests: &Tests,
    spare: &mut Vec<Vec<u128>>,
    first: u32,
    end: u32,
) -> Result<Vec<Vec<u128>>, AllocError>
    requires width { tests.now.width ≡ length (sources circuit.now.statements) }
    requires order { first ≤ end }
    requires end { end ≤ groups (length tests.now.tests) }
    ensures count { IfOk result (λ rows. first + length (map (λ row. row.items) rows.items)
        ≡ end) }
    ensures rows { IfOk result (λ rows. AreRowsFrom circuit.now.arranged tests.now.tests first
        (map (λ row. row.items) rows.items)) }
{
    let signals = circuit.signals() as usize;
    let mut rows = Vec::new(alloc);
    for group in first..end {
        let mut row = row_for(alloc, spare, signals)?;
        evaluate(circuit, tests, group, &mut row);
        rows.push(row)?;
    }
    Ok(rows)
}

/// The promise of a thread: its result has the words of groups of these tests.
#[derive(Drop)]
struct WordsOf {
    circuit: Snapshot<FlatCircuit>,
    tests: Snapshot<Tests>,
}

impl Promise<Result<Vec<GroupRows>, AllocError>> for WordsOf {
    ghost use Rattle.flat_circuit.specs.GroupRows.{HasRows};

    ghost kept_by = { λ p r. HasRows p.circuit.value.arranged p.tests.value.tests r };
}

/// Does the work of one thread: computes the words of the next `step` groups that no thread has
/// taken, as long as there are some.
fn take_groups(
    alloc: Global,
    circuit: &FlatCircuit,
    tests: &Tests,
    spare: Vec<Vec<u128>>,
    next: &AtomicU32,
    step: u32,
) -> Result<Vec<GroupRows>, AllocError>
    requires width { tests.now.width ≡ length (sources circuit.now.statements) }
    requires step { 0 < step }
    ensures { HasRows circuit.now.arranged tests.now.tests result }
{
    let count = groups_of(tests);
    let mut spare = spare;
    let mut taken = Vec::new(alloc);
    for _pass in 0..count.div_ceil(step) {
        let first = next.fetch_add(step, Ordering::Relaxed);
        if first >= count {
            break;
        }
        let end = first + step.min(count - first);
        let rows = rows_between(alloc, circuit, tests, &mut spare, first, end)?;
        taken.push(GroupRows { first, rows })?;
    }
    Ok(taken)
}

/// Returns shares of spare rows, one for each thread.
fn shares_of(
    alloc: Global,
    spare: Vec<Vec<u128>>,
    threads: u32,
) -> Result<Vec<Vec<Vec<u128>>>, AllocError> {
    let share = spare.len() / threads.max(1) as usize;
    let mut spare = spare;
    let mut shares = Vec::with_capacity(alloc, threads as usize)?;
    for _thread in 0..threads {
        let left = spare.len().saturating_sub(share);
        shares.push(spare.split_off(left)?)?;
    }
    Ok(shares)
}

/// Computes the words of the groups in threads, one for each share of spare rows. They take some
/// groups at a time, so that all end at about the same time. If a thread doesn't start, no further
/// one is started.
fn share_groups<R: Threads + Wait>(
    rt: &R,
    alloc: Global,
    circuit: &FlatCircuit,
    tests: &Tests,
    threads: u32,
    shares: Vec<Vec<Vec<u128>>>,
) -> Result<Vec<Result<Vec<GroupRows>, AllocError>>, AllocError>
    requires width { tests.now.width ≡ length (sources circuit.now.statements) }
    ensures { IfOk result (λ parts. All (HasRows circuit.now.arranged tests.now.tests)
        parts.items) }
{
    let next = AtomicU32::new(0);
    let next = &next;
    let step = step_of(groups_of(tests), threads);
    thread::scope(
        thread::scope_env(),
        rt,
        |scope| -> Result<Vec<Result<Vec<GroupRows>, AllocError>>, AllocError>
            requires width { tests.now.width ≡ length (sources circuit.now.statements) }
            requires step { 0 < step }
            ensures { IfOk result (λ parts. All (HasRows circuit.entry.now.arranged
                tests.entry.now.tests) parts.items) }
        {
            let mut handles = Vec::with_capacity(alloc, threads as usize)?;
            for spare in shares {
                let promised = WordsOf {
                    circuit: Snapshot::of(circuit),
                    tests: Snapshot::of(tests),
                };
                let Ok(handle) = scope.spawn_with(
                    promised,
                    move || take_groups(alloc, circuit, tests, spare, next, step),
                ) else {
                    break;
                };
                handles.push(handle)?;
            }
            match thread::join_promised(rt, handles) {
                Ok(parts) => Ok(parts),
                Err(_) => Err(AllocError),
            }
        },
    )
}

/// Returns what all threads computed, in the order of the groups.
fn in_order(
    alloc: Global,
    circuit: &FlatCircuit,
    tests: &Tests,
    parts: Vec<Result<Vec<GroupRows>, AllocError>>,
) -> Result<Vec<GroupRows>, AllocError>
    requires { All (HasRows circuit.now.arranged tests.now.tests) parts.items }
    ensures { HasRows circuit.now.arranged tests.now.tests result }
{
    let mut all = Vec::new(alloc);
    for part in parts {
        let mut taken = part?;
        all.append(&mut taken)?;
    }
    all.sort_unstable_by_key(|own| own.first);
    Ok(all)
}

/// Joins the rows of all groups: first the rows that threads returned, in the order of the groups,
/// and then the missing ones.
fn join_rows(
    alloc: Global,
    circuit: &FlatCircuit,
    tests: &Tests,
    parts: Vec<GroupRows>,
) -> Result<Vec<Vec<u128>>, AllocError>
    requires width { tests.now.width ≡ length (sources circuit.now.statements) }
    requires parts { All (AreOwnRows circuit.now.arranged tests.now.tests) parts.items }
    ensures count { IfOk result (λ rows. length (map (λ row. row.items) rows.items)
        ≡ groups (length tests.now.tests)) }
    ensures rows { IfOk result (λ rows. AreFaultFree circuit.now.arranged tests.now.tests
        (map (λ row. row.items) rows.items)) }
{
    let count = groups_of(tests);
    let mut all = Vec::with_capacity(alloc, count as usize)?;
    for part in parts {
        let GroupRows { first, mut rows } = part;
        if first as usize == all.len() {
            all.append(&mut rows)?;
        }
    }
    let mut spare = Vec::new(alloc);
    let mut rest = rows_between(alloc, circuit, tests, &mut spare, all.len() as u32, count)?;
    all.append(&mut rest)?;
    Ok(all)
}
