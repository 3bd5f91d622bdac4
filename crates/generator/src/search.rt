//! Rounds of random tests, and the classes that remain.

ghost use Rattle.std.specs.Prelude.{◌≡◌, ◌⊎◌, ◌*◌, ◌<◌, ◌≤◌, All, IfErr, IfOk, OnOk, Some};
ghost use Rattle.std.specs.Prelude.{filter, is_none, length, map, zip};
ghost use Rattle.bench_net.specs.Scan.{sources};
ghost use Rattle.patterns.specs.Making.{IsMadeOf};
ghost use Rattle.patterns.specs.Tests.{IsTestList, max_pieces, max_tests};
ghost use Rattle.block_sim.specs.Parts.{piece_count};
ghost use Rattle.region_sim.specs.ClassOrder.{AreAllByRegion};
ghost use Rattle.workers.specs.Verdict.{AreClassFirsts};
ghost use Rattle.region_runs.specs.Refused.{IsOpenFault};
ghost use Rattle.generator.specs.Generated.{AreFewPieces, DetectsEarly, FindsNone, IsWorkFault};
ghost use Rattle.generator.specs.Held.{AreAllowed};
ghost use Rattle.generator.specs.Keeping.{AreLeft};
ghost use Rattle.generator.specs.RandomTests.{after_words, held_word, held_words, next_words};
ghost use Rattle.generator.specs.RandomTests.{numbers};

use crate::Settings;
use crate::keeping::keep_tests;
use block_sim::{Job, JobFault};
use patterns::{BLOCK_SIZE, MAX_PIECES, MAX_TESTS, Tests};
use rand::SeedableRng;
use rand::rngs::SmallRng;
use rand_core::Rng;
use region_runs::run_list;
use region_sim::FirstTest;
use region_sim::class_order::{ClassOrder, class_order};
use report::SimFault;
use std::alloc::{AllocError, Global};
use std::sync::Wait;
use std::thread::Threads;
use workers::{OpenGate, RunFault};

/// The search ends after this number of blocks in a row that detect nothing new.
const QUIET_BLOCKS: u32 = 20;

/// The number of blocks of a round. Each round makes room for its workers anew.
const ROUND_BLOCKS: u32 = 20;

/// Tries random tests on a job, and returns the tests that detect new faults. A source with a bit
/// has it in each test.
pub(crate) fn search<R: Threads + Wait>(
    rt: &R,
    alloc: Global,
    job: &mut Job,
    bits: &[Option<bool>],
    settings: Settings,
) -> Result<Tests, SimFault>
    requires bits { length bits.now ≡ length (sources job.old.circuit) }
    ensures classes { job.new.classes ≡ job.old.classes }
    ensures circuit { job.new.circuit ≡ job.old.circuit }
    ensures list { job.new.list ≡ job.old.list }
    ensures some { IfOk result (λ kept. 1 ≤ kept.width) }
    ensures width { IfOk result (λ kept. kept.width ≡ length (sources job.old.circuit)) }
    ensures pieces { IfOk result (λ kept.
        AreFewPieces (length job.old.classes.representative) (length kept.tests)) }
    ensures early { IfOk result (λ kept. DetectsEarly job.old.list.model job.old.circuit kept.tests
        ⊎ FindsNone job.old.list.model job.old.circuit bits.now settings.seed) }
    ensures allowed { IfOk result (λ kept. AreAllowed bits.now kept.tests) }
    ensures refused { IfErr result (IsWorkFault settings.workers) }
{
    let mut rng = SmallRng::seed_from_u64(settings.seed);
    let mut left = all_classes(alloc, job)?;
    let mut kept = Tests::new(alloc, job.circuit().sources());
    let room = room_of(job);
    let blocks = ROUND_BLOCKS.min(room / BLOCK_SIZE);
    let mut quiet = 0;
    for _round in 0..u32::MAX {
        if left.is_empty() || quiet >= QUIET_BLOCKS || kept.count() >= room {
            return Ok(kept);
        }
        take_random_tests(alloc, job, blocks, bits, &mut rng)?;
        let _tests = job.tests();
        let firsts = class_firsts(rt, alloc, job, &left, settings.workers)?;
        keep_tests(alloc, job, &left, &firsts, room, &mut kept)?;
        let still = undetected(alloc, &left, &firsts)?;
        quiet = if still.len() < left.len() {
            0
        } else {
            quiet + blocks
        };
        left = still;
    }
    Ok(kept)
}

/// Returns the first test that detects each class of a list, in its order, or none.
fn class_firsts<R: Threads + Wait>(
    rt: &R,
    alloc: Global,
    job: &Job,
    classes: &[u32],
    workers: u32,
) -> Result<Vec<Option<u32>>, RunFault>
    requires few { length classes.now ≤ length job.now.classes.representative }
    requires within { All (λ class. class < length job.now.classes.representative) classes.now }
    ensures firsts { IfOk result (λ firsts. AreClassFirsts job.now.list.model job.now.circuit
        job.now.tests.tests classes.now firsts.items) }
    ensures workers { OnOk result ((0 < workers) × (workers ≤ 64)) }
    ensures refused { IfErr result (IsOpenFault workers) }
{
    let _tests = job.tests();
    let firsts = run_list(rt, alloc, job, classes, workers, &FirstTest, &OpenGate)?;
    Ok(firsts)
}

/// Returns the number of tests that a job takes.
fn room_of(job: &Job) -> u32
    ensures limit { result ≤ max_tests }
    ensures pieces { AreFewPieces (length job.now.classes.representative) result }
    ensures some { 64 ≤ result }
{
    let _tests = job.tests();
    let blocks = MAX_PIECES / job.classes().count().max(1);
    BLOCK_SIZE * blocks.min(MAX_TESTS / BLOCK_SIZE)
}

/// Returns all classes of a job, region by region.
fn all_classes(alloc: Global, job: &Job) -> Result<Vec<u32>, AllocError>
    ensures { IfOk result (λ all. AreAllByRegion job.now all.items) }
{
    let order = class_order(alloc, job)?;
    let ClassOrder {
        classes,
        positions: _positions,
    } = order;
    Ok(classes)
}

/// Gives a job this number of blocks of random tests instead of its own. A source with a bit has it
/// in each test.
fn take_random_tests(
    alloc: Global,
    job: &mut Job,
    blocks: u32,
    bits: &[Option<bool>],
    rng: &mut SmallRng,
) -> Result<(), JobFault>
    requires bits { length bits.now ≡ length (sources job.old.circuit) }
    requires limit { blocks ≤ 1024 }
    requires pieces { AreFewPieces (length job.old.classes.representative) (64 * blocks) }
    ensures classes { job.new.classes ≡ job.old.classes }
    ensures circuit { job.new.circuit ≡ job.old.circuit }
    ensures list { job.new.list ≡ job.old.list }
    ensures few { OnOk result (piece_count job.new ≤ max_pieces) }
    ensures tests { OnOk result (length job.new.tests.tests ≡ 64 * blocks) }
    ensures made { OnOk result (IsMadeOf (length (sources job.old.circuit)) (64 * blocks)
        (held_words bits.now
        (next_words (length (sources job.old.circuit) * blocks) (numbers rng.old)))
        job.new.tests) }
    ensures rest { OnOk result (numbers rng.new
        ≡ after_words (length (sources job.old.circuit) * blocks) (numbers rng.old)) }
    ensures refused { IfErr result (λ fault. fault ≡ JobFault.Memory) }
{
    let tests = random_tests(alloc, job.circuit().sources(), blocks, bits, rng)?;
    job.set_tests(alloc, tests)
}

/// Returns this number of blocks of random tests. A source with a bit has it in each test.
fn random_tests(
    alloc: Global,
    width: u32,
    blocks: u32,
    bits: &[Option<bool>],
    rng: &mut SmallRng,
) -> Result<Tests, AllocError>
    requires blocks { blocks ≤ 1024 }
    requires bits { length bits.now ≡ width }
    requires some { 1 ≤ width }
    ensures list { IfOk result (λ tests. IsTestList tests) }
    ensures width { IfOk result (λ tests. tests.width ≡ width) }
    ensures count { IfOk result (λ tests. length tests.tests ≡ 64 * blocks) }
    ensures made { IfOk result (λ tests. IsMadeOf width (64 * blocks)
        (held_words bits.now (next_words (width * blocks) (numbers rng.old))) tests) }
    ensures rest { OnOk result (numbers rng.new ≡ after_words (width * blocks) (numbers rng.old)) }
{
    let words = random_words(alloc, width as usize * blocks as usize, bits, rng)?;
    // Whole blocks have no idle bits, so this only fails if there is no memory.
    let Ok(tests) = Tests::from_words(alloc, width, BLOCK_SIZE * blocks, &words) else {
        return Err(AllocError);
    };
    Ok(tests)
}

/// Returns this number of random words: for each block one for each source. All bits of a word are
/// those of its source, if that has one.
fn random_words(
    alloc: Global,
    count: usize,
    bits: &[Option<bool>],
    rng: &mut SmallRng,
) -> Result<Vec<u64>, AllocError>
    requires { 0 < length bits.now }
    ensures words { IfOk result (λ words.
        words.items ≡ held_words bits.now (next_words count (numbers rng.old))) }
    ensures rest { OnOk result (numbers rng.new ≡ after_words count (numbers rng.old)) }
{
    let mut words = Vec::with_capacity(alloc, count)?;
    for place in 0..count {
        let word = rng.next_u64();
        words.push(held_word(bits[place % bits.len()], word))?;
    }
    Ok(words)
}

/// Returns a word all of whose bits are this one, or the same word if there is none.
fn held_word(bit: Option<bool>, word: u64) -> u64
    ensures { result ≡ held_word bit word }
{
    match bit {
        None => word,
        Some(true) => u64::MAX,
        Some(false) => 0,
    }
}

/// Returns the classes of a list that no test detects.
fn undetected(
    alloc: Global,
    classes: &[u32],
    firsts: &[Option<u32>],
) -> Result<Vec<u32>, AllocError>
    ensures { IfOk result (λ left. AreLeft classes.now firsts.now left.items) }
{
    let left = without_first(alloc, classes, firsts)?;
    Ok(left)
}

/// Returns the classes of a list that have no first test beside them.
fn without_first(
    alloc: Global,
    classes: &[u32],
    firsts: &[Option<u32>],
) -> Result<Vec<u32>, AllocError>
    ensures { IfOk result (λ left. left.items ≡ map (λ at. at.0)
        (filter (λ at. is_none at.1) (zip classes.now firsts.now))) }
{
    classes
        .iter()
        .zip(firsts)
        .filter(|(_class, first)| first.is_none())
        .map(|(class, _first)| *class)
        .collect(alloc)
}
