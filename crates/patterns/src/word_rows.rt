//! Words from which tests are made: for each block a row of words, one for each source.
ghost use Rattle.std.specs.Prelude.{◌≡◌, ℕ, ◌+◌, ◌*◌, ◌<◌, ◌≤◌, [], map, length};
ghost use Rattle.std.specs.Prelude.{slice_range, slice_index_or, IfOk, IfErr, OnOk, OnErr};
ghost use Rattle.patterns.specs.Making.{HasIdleBit, IsFirstIdle};
ghost use Rattle.patterns.specs.Tests.{blocks, max_tests};
ghost use Rattle.patterns.specs.Words.{AreWords, HaveRoom};

use crate::{BLOCK_SIZE, WordsFault};
use std::alloc::{AllocError, Global};

/// Checks that no word has a bit past the last test. Only a last block that is not full has room
/// for one.
pub(crate) fn check_idle_bits(width: u32, count: u32, words: &[u64]) -> Result<(), WordsFault>
    requires count { count ≤ max_tests }
    requires words { length words.now ≡ width * blocks count }
    ensures accepted { OnOk result ((source : ℕ) → source < width
        → ¬ HasIdleBit width count words.now source) }
    ensures refused { IfErr result (λ fault. (source : ℕ) × (fault ≡ WordsFault.IdleBits source)
        × IsFirstIdle width count words.now source) }
{
    let lanes = count % BLOCK_SIZE;
    if lanes == 0 {
        return Ok(());
    }
    let last = width as usize * (count / BLOCK_SIZE) as usize;
    for source in 0..width {
        if words[last + source as usize] >> lanes != 0 {
            return Err(WordsFault::IdleBits(source));
        }
    }
    Ok(())
}

/// Returns the rows of the blocks.
pub(crate) fn rows_of(
    alloc: Global,
    width: u32,
    blocks: u32,
    words: &[u64],
) -> Result<Vec<Vec<u64>>, AllocError>
    requires { length words.now ≡ width * blocks }
    ensures count { IfOk result (λ rows. length rows.items ≡ blocks) }
    ensures rows { IfOk result (λ rows. (block : ℕ) → block < blocks
        → slice_index_or (map (λ row. row.items) rows.items) block []
        ≡ slice_range words.now (width * block) (width * block + width)) }
{
    let mut rows = Vec::new(alloc);
    for block in 0..blocks {
        let start = width as usize * block as usize;
        let row = &words[start..start + width as usize];
        rows.push(Vec::from_slice(alloc, row)?)?;
    }
    Ok(rows)
}

/// Makes room for one more test after `count` tests: a row of zeros if the last block is full.
pub(crate) fn make_room(
    alloc: Global,
    rows: &mut Vec<Vec<u64>>,
    width: u32,
    count: u32,
) -> Result<(), AllocError>
    requires { AreWords width count (map (λ row. row.items) rows.old.items) }
    ensures room { OnOk result (HaveRoom width count
        (map (λ row. row.items) rows.old.items) (map (λ row. row.items) rows.new.items)) }
    ensures kept { OnErr result (rows.new.items ≡ rows.old.items) }
{
    if count % BLOCK_SIZE == 0 {
        rows.push(vec![in alloc; 0; width as usize]?)?;
    }
    Ok(())
}
