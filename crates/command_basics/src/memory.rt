//! The memory that a program frees and takes again.

use std::alloc::{AllocError, Global};

/// The size of the block that a program takes and frees when it begins: just under the 32 MiB above
/// which glibc takes a block from the system in any case.
const LARGE_BLOCK: usize = 33_000_000;

/// Lets the C library keep the memory that the program frees, for what it takes next.
///
/// glibc takes a block of 128 KiB or more from the system, and gives it back when it is freed. Then
/// the system has to clear each page once more. Once such a block was freed, glibc keeps blocks up
/// to its size. So this takes a large block and frees it, without a byte written to it. It saves a
/// sixth of the new pages of a run on a large circuit.
pub fn keep_freed_memory(alloc: Global) {
    drop(large_block(alloc));
}

/// Returns a block that takes no pages. It is a call of its own, since a compiler may leave out a
/// block that is freed where it was taken.
#[inline(never)]
fn large_block(alloc: Global) -> Result<Vec<u8>, AllocError> {
    Vec::with_capacity(alloc, LARGE_BLOCK)
}
