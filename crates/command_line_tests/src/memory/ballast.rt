//! Memory that a test takes, so that none is left for the calls that it tries.

use std::alloc::{AllocError, Global};

/// The most blocks of a ballast.
pub(crate) const ROOM: usize = 200_000;

/// Blocks of memory, the largest first, to which nothing is written.
#[derive(Drop)]
pub(crate) struct Ballast {
    blocks: Vec<Vec<u8>>,
}

impl Ballast {
    /// Takes all memory that the process can have: no allocation of up to a kilobyte, nor a larger
    /// one, succeeds until a block is released.
    pub(crate) fn all(alloc: Global) -> Result<Ballast, AllocError> {
        let mut ballast = Ballast::large(alloc, 17)?;
        ballast.take(alloc, 64);
        for step in (1..65).rev() {
            ballast.take(alloc, 16 * step + 8);
        }
        Ok(ballast)
    }

    /// Takes all memory that comes in blocks of at least 2 to this power bytes.
    pub(crate) fn large(alloc: Global, least: u32) -> Result<Ballast, AllocError> {
        let mut ballast = Ballast {
            blocks: Vec::with_capacity(alloc, ROOM)?,
        };
        for power in (least..47).rev() {
            ballast.take(alloc, 1 << power);
        }
        Ok(ballast)
    }

    /// Takes blocks of this many bytes until an allocation fails.
    fn take(&mut self, alloc: Global, bytes: usize) {
        for _ in 0..ROOM {
            let Ok(block) = Vec::with_capacity(alloc, bytes) else {
                return;
            };
            if self.blocks.push(block).is_err() {
                return;
            }
        }
    }

    /// Frees the block that was taken last.
    pub(crate) fn release(&mut self) {
        self.blocks.pop();
    }
}
