//! An output that takes a part of its bytes.

use report::{Out, OutFailed};
use std::alloc::Global;

/// An output that takes at most `step` bytes a call, and fails past `limit` bytes.
#[derive(Drop)]
pub(crate) struct Screen {
    bytes: Vec<u8>,
    limit: usize,
    step: usize,
    fails: u64,
}

impl Screen {
    /// Returns an output with a limit of bytes, and of bytes a call.
    pub(crate) fn cut(alloc: Global, limit: usize, step: usize) -> Screen {
        Screen {
            bytes: Vec::new(alloc),
            limit,
            step,
            fails: 0,
        }
    }

    /// Returns an output that takes 4,096 bytes.
    pub(crate) fn new(alloc: Global) -> Screen {
        Screen::cut(alloc, 4096, 4096)
    }

    /// Returns the bytes that it has taken.
    pub(crate) fn text(&self) -> &[u8] {
        self.bytes.as_slice()
    }
}

impl Out for Screen {
    ghost use Rattle.std.specs.Prelude.{None};

    ghost seen = { λ s. record { bytes = None; fails = s.fails } };

    fn put(&mut self, piece: &[u8]) -> Result<usize, OutFailed> {
        let room = self.limit.saturating_sub(self.bytes.len());
        let taken = piece.len().min(self.step).min(room);
        if taken == 0 && !piece.is_empty() {
            self.fails = self.fails.saturating_add(1);
            return if self.step == 0 {
                Ok(0)
            } else {
                Err(OutFailed)
            };
        }
        if self.bytes.extend_from_slice(&piece[..taken]).is_err() {
            self.fails = self.fails.saturating_add(1);
            return Err(OutFailed);
        }
        Ok(taken)
    }
}
