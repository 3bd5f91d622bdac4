//! The separator of the parts of a name.

ghost use Rattle.std.specs.Prelude.{◌≡◌, ◌<◌, ◌≤◌};

/// A byte of ASCII at which a block of a name ends.
#[derive(Clone, Copy)]
pub struct Separator {
    byte: u8,
    ghost ascii: { byte < 128 },
}

impl Separator {
    ghost use Rattle.std.specs.Prelude.{MatchOption};
    ghost use Rattle.block_coverage.specs.Blocks.{byte_of};

    /// Returns the separator that a byte is, or `None` if it isn't ASCII.
    pub fn of(byte: u8) -> Option<Separator>
        ensures { MatchOption result (128 ≤ byte) (λ separator. byte_of separator ≡ byte) }
    {
        if byte < 128 {
            Some(Separator { byte })
        } else {
            None
        }
    }

    /// Returns the byte.
    pub fn byte(self) -> u8
        ensures byte { result ≡ byte_of self }
        ensures ascii { result < 128 }
    {
        self.byte
    }
}
