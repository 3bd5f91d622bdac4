//! Byte outputs: they return how much of a piece they took, and count their failures.
#![tactic(auto)]

ghost use Rattle.std.specs.List.{flat_map};
ghost use Rattle.std.specs.Prelude.{◌≡◌, ◌≤◌, IfOk, length};
ghost use Rattle.std.specs.Io.KnownBytes.{WriteAppends};
ghost use Rattle.byte_output.specs.Output.{Output, TakesAll, Writes, fails_after, is_refusal};

use std::fmt;
use std::io::Write;
use thiserror::Error;

/// An output took nothing more.
#[derive(Clone, Copy, Debug, PartialEq, Eq, Error)]
#[error("cannot write")]
pub struct OutFailed;

/// An output of bytes, which counts its failures.
pub trait Out {
    // The bytes that it has taken, if it records them, and the number of its failures, up to the
    // greatest u64. A call fails if it returns an error, or takes nothing of a piece that isn't
    // empty.
    ghost seen: { Self → Output };

    /// Takes a front part of the piece and returns its length; with an error it took nothing.
    fn put(&mut self, piece: &[u8]) -> Result<usize, OutFailed>
        ensures within { IfOk result (λ n. n ≤ length piece.now) }
        ensures taken { WriteAppends (seen self.old).bytes (seen self.new).bytes result piece.now }
        ensures counted { (seen self.new).fails
            ≡ fails_after (seen self.old).fails (is_refusal result piece.now) };
}

/// An output over a writer of std, by one `write` a call. It records the bytes that the writer
/// records: over a vector, the bytes of the vector.
#[derive(Drop)]
pub struct Plain<W> {
    writer: W,
    fails: u64,
}

impl<W: Write> Plain<W> {
    /// Makes an output over a writer, without a failure so far.
    pub fn new(writer: W) -> Self
        ensures writer { result.writer ≡ writer }
        ensures fresh { result.fails ≡ 0 }
    {
        Plain { writer, fails: 0 }
    }

    /// Returns the writer.
    pub fn into_writer(self) -> W
        ensures { result ≡ self.writer }
    {
        let Plain { writer, fails: _ } = self;
        writer
    }
}

impl<W: Write> Out for Plain<W> {
    ghost seen = { λ p. record { bytes = W.contents p.writer; fails = p.fails } };

    fn put(&mut self, piece: &[u8]) -> Result<usize, OutFailed> {
        match self.writer.write(piece) {
            Ok(n) if n > 0 || piece.is_empty() => Ok(n),
            Ok(n) => {
                self.fails = self.fails.saturating_add(1);
                Ok(n)
            }
            Err(_) => {
                self.fails = self.fails.saturating_add(1);
                Err(OutFailed)
            }
        }
    }
}

/// Puts the whole piece, in as many calls as the output needs. A call that takes nothing is a
/// failure.
pub fn put_all<W: Out>(piece: &[u8], out: &mut W) -> Result<(), OutFailed>
    ensures { Writes result (W.seen out.old) (W.seen out.new) piece.now }
{
    let mut rest = piece;
    while !rest.is_empty() {
        let taken = out.put(rest)?;
        if taken == 0 {
            return Err(OutFailed);
        }
        rest = &rest[taken..];
    }
    Ok(())
}

/// Puts pieces of text, one after another.
pub fn put_pieces<W: Out>(pieces: &[&str], out: &mut W) -> Result<(), OutFailed>
    ensures { Writes result (W.seen out.old) (W.seen out.new) (flat_map (λ p. p.now) pieces.now) }
{
    for piece in pieces {
        put_all(piece.as_bytes(), out)?;
    }
    Ok(())
}

/// An output as a writer of formatted text.
#[derive(Drop)]
pub struct Formatted<'a, W>(pub &'a mut W);

impl<W: Out> fmt::Write for Formatted<'_, W> {
    ghost write_str_gives = { λ old text new.
        TakesAll (W.seen old.0.now) (W.seen new.0.now) text };

    fn write_str(&mut self, s: &str) -> fmt::Result {
        put_all(s.as_bytes(), self.0).map_err(|_| fmt::Error)
    }
}
